// A text, or a form of any version, read whole, if it is no longer than a text of rows need be.
ghost use Rattle.std.specs.Prelude.{◌≡◌, take};
ghost use Rattle.files.specs.Loaded.{Fits};

use files::host::Host;
use files::path_parts::front;
use files::read::load_within;

// The most bytes of a text: 128 for each line of the longest form, and of what is printed no line has more. A form of
// version 2 has at most half of them.
const LARGEST: usize = 524288;

// Reads the text of a path into a buffer.
pub fn load_text(host: Host<'_>, path: &[u8], text: &mut [u8; 524289]) -> Option<usize>
    ensures { Fits 524288 result }
{
    load_within(
        host,
        path,
        text,
        LARGEST,
        b" has more than the 524288 bytes of the longest file that is read",
    )
}

// The first bytes of such a buffer, this many.
pub fn text_part(buffer: &[u8; 524289], count: usize) -> &[u8]
    ensures { result.now ≡ take count buffer.now }
{
    front(buffer, count)
}
