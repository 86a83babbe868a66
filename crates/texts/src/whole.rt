// Whether bytes are a header and just the rows that it counts: then they can be had again from a text.
ghost use Rattle.std.specs.Prelude.{◌≡◌};
ghost use Rattle.texts.specs.Whole.{is_whole};

use row_parts::{has_header, rows_in};

// Whether a header of version 1 and just the rows that it counts are there, at least one.
pub fn is_whole(form: &[u8]) -> bool
    ensures { result ≡ is_whole form.now }
{
    has_header(form) & row_parts::is_whole(form) & (0 < rows_in(form))
}
