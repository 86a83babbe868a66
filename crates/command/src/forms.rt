// Forms in buffers, and where to speak of one that is written.
ghost use Rattle.std.specs.Prelude.{◌≡◌, take};
ghost use Rattle.command.specs.Status.{talk_beside};

use files::path_parts::{front, is_dash};
use words::{STDERR_FILENO, STDOUT_FILENO};

// The first bytes of a buffer, this many.
pub fn part(buffer: &[u8; 65536], count: usize) -> &[u8]
    ensures { result.now ≡ take count buffer.now }
{
    front(buffer, count)
}

// Where to say what happened, if the form goes to a path.
pub fn talk_beside(path: &[u8]) -> i32
    ensures { result ≡ talk_beside path.now }
{
    if is_dash(path) {
        STDERR_FILENO
    } else {
        STDOUT_FILENO
    }
}
