// Buffers of bytes after a call, held to what the vector states of them.
ghost use Rattle.std.specs.Prelude.{◌+◌, ◌≤◌};

use crate::head::{Head, cleared_at, written_at};

pub const FILLING: u8 = 165;

// Every buffer of bytes is the front of one as long as this.
pub type Buffer = [u8; 65536];

// What a byte is that is not written, by whether it is cleared.
fn byte_at(i: usize, cleared: usize) -> u8 {
    if i < cleared { 0 } else { FILLING }
}

// Whether a buffer has the first `long` of the bytes that are written, zeros up to `cleared`, and is as it was beyond.
fn holds(held: &Buffer, written: &Buffer, long: usize, cleared: usize) -> bool {
    let mut i = 0;
    while i < 65536 {
        let mut byte = byte_at(i, cleared);
        if i < long {
            byte = written[i];
        }
        if held[i] != byte {
            return false;
        }
        i += 1;
    }
    true
}

// Reads what is written to the buffer whose words begin at `at`, and answers whether it holds that.
pub fn is_left(head: &Head, at: usize, held: &Buffer) -> bool
    requires { at + 12 ≤ 100 }
{
    let mut written = [0u8; 65536];
    let long = io::count(written_at(head, at) as isize, &written);
    io::read_full(0, &mut written[..long]);
    holds(held, &written, long, cleared_at(head, at))
}
