// What a run came to. A program has no exit status: tools/wnt gives one, by the digit that is written here.
ghost use Rattle.std.specs.Prelude.{◌≡◌};
ghost use Rattle.command.specs.Status.{worse_of};

use files::errors::say_failure;
use files::host::Host;
use files::standard::error_since;

// Accepted, or done.
pub const DONE: u8 = 0;

// Refused, or a no.
pub const NO: u8 = 1;

// It could not be done.
pub const FAILED: u8 = 2;

// Where the digit goes: nothing else is ever written there.
const STATUS_FILENO: i32 = 3;

// The worse of two.
pub fn worse(one: u8, other: u8) -> u8
    ensures { result ≡ worse_of one other }
{
    if one < other { other } else { one }
}

// What an answer on standard output came to: `before` is what was noted as an error before the first word of it, so a write has failed if it has changed.
pub fn said(host: Host<'_>, status: u8, before: i32) -> u8 {
    match error_since(host, before) {
        None => status,
        Some(error) => {
            say_failure(host, b"the answer", b" cannot be written", error);
            FAILED
        }
    }
}

// Tells whoever started the program.
pub fn tell(status: u8) {
    match status {
        DONE => io::write_all(STATUS_FILENO, b"0"),
        NO => io::write_all(STATUS_FILENO, b"1"),
        _ => io::write_all(STATUS_FILENO, b"2"),
    };
}
