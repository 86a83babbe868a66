// What could not be done, and the system's reason for it, on standard error.
ghost use Rattle.std.specs.Prelude.{◌≤◌, length};

use crate::host::Host;
use std::io::{Error, Write};
use words::say;

// The system's number of an error for bytes that are no text, as a path has to be.
const NO_TEXT: i32 = 84;

// A path as the text that the system's functions take, or the error that it is none.
pub(crate) fn text_of(path: &[u8]) -> std::io::Result<&str> {
    std::str::from_utf8(path).map_err(|_| Error::from_raw_os_error(NO_TEXT))
}

fn say_path(host: Host<'_>, path: &[u8]) {
    if path.len() == 0 {
        say(host.err(), b"a path of no bytes, or of more than 4095,");
    } else {
        say(host.err(), path);
    }
}

// A file, and what is wrong with it.
pub(crate) fn say_wrong(host: Host<'_>, path: &[u8], what: &[u8]) {
    say_path(host, path);
    say(host.err(), what);
    say(host.err(), b"\n");
}

// How many bytes of an error's text stand before its number.
fn reason_length(text: &[u8]) -> usize
    ensures { result ≤ length text.now }
{
    for i in 0..text.len() {
        if text[i..].starts_with(b" (os error ") {
            return i;
        }
    }
    text.len()
}

// Puts an error's text into a buffer, and answers how much room is left.
fn put_error(error: Error, text: &mut [u8]) -> usize {
    let mut rest = text;
    match write!(rest, "{error}") {
        Ok(()) => rest.len(),
        Err(_) => rest.len(),
    }
}

// The system's words for an error, without its number.
fn say_reason(host: Host<'_>, error: Error) {
    let mut text = [0u8; 128];
    let room = put_error(error, &mut text);
    if room <= 128 {
        let written = &text[..128 - room];
        say(host.err(), &written[..reason_length(written)]);
    }
}

// A file, what is wrong with it, and the reason.
pub fn say_failure(host: Host<'_>, path: &[u8], what: &[u8], error: Error) {
    say_path(host, path);
    say(host.err(), what);
    say(host.err(), b": ");
    say_reason(host, error);
    say(host.err(), b"\n");
}
