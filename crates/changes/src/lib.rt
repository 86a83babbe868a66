// What was changed in a form that was mended, in words. A change is three numbers of four bytes, its place, how many bytes
// stood there and how many stand there now, and then the bytes that stood there, with zeros up to a multiple of four.
#![tactic(auto)]

ghost use Rattle.std.specs.Prelude.{◌<◌};

use words::{Talk, say, say_number};

// More than a list of changes has bytes: what is taken from a list stays below it, so that no sum can wrap.
const MOST: usize = 1048576;

// The bytes of a change before those that stood there.
const LEAD: usize = 12;

// The byte at i, 0 past the end.
fn byte_at(bytes: &[u8], i: usize) -> u32
    ensures { result < 256 }
{
    if i < bytes.len() {
        u32::from(bytes[i])
    } else {
        0
    }
}

// The number in the four bytes from a on.
fn word_at(bytes: &[u8], a: usize) -> u32 {
    let at = a % MOST;
    byte_at(bytes, at)
        + byte_at(bytes, at + 1) * 256
        + byte_at(bytes, at + 2) * 65536
        + byte_at(bytes, at + 3) * 16777216
}

// The number that stands in this many bytes from a on: one, two or four.
fn value_at(bytes: &[u8], a: usize, width: u32) -> u32 {
    let at = a % MOST;
    match width {
        1 => byte_at(bytes, at),
        2 => byte_at(bytes, at) + byte_at(bytes, at + 1) * 256,
        _ => word_at(bytes, at),
    }
}

// The number of the row that a byte behind the header is in.
fn say_row(fd: Talk<'_>, at: u32) {
    say(fd, b"row ");
    say_number(fd, (at - at % 16) / 16);
}

// The part of a row that begins this many bytes behind the row's first.
fn say_part(fd: Talk<'_>, offset: u32) {
    match offset {
        1 => say(fd, b"b"),
        2 => say(fd, b"e"),
        4 => say(fd, b"x"),
        8 => say(fd, b"y"),
        12 => say(fd, b"z"),
        _ => say(fd, b"code"),
    }
}

// Of the header: byte 5, or the row count.
fn say_header(fd: Talk<'_>, at: u32) {
    if at == 6 {
        say(fd, b"the row count");
    } else {
        say(fd, b"byte ");
        say_number(fd, at);
        say(fd, b" of the header");
    }
}

// What a number was, and what it is.
fn say_values(fd: Talk<'_>, was: u32, is: u32) {
    say(fd, b" was ");
    say_number(fd, was);
    say(fd, b" and is ");
    say_number(fd, is);
    say(fd, b"\n");
}

// A number in the header or in a row.
fn say_number_changed(fd: Talk<'_>, at: u32, was: u32, is: u32) {
    if at < 8 {
        say_header(fd, at);
    } else {
        let behind = at - 8;
        say_row(fd, behind);
        say(fd, b": ");
        say_part(fd, behind % 16);
    }
    say_values(fd, was, is);
}

// Rows that are cut or added at the end; `behind` is how many bytes behind the header they begin.
fn say_end(fd: Talk<'_>, behind: u32, before: u32, now: u32) {
    say_row(fd, behind);
    if 0 < before {
        say(fd, b": bytes cut: ");
        say_number(fd, before);
    }
    if 0 < now {
        say(fd, b": CLOSE rows added: ");
        say_number(fd, now / 16);
    }
    say(fd, b"\n");
}

// The change at byte i of the list; `form` is the mended form.
fn say_change(fd: Talk<'_>, list: &[u8], i: usize, form: &[u8]) {
    let start = i % MOST;
    let at = word_at(list, start);
    let before = word_at(list, start + 4);
    let now = word_at(list, start + 8);
    if before == now {
        say_number_changed(
            fd,
            at,
            word_at(list, start + LEAD),
            value_at(form, at as usize, now),
        );
    } else if at < 8 {
        say_header(fd, at);
        say(fd, b" is mended\n");
    } else {
        say_end(fd, at - 8, before, now);
    }
}

// Where the change behind the one at byte i of the list begins.
fn next_change(list: &[u8], i: usize) -> usize {
    let start = i % MOST;
    let before = (word_at(list, start + 4) as usize) % MOST;
    start + LEAD + (before + 3) / 4 * 4
}

// Writes a line for each of this many changes.
pub fn say_changes(fd: Talk<'_>, list: &[u8], changes: u32, form: &[u8]) {
    let mut i = 0;
    for _ in 0..changes {
        say_change(fd, list, i, form);
        i = next_change(list, i);
    }
}
