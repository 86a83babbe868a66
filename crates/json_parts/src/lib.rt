// Members of an object of JSON, each with what stands before its value: a brace or a comma, and its key. All that is
// written is ASCII.
#![tactic(auto)]

use words::{Talk, say, say_hex, say_number};

pub fn say_count(fd: Talk<'_>, key: &[u8], number: u32) {
    say(fd, key);
    say_number(fd, number);
}

pub fn say_truth(fd: Talk<'_>, key: &[u8], is_so: bool) {
    say(fd, key);
    if is_so {
        say(fd, b"true");
    } else {
        say(fd, b"false");
    }
}

pub fn say_null(fd: Talk<'_>, key: &[u8]) {
    say(fd, key);
    say(fd, b"null");
}

// Whether a byte of a string stands for itself: it is printable, and neither a quote nor a backslash.
fn is_plain(byte: u8) -> bool {
    (31 < byte) & (byte < 127) & (byte != b'"') & (byte != b'\\')
}

fn say_byte(fd: Talk<'_>, byte: u8) {
    if is_plain(byte) {
        say(fd, &[byte]);
    } else {
        say(fd, b"\\u");
        say_hex(fd, u64::from(byte), 4);
    }
}

fn say_bytes(fd: Talk<'_>, text: &[u8]) {
    for byte in text {
        say_byte(fd, *byte);
    }
}

// A string: every byte that is not printable ASCII is written as the character of that number.
pub fn say_string(fd: Talk<'_>, key: &[u8], text: &[u8]) {
    say(fd, key);
    say(fd, b"\"");
    say_bytes(fd, text);
    say(fd, b"\"");
}
