// The entries of the list of what differs, in words. An entry is five numbers of four bytes, its kind, the first row and how
// many of the left, the same of the right, and then the right's rows of 16 bytes each.
use form_bytes::word_at;
use json_parts::say_count;
use view::show::show_rows;
use words::{Talk, say, say_number};

// More than a list has bytes, or a form rows: what is taken from a list stays below it, so that no sum can wrap.
const MOST: u32 = 1048576;

const ROWS: u32 = 65536;

// The kinds.
const OPENING: u32 = 1;

const LEFT: u32 = 2;

const RIGHT: u32 = 3;

// The number this many bytes behind the start of an entry.
fn part_at(list: &[u8], at: u32, offset: u32) -> u32 {
    word_at(list, at % MOST + offset % 32)
}

fn row_at(list: &[u8], at: u32, offset: u32) -> u32 {
    part_at(list, at, offset) % ROWS
}

// The row behind this many from a row on.
fn end_of(first: u32, count: u32) -> u16 {
    let end = first % ROWS + count % ROWS;
    if end < ROWS { end as u16 } else { 65535 }
}

// How many scopes are open before a row of the root: none before its OPEN, and the root's before its fields.
fn open_before(first: u32) -> u32 {
    if first == 0 { 0 } else { 1 }
}

// The rows of one side.
fn say_side(fd: Talk<'_>, names: &[u8], side: &[u8], form: &[u8], first: u32, count: u32) {
    if count == 0 {
        return;
    }
    say(fd, side);
    say_number(fd, first);
    say(fd, b", rows: ");
    say_number(fd, count);
    say(fd, b"\n");
    show_rows(
        fd,
        names,
        form,
        (first % ROWS) as u16,
        end_of(first, count),
        open_before(first),
    );
}

fn say_kind(fd: Talk<'_>, kind: u32) {
    match kind {
        OPENING => say(fd, b"the root is opened otherwise\n"),
        LEFT => say(fd, b"a field is in the left alone\n"),
        RIGHT => say(fd, b"a field is in the right alone\n"),
        _ => say(fd, b"a field differs\n"),
    }
}

fn say_entry(fd: Talk<'_>, names: &[u8], left: &[u8], right: &[u8], list: &[u8], at: u32) {
    say_kind(fd, part_at(list, at, 0));
    say_side(
        fd,
        names,
        b"left, from row ",
        left,
        row_at(list, at, 4),
        row_at(list, at, 8),
    );
    say_side(
        fd,
        names,
        b"right, from row ",
        right,
        row_at(list, at, 12),
        row_at(list, at, 16),
    );
}

// Where the entry behind one begins.
fn behind_entry(list: &[u8], at: u32) -> u32 {
    at % MOST + 20 + row_at(list, at, 16) % ROWS * 16
}

// Where a list ends, as a number of four bytes.
fn end_in(list: &[u8]) -> u32 {
    (list.len() % 1048576) as u32
}

// Writes the entries of a list in words. There are more turns than a list can have entries.
pub(crate) fn say_entries(fd: Talk<'_>, names: &[u8], left: &[u8], right: &[u8], list: &[u8]) {
    let end = end_in(list);
    let mut at: u32 = 0;
    for turns in 0..MOST {
        if end <= at {
            return;
        }
        say_entry(fd, names, left, right, list, at);
        at = behind_entry(list, at);
    }
}

fn tell_kind(fd: Talk<'_>, kind: u32) {
    match kind {
        OPENING => say(fd, b"{\"kind\":\"opening\""),
        LEFT => say(fd, b"{\"kind\":\"left\""),
        RIGHT => say(fd, b"{\"kind\":\"right\""),
        _ => say(fd, b"{\"kind\":\"differing\""),
    }
}

// An entry as an object of JSON.
fn tell_entry(fd: Talk<'_>, list: &[u8], at: u32) {
    tell_kind(fd, part_at(list, at, 0));
    say_count(fd, b",\"left\":", part_at(list, at, 4));
    say_count(fd, b",\"left_rows\":", part_at(list, at, 8));
    say_count(fd, b",\"right\":", part_at(list, at, 12));
    say_count(fd, b",\"right_rows\":", part_at(list, at, 16));
    say(fd, b"}\n");
}

pub(crate) fn tell_entries(fd: Talk<'_>, list: &[u8]) {
    let end = end_in(list);
    let mut at: u32 = 0;
    for turns in 0..MOST {
        if end <= at {
            return;
        }
        tell_entry(fd, list, at);
        at = behind_entry(list, at);
    }
}
