// The entries of the two lists in words. An entry of the first is four numbers of four bytes: the place, the space, the
// row of the form that was meant, and the row of the resolved form that the number gets. One of the second is three: the
// place, the space, and the number.
use form_bytes::word_at;
use json_parts::{say_count, say_null};
use readings::{Meaning, through_outer};
use row_parts::{OUTER, b_at, code_at, is_inserted, next, x_at};
use scopes::number_of;
use words::kinds::say_space;
use words::names::say_export;
use words::row_words::say_declaration;
use words::{Talk, say, say_number};

// More entries than a list has: what is taken from a list stays below it, so that no sum can wrap.
const MOST: u32 = 65536;

// The number this many bytes behind the start of an entry of the first list.
fn moved_part(list: &[u8], entry: u32, offset: u32) -> u32 {
    word_at(list, entry % MOST * 16 + offset % 16)
}

// The same of the second.
fn apart_part(list: &[u8], entry: u32, offset: u32) -> u32 {
    word_at(list, entry % MOST * 12 + offset % 16)
}

// A space in an entry.
fn space_in(word: u32) -> u8 {
    (word % 256) as u8
}

// A row in an entry.
fn row_in(word: u32) -> u16 {
    (word % MOST) as u16
}

// A declaration and its row.
fn say_row(fd: Talk<'_>, names: &[u8], form: &[u8], decl: u16) {
    say(fd, b"row ");
    say_number(fd, decl as u32);
    say(fd, b", ");
    say_declaration(
        fd,
        names,
        b_at(form, decl),
        number_of(form, decl),
        x_at(form, decl),
    );
}

// What an inserted outer alias leads to: the declaration that its OUTER counts to.
fn say_outer_item(fd: Talk<'_>, names: &[u8], out: &[u8], outer: u16) {
    match through_outer(out, outer) {
        Some(Meaning { row, .. }) => say_row(fd, names, out, row),
        None => say(fd, b"no declaration"),
    }
}

// What an inserted alias of an export leads to: the export of the instance that its REF counts to.
fn say_export_item(fd: Talk<'_>, names: &[u8], out: &[u8], reference: u16) {
    say(fd, b"export ");
    say_export(fd, names, x_at(out, next(reference)));
    say(fd, b" of ");
    say_space(fd, b_at(out, reference));
    say(fd, b" ");
    say_number(fd, x_at(out, reference));
}

// What the number gets: a row of the resolved form.
fn say_gets(fd: Talk<'_>, names: &[u8], out: &[u8], decl: u16) {
    if !is_inserted(out, decl) {
        say_row(fd, names, out, decl);
        return;
    }
    say(fd, b"row ");
    say_number(fd, decl as u32);
    say(fd, b", the inserted alias of ");
    if code_at(out, next(decl)) == OUTER {
        say_outer_item(fd, names, out, next(decl));
    } else {
        say_export_item(fd, names, out, next(decl));
    }
}

// The place of an entry, and the number as it was written.
fn say_written(fd: Talk<'_>, place: u32, space: u8, number: u32) {
    say(fd, b"place ");
    say_number(fd, place);
    say(fd, b": ");
    say_space(fd, space);
    say(fd, b" ");
    say_number(fd, number);
}

fn say_moved_entry(fd: Talk<'_>, names: &[u8], form: &[u8], out: &[u8], list: &[u8], entry: u32) {
    let meant = row_in(moved_part(list, entry, 8));
    say_written(
        fd,
        moved_part(list, entry, 0),
        space_in(moved_part(list, entry, 4)),
        number_of(form, meant),
    );
    say(fd, b" meant ");
    say_row(fd, names, form, meant);
    say(fd, b"; now it gets ");
    say_gets(fd, names, out, row_in(moved_part(list, entry, 12)));
    say(fd, b"\n");
}

// Writes a line for each of the numbers that have moved, this many.
pub(crate) fn say_moved(
    fd: Talk<'_>,
    names: &[u8],
    form: &[u8],
    out: &[u8],
    list: &[u8],
    count: u32,
) {
    for entry in 0..count {
        say_moved_entry(fd, names, form, out, list, entry);
    }
}

// The same as an object of JSON.
fn tell_moved_entry(fd: Talk<'_>, form: &[u8], list: &[u8], entry: u32) {
    let meant = row_in(moved_part(list, entry, 8));
    say_count(
        fd,
        b"{\"moved\":true,\"place\":",
        moved_part(list, entry, 0),
    );
    say_count(fd, b",\"space\":", moved_part(list, entry, 4));
    say_count(fd, b",\"number\":", number_of(form, meant));
    say_count(fd, b",\"meant\":", meant as u32);
    say_count(fd, b",\"gets\":", moved_part(list, entry, 12));
    say(fd, b"}\n");
}

pub(crate) fn tell_moved(fd: Talk<'_>, form: &[u8], list: &[u8], count: u32) {
    for entry in 0..count {
        tell_moved_entry(fd, form, list, entry);
    }
}

fn say_apart_entry(fd: Talk<'_>, list: &[u8], entry: u32) {
    say_written(
        fd,
        apart_part(list, entry, 0),
        space_in(apart_part(list, entry, 4)),
        apart_part(list, entry, 8),
    );
    say(fd, b" meant nothing: no declaration has that number\n");
}

// Writes a line for each of the numbers without an item, this many.
pub(crate) fn say_apart(fd: Talk<'_>, list: &[u8], count: u32) {
    for entry in 0..count {
        say_apart_entry(fd, list, entry);
    }
}

// The same as an object of JSON.
fn tell_apart_entry(fd: Talk<'_>, list: &[u8], entry: u32) {
    say_count(
        fd,
        b"{\"moved\":false,\"place\":",
        apart_part(list, entry, 0),
    );
    say_count(fd, b",\"space\":", apart_part(list, entry, 4));
    say_count(fd, b",\"number\":", apart_part(list, entry, 8));
    say_null(fd, b",\"meant\":");
    say_null(fd, b",\"gets\":");
    say(fd, b"}\n");
}

pub(crate) fn tell_apart(fd: Talk<'_>, list: &[u8], count: u32) {
    for entry in 0..count {
        tell_apart_entry(fd, list, entry);
    }
}
