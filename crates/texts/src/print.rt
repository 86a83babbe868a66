// The rows of a form as a text: six numbers a line, and behind them what they say.
ghost use Rattle.std.specs.Prelude.{◌≡◌};
ghost use Rattle.texts.specs.Printed.{is_inserted};

use fixed::HEADER;
use parts::{Parts, parts_at};
use row_parts::{FIRST_FRESH, rows_in};
use rows::row::{DECL, FIELD};
use words::kinds::{say_scope, say_space};
use words::names::{say_export, say_name_if_any, say_operand};
use words::row_words::{say_field_row, say_outer};
use words::{Talk, say, say_number};

fn say_next(fd: Talk<'_>, part: u32) {
    say(fd, b" ");
    say_number(fd, part);
}

fn say_parts(fd: Talk<'_>, row: Parts) {
    say(fd, b"[");
    say_number(fd, row.code as u32);
    say_next(fd, row.b as u32);
    say_next(fd, row.e);
    say_next(fd, row.x);
    say_next(fd, row.y);
    say_next(fd, row.z);
    say(fd, b"]");
}

fn say_reference(fd: Talk<'_>, row: Parts) {
    say(fd, b"refers to ");
    say_space(fd, row.b);
    say(fd, b" ");
    say_operand(fd, b"", row.e == 1, row.x);
    if 0 < row.y {
        say(fd, b", paths: ");
        say_number(fd, row.y);
    }
}

// A word, and the name of what may have none.
fn say_named(fd: Talk<'_>, word: &[u8], name: u32) {
    say(fd, word);
    say_name_if_any(fd, b"", name);
}

fn say_exported(fd: Talk<'_>, word: &[u8], name: u32) {
    say(fd, word);
    say_export(fd, b"", name);
}

fn say_declared(fd: Talk<'_>, row: Parts) {
    say(fd, b"declares ");
    say_space(fd, row.b);
    say_name_if_any(fd, b"", row.x);
}

fn say_opened(fd: Talk<'_>, row: Parts) {
    say(fd, b"open ");
    say_scope(fd, row.b);
    say_name_if_any(fd, b"", row.x);
}

// What a row of a field says: a reference, a name, a scope.
fn say_content(fd: Talk<'_>, row: Parts) {
    let code = row.code;
    match code {
        2 => say_declared(fd, row),
        3 => say_reference(fd, row),
        4 => say_exported(fd, b"path ", row.x),
        5 => {
            say(fd, b"refers to ");
            say_outer(fd, b"", row.b, row.e, row.x, row.y);
        }
        6 => say_named(fd, b"case", row.x),
        7 => say_opened(fd, row),
        8 => say(fd, b"close"),
        9 => say_exported(fd, b"export ", row.x),
        _ => say(fd, b"no row of a form"),
    }
}

// Whether a declaration was inserted, and with it the field in which it stands.
fn is_inserted(row: Parts) -> bool
    ensures { result ≡ is_inserted row }
{
    (row.code == DECL) & (FIRST_FRESH <= row.x)
}

// What a row says; `next` is the row behind it.
fn say_row(fd: Talk<'_>, row: Parts, next: Parts) {
    say_parts(fd, row);
    if row.code == FIELD {
        say(fd, b"  ");
        say_field_row(fd, row.b, row.e, is_inserted(next));
    } else {
        say(fd, b"    ");
        say_content(fd, row);
    }
    say(fd, b"\n");
}

fn say_rows(fd: Talk<'_>, rows: &[u8], count: usize) {
    for i in 0..count {
        say_row(fd, parts_at(rows, i), parts_at(rows, i + 1));
    }
}

// Writes the rows behind a form's header as a text.
pub fn print(fd: Talk<'_>, form: &[u8]) {
    say(
        fd,
        b"# [code b e x y z], and what the row says: wnt form makes a form of this text\n",
    );
    if HEADER <= form.len() {
        say_rows(fd, &form[HEADER..], rows_in(form) as usize);
    }
}
