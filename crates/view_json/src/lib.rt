// Rows of a form as objects of JSON, a line each, and what a form is as one more.
#![tactic(auto)]

ghost use Rattle.std.specs.Prelude.{◌≡◌, ◌||◌};
ghost use Rattle.view.specs.Shown.{is_there, any_there};

use json_parts::{say_count, say_null, say_string, say_truth};
use meanings::entries::Entry;
use meanings::{MOST, final_at, meaning_at, note_meanings, number_at};
use name_file::{Word, find};
use readings::{Meaning, Reading, reading_of};
use row_parts::{
    CASE, EXPORT, PATH, b_at, code_at, e_at, field_of, inserted_in, is_inserted, is_reference,
    next, rows_in, x_at, y_at, z_at,
};
use rows::row::{DECL, OPEN};
use view::accepted::is_resolved;
use words::{Talk, say};

fn say_parts(fd: Talk<'_>, form: &[u8], row: u16) {
    say_count(fd, b"{\"row\":", row as u32);
    say_count(fd, b",\"code\":", code_at(form, row) as u32);
    say_count(fd, b",\"b\":", b_at(form, row) as u32);
    say_count(fd, b",\"e\":", e_at(form, row));
    say_count(fd, b",\"x\":", x_at(form, row));
    say_count(fd, b",\"y\":", y_at(form, row));
    say_count(fd, b",\"z\":", z_at(form, row));
}

// The word that the file has for a name, or for an export name.
pub fn say_word(fd: Talk<'_>, names: &[u8], number: u32, is_export: bool) {
    if let Some(Word { from, to }) = find(names, number, is_export) {
        if (from < to) & (to <= names.len()) {
            say_string(fd, b",\"word\":", &names[from..to]);
            return;
        }
    }
    say_null(fd, b",\"word\":");
}

// Whether x of a row is an export name.
fn is_exporting(code: u8) -> bool {
    (code == PATH) | (code == EXPORT)
}

// Whether it is a name.
fn is_naming(form: &[u8], row: u16) -> bool {
    let code = code_at(form, row);
    let is_operand = is_reference(form, row) & (e_at(form, row) % 2 == 1);
    (code == DECL) | (code == CASE) | (code == OPEN) | is_operand
}

// The word for x, where that is a name or an export name.
fn say_called(fd: Talk<'_>, names: &[u8], form: &[u8], row: u16) {
    let is_export = is_exporting(code_at(form, row));
    if is_export | is_naming(form, row) {
        say_word(fd, names, x_at(form, row), is_export);
    } else {
        say_null(fd, b",\"word\":");
    }
}

// The number of a declaration, in its space and its scope.
fn say_declared(fd: Talk<'_>, form: &[u8], entries: &[Entry], row: u16) {
    if code_at(form, row) == DECL {
        say_count(fd, b",\"number\":", number_at(form, entries, row));
    } else {
        say_null(fd, b",\"number\":");
    }
}

// The declaration that is meant.
pub fn say_meaning(fd: Talk<'_>, key: &[u8], form: &[u8], meaning: Option<Meaning>) {
    match meaning {
        Some(
            Meaning {
                row,
                number,
                out,
                ..
            },
        ) => {
            say(fd, key);
            say_count(fd, b"{\"row\":", row as u32);
            say_count(fd, b",\"space\":", b_at(form, row) as u32);
            say_count(fd, b",\"number\":", number);
            say_count(fd, b",\"out\":", out);
            say(fd, b"}");
        }
        None => say_null(fd, key),
    }
}

fn say_how(fd: Talk<'_>, form: &[u8], row: u16) {
    match reading_of(form, row) {
        Reading::Outward => say(fd, b",\"reading\":\"outward\""),
        Reading::LookedUp => say(fd, b",\"reading\":\"looked up\""),
        Reading::Counting => say(fd, b",\"reading\":\"counting\""),
    }
}

// What a reference means, and what in the end, behind an inserted outer alias.
fn say_reading(fd: Talk<'_>, form: &[u8], entries: &[Entry], row: u16) {
    if is_reference(form, row) {
        say_how(fd, form, row);
        say_meaning(fd, b",\"meant\":", form, meaning_at(form, entries, row));
        say_meaning(fd, b",\"finally\":", form, final_at(form, entries, row));
    } else {
        say_null(fd, b",\"reading\":");
        say_null(fd, b",\"meant\":");
        say_null(fd, b",\"finally\":");
    }
}

// Writes a row as an object; what it means is told by its entry.
fn tell_row(fd: Talk<'_>, names: &[u8], form: &[u8], entries: &[Entry], row: u16) {
    say_parts(fd, form, row);
    say_count(fd, b",\"field\":", field_of(form, row) as u32);
    say_truth(
        fd,
        b",\"inserted\":",
        is_inserted(form, next(field_of(form, row))),
    );
    say_declared(fd, form, entries, row);
    say_called(fd, names, form, row);
    say_reading(fd, form, entries, row);
    say(fd, b"}\n");
}

fn tell_noted(fd: Talk<'_>, names: &[u8], form: &[u8], entries: &[Entry]) {
    let rows = rows_in(form);
    for row in 0..rows {
        tell_row(fd, names, form, entries, row);
    }
}

// Writes every row as an object.
pub fn tell_rows(fd: Talk<'_>, names: &[u8], form: &[u8]) {
    let mut entries: [Entry; MOST] = [[0; 4]; MOST];
    note_meanings(form, &mut entries);
    tell_noted(fd, names, form, &entries);
}

// What the resolver answers: a refusal's number and place, or 0 and 0.
pub fn say_answer(fd: Talk<'_>, number: u32, place: u32) {
    say_truth(fd, b",\"accepted\":", number == 0);
    say_count(fd, b",\"number\":", number);
    say_count(fd, b",\"place\":", place);
}

// How many rows and inserted fields a form has.
pub fn say_size(fd: Talk<'_>, form: &[u8]) {
    say_count(fd, b",\"rows\":", rows_in(form) as u32);
    say_count(fd, b",\"inserted\":", inserted_in(form));
}

// Whether a row is a reference with that place.
fn is_there(form: &[u8], row: u16, place: u32) -> bool
    ensures { result ≡ is_there form.now row place }
{
    is_reference(form, row) & (z_at(form, row) == place)
}

// Writes a row that is a reference with that place, and answers whether this or an earlier row was one.
fn told(
    fd: Talk<'_>,
    names: &[u8],
    form: &[u8],
    entries: &[Entry],
    row: u16,
    place: u32,
    earlier: bool,
) -> bool
    ensures { result ≡ (earlier || is_there form.now row place) }
{
    let is_one = is_there(form, row, place);
    if is_one {
        tell_row(fd, names, form, entries, row);
    }
    earlier | is_one
}

fn tell_each(fd: Talk<'_>, names: &[u8], form: &[u8], entries: &[Entry], place: u32) -> bool
    ensures { result ≡ any_there form.now place }
{
    let rows = rows_in(form);
    let mut is_found = false;
    let mut row: u16 = 0;
    while row < rows {
        is_found = told(fd, names, form, entries, row, place, is_found);
        row += 1;
    }
    is_found
}

// Writes the references with that place as objects, and answers whether there is one.
pub fn tell_place(fd: Talk<'_>, names: &[u8], form: &[u8], place: u32) -> bool
    ensures { result ≡ any_there form.now place }
{
    let mut entries: [Entry; MOST] = [[0; 4]; MOST];
    note_meanings(form, &mut entries);
    tell_each(fd, names, form, &entries, place)
}

// Writes what a form is: whether it is resolved already, what the resolver answers to it (a refusal's number and place, or
// 0 and 0), and how many rows and inserted fields it has.
pub fn tell_form(fd: Talk<'_>, form: &[u8], number: u32, place: u32) {
    say_truth(fd, b"{\"resolved\":", is_resolved(form));
    say_answer(fd, number, place);
    say_size(fd, form);
    say(fd, b"}\n");
}
