// The rows in words, a line each. A CLOSE has none: its line is the lower edge of a box.
use crate::numbers::has_moved;
use crate::svg::{begin_text, end_text, write, write_unit};
use meanings::entries::Entry;
use meanings::number_at;
use picture::arcs::{MOST, entry_of};
use picture::places::{gap, line_at, row_at};
use row_parts::{b_at, code_at, is_inserted, is_reference, next, rows_in, x_at, z_at};
use rows::row::{CLOSE, DECL, FIELD, OPEN};
use scopes::level_behind;
use view::references::say_reference;
use view::show::say_content;
use words::kinds::say_scope;
use words::names::say_name_if_any;
use words::row_words::{say_declaration, say_place};
use words::{Talk, say_number};

// Whether a row is the FIELD of an inserted field, or its DECL.
fn is_marked(form: &[u8], row: u16) -> bool {
    let code = code_at(form, row);
    ((code == FIELD) & is_inserted(form, next(row))) | ((code == DECL) & is_inserted(form, row))
}

// The class of a row that is no reference.
fn class_of(form: &[u8], row: u16) -> u8 {
    match code_at(form, row) {
        OPEN => b'o',
        FIELD => b'f',
        DECL => b'd',
        _ => b'p',
    }
}

// The class of a reference that means a row, its own if it means nothing; is it a number that has moved?
fn reference_class(row: u16, meant: u16, is_moved: bool) -> u8 {
    if row == meant {
        b'x'
    } else if is_moved {
        b'm'
    } else {
        b'r'
    }
}

// What a reference says, and its place.
fn write_reference(talk: Talk<'_>, names: &[u8], form: &[u8], row: u16) {
    write(talk, b"&#8594; ");
    say_reference(talk, names, form, row);
    say_place(talk, z_at(form, row));
}

// What any other row says, in fewer words than `wnt show` has; of a field also the place.
fn write_words(talk: Talk<'_>, names: &[u8], form: &[u8], entries: &[Entry], row: u16) {
    match code_at(form, row) {
        OPEN => {
            say_scope(talk, b_at(form, row));
            say_name_if_any(talk, names, x_at(form, row));
        }
        DECL => say_declaration(
            talk,
            names,
            b_at(form, row),
            number_at(form, entries, row),
            x_at(form, row),
        ),
        FIELD => {
            say_content(talk, names, form, row);
            say_place(talk, z_at(form, row));
        }
        _ => say_content(talk, names, form, row),
    }
}

fn write_number(talk: Talk<'_>, row: u16) {
    begin_text(talk, b"n", 38, line_at(row, 13));
    say_number(talk, u32::from(row));
    end_text(talk);
}

// The ground on which an inserted row stands.
fn write_ground(talk: Talk<'_>, form: &[u8], row: u16, level: u32, right: u16) {
    let left = row_at(code_at(form, row), level, 0);
    write_unit(talk, b"<rect class=\"g\" x=\"", left);
    write_unit(talk, b"\" y=\"", line_at(row, 1));
    write_unit(talk, b"\" width=\"", gap(left, u32::from(right) / 5 * 4));
    write(talk, b"\" height=\"16\" rx=\"3\"/>\n");
}

// A line below a reference's words, to where its arc begins.
fn write_leader(talk: Talk<'_>, form: &[u8], row: u16, level: u32, right: u16) {
    write_unit(
        talk,
        b"<path class=\"u\" d=\"M",
        row_at(code_at(form, row), level, 4),
    );
    write_unit(talk, b" ", line_at(row, 16));
    write_unit(talk, b"H", u32::from(right));
    write(talk, b"\"/>\n");
}

fn draw_reference(
    talk: Talk<'_>,
    names: &[u8],
    form: &[u8],
    row: u16,
    level: u32,
    class: u8,
    right: u16,
) {
    write_leader(talk, form, row, level, right);
    begin_text(
        talk,
        &[class],
        row_at(code_at(form, row), level, 4),
        line_at(row, 13),
    );
    write_reference(talk, names, form, row);
    end_text(talk);
}

// A row that is no reference; on an orange ground if it was inserted.
fn draw_other(
    talk: Talk<'_>,
    names: &[u8],
    form: &[u8],
    entries: &[Entry],
    row: u16,
    level: u32,
    right: u16,
) {
    let mut class = class_of(form, row);
    if is_marked(form, row) {
        write_ground(talk, form, row, level, right);
        class = b'i';
    }
    begin_text(
        talk,
        &[class],
        row_at(code_at(form, row), level, 4),
        line_at(row, 13),
    );
    write_words(talk, names, form, entries, row);
    end_text(talk);
}

// A row behind this many open scopes; `class` is that of a reference.
fn draw_row(
    talk: Talk<'_>,
    names: &[u8],
    form: &[u8],
    entries: &[Entry],
    row: u16,
    level: u32,
    class: u8,
    right: u16,
) {
    if code_at(form, row) == CLOSE {
        return;
    }
    write_number(talk, row);
    if is_reference(form, row) {
        draw_reference(talk, names, form, row, level, class, right);
    } else {
        draw_other(talk, names, form, entries, row, level, right);
    }
}

// Draws the rows of a form. `targets` has for each row what it means, by its entry, `list` this many numbers that have moved.
pub(crate) fn draw_rows(
    talk: Talk<'_>,
    names: &[u8],
    form: &[u8],
    entries: &[Entry],
    targets: &[u16; MOST],
    list: &[u8],
    count: u32,
    right: u16,
) {
    let rows = rows_in(form);
    let mut level: u32 = 0;
    for row in 0..rows {
        let meant = entry_of(targets, row);
        let is_moved = has_moved(form, row, meant, list, count);
        let class = reference_class(row, meant, is_moved);
        draw_row(talk, names, form, entries, row, level, class, right);
        level = level_behind(level, code_at(form, row));
    }
}
