// Why a claim is no output of a form: the condition that is broken, the row of the claim, what stands there and what should.
use crate::verify::paired::{claim_row, row_of};
use readings::{Meaning, meaning_of};
use row_parts::{OUTER, PATH, b_at, code_at, e_at, next, rows_in, x_at, y_at, z_at};
use rows::row::{DECL, FIELD};
use scopes::number_of;
use view::references::say_reference;
use view::show::show_rows;
use whole_form::read::read_claim;
use words::kinds::say_space;
use words::names::say_operand;
use words::refusals::say_meaning;
use words::{Talk, say, say_number};

// A row of a form as it is shown, in a line of its own.
fn say_row(fd: Talk<'_>, names: &[u8], form: &[u8], row: u16) {
    if row < rows_in(form) {
        show_rows(fd, names, form, row, next(row), 0);
    } else {
        say(fd, b"      no row: the form ends here\n");
    }
}

// ---- condition 1

fn say_no_form(fd: Talk<'_>, number: u32) {
    match number {
        1 => say(fd, b"its header is not that of the form"),
        2 => say(
            fd,
            b"its row count is 0 or above 4092, or its length is not 8 + 16 x rows",
        ),
        _ => say_meaning(fd, number, 0, 0),
    }
}

fn say_first(fd: Talk<'_>, claim: &[u8]) {
    match read_claim(claim, 0) {
        Ok(_) => say(fd, b"it is a form"),
        Err(refusal) => say_no_form(fd, refusal.number),
    }
    say(fd, b"\n");
}

// ---- condition 2

fn say_second(fd: Talk<'_>, names: &[u8], form: &[u8], claim: &[u8], row: u16) {
    if code_at(claim, row) == PATH {
        say(fd, b"a PATH row is left\n");
        say_row(fd, names, claim, row);
        return;
    }
    say(
        fd,
        b"without what was added its fields are not the form's; there stands\n",
    );
    say_row(fd, names, claim, row);
    say(fd, b"and the form has there\n");
    say_row(fd, names, form, row_of(form, claim, row));
}

// ---- condition 3

fn say_third(fd: Talk<'_>, names: &[u8], claim: &[u8], row: u16) {
    match code_at(claim, row) {
        FIELD => say(fd, b"an added field is no alias\n"),
        DECL => say(
            fd,
            b"the name of an added field stands in its space and scope already\n",
        ),
        _ => say(fd, b"an operand of an added field is no number\n"),
    }
    say_row(fd, names, claim, row);
}

// ---- condition 4

// The declaration that is meant, as the claim numbers it.
fn say_declared(fd: Talk<'_>, form: &[u8], claim: &[u8], decl: u16, out: u32) {
    let row = claim_row(form, claim, decl);
    say_space(fd, b_at(form, decl));
    say(fd, b" ");
    say_number(fd, number_of(claim, row));
    say(fd, b", row ");
    say_number(fd, row as u32);
    if 0 < out {
        say(fd, b", scopes out: ");
        say_number(fd, out);
    }
}

fn say_meant(fd: Talk<'_>, form: &[u8], claim: &[u8], row: u16) {
    match meaning_of(form, row) {
        Some(Meaning { row: decl, out, .. }) => say_declared(fd, form, claim, decl, out),
        None => say(fd, b"nothing"),
    }
}

// What a name of the form means: of a path, where it begins.
fn say_name(fd: Talk<'_>, names: &[u8], form: &[u8], claim: &[u8], row: u16) {
    say(fd, b"the name ");
    if code_at(form, row) == OUTER {
        say_reference(fd, names, form, row);
    } else {
        say_operand(fd, names, true, x_at(form, row));
    }
    say(fd, b" at place ");
    say_number(fd, z_at(form, row));
    say(fd, b" means ");
    say_meant(fd, form, claim, row);
    if y_at(form, row) != 0 {
        if code_at(form, row) != OUTER {
            say(fd, b", where a path begins; PATH rows: ");
            say_number(fd, y_at(form, row));
        }
    }
}

fn say_fourth(fd: Talk<'_>, names: &[u8], form: &[u8], claim: &[u8], row: u16) {
    let own = row_of(form, claim, row);
    say(fd, b"row ");
    say_number(fd, row as u32);
    say(fd, b" refers to ");
    say_reference(fd, names, claim, row);
    say(fd, b"; ");
    if e_at(form, own) == 0 {
        say(fd, b"the form has ");
        say_reference(fd, names, form, own);
    } else {
        say_name(fd, names, form, claim, own);
    }
    say(fd, b"\n");
}

// Writes a no: the condition, the row, and why.
pub(crate) fn say_no(
    fd: Talk<'_>,
    names: &[u8],
    form: &[u8],
    claim: &[u8],
    condition: u32,
    row: u32,
) {
    let at = (row % 65536) as u16;
    say(fd, b"no, by condition ");
    say_number(fd, condition);
    say(fd, b" at row ");
    say_number(fd, row);
    say(fd, b" of the claim: ");
    match condition {
        1 => say_first(fd, claim),
        2 => say_second(fd, names, form, claim, at),
        3 => say_third(fd, names, claim, at),
        _ => say_fourth(fd, names, form, claim, at),
    }
}
