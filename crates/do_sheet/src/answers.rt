// The answers to the slots in words. A slot is three numbers of four bytes: the family, the place, the name. An answer is two: its kind,
// and the row that declares what is reached, or 0.
use bound::{Reference, reference_at};
use form_bytes::word_at;
use readings::{Meaning, final_meaning};
use row_parts::{b_at, x_at};
use scopes::number_of;
use words::row_words::say_declaration;
use words::{Talk, say, say_number};

// More slots than a sheet has: what is taken from it stays below, so that no sum can wrap.
const MOST: u32 = 65536;

// The number this many bytes behind the start of a slot.
pub(crate) fn slot_part(sheet: &[u8], slot: u32, offset: u32) -> u32 {
    word_at(sheet, slot % MOST * 12 + offset % 16)
}

// The same of an answer.
pub(crate) fn answer_part(answers: &[u8], slot: u32, offset: u32) -> u32 {
    word_at(answers, slot % MOST * 8 + offset % 16)
}

fn say_row(fd: Talk<'_>, names: &[u8], form: &[u8], decl: u16) {
    say(fd, b"row ");
    say_number(fd, decl as u32);
    say(fd, b" declares ");
    say_declaration(
        fd,
        names,
        b_at(form, decl),
        number_of(form, decl),
        x_at(form, decl),
    );
}

fn say_meaning(fd: Talk<'_>, names: &[u8], form: &[u8], reference: u16) {
    match final_meaning(form, reference) {
        Some(Meaning { row, .. }) => say_row(fd, names, form, row),
        None => say(fd, b"nothing is reached"),
    }
}

// What the one reference at a place reaches.
fn say_reached(fd: Talk<'_>, names: &[u8], form: &[u8], place: u32) {
    if let Reference::At(row) = reference_at(form, place) {
        say_meaning(fd, names, form, row);
    }
}

// An answer of a kind, with its row.
fn say_answer(fd: Talk<'_>, names: &[u8], form: &[u8], place: u32, kind: u32) {
    match kind {
        0 => {
            say(fd, b"bound as written: ");
            say_reached(fd, names, form, place);
        }
        1 => {
            say(fd, b"bound elsewhere: ");
            say_reached(fd, names, form, place);
        }
        2 => say(fd, b"no reference there"),
        _ => say(fd, b"several references there"),
    }
}

fn say_slot(fd: Talk<'_>, names: &[u8], form: &[u8], sheet: &[u8], answers: &[u8], slot: u32) {
    let place = slot_part(sheet, slot, 4);
    say(fd, b"family ");
    say_number(fd, slot_part(sheet, slot, 0));
    say(fd, b", place ");
    say_number(fd, place);
    say(fd, b": ");
    say_answer(fd, names, form, place, answer_part(answers, slot, 0));
    say(fd, b"\n");
}

// Writes a line for each of this many slots.
pub(crate) fn say_slots(
    fd: Talk<'_>,
    names: &[u8],
    form: &[u8],
    sheet: &[u8],
    answers: &[u8],
    count: usize,
) {
    for slot in 0..count {
        say_slot(fd, names, form, sheet, answers, (slot % 65536) as u32);
    }
}
