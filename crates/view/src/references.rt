// A reference's meaning in words.
use meanings::entries::Entry;
use meanings::{final_at, meaning_at};
use readings::{Meaning, Reading, is_inserted_outer, reading_of, space_sought};
use row_parts::{EXPORT, OUTER, PATH, b_at, code_at, e_at, is_ascribed, next, rows_in, x_at, y_at};
use rows::row::REF;
use words::kinds::say_space;
use words::names::{say_export, say_operand};
use words::row_words::{say_alias_of, say_found, say_outer};
use words::{Talk, say};

// What an alias of an export stands for, where a DECL is that of one: its REF and its EXPORT follow.
fn say_alias(fd: Talk<'_>, names: &[u8], form: &[u8], decl: u16) {
    let instance = next(decl);
    let export = next(instance);
    if code_at(form, instance) == REF {
        if code_at(form, export) == EXPORT {
            say_alias_of(
                fd,
                names,
                x_at(form, export),
                b_at(form, instance),
                e_at(form, instance) != 0,
                x_at(form, instance),
            );
        }
    }
}

// A meaning, or the words for there being none.
fn say_meaning(fd: Talk<'_>, names: &[u8], form: &[u8], meaning: Option<Meaning>, missing: &[u8]) {
    match meaning {
        Some(
            Meaning {
                row,
                number,
                out,
                name,
            },
        ) => {
            say_found(fd, names, row as u32, b_at(form, row), number, name, out);
            say_alias(fd, names, form, row);
        }
        None => say(fd, missing),
    }
}

// Where a number counts to an inserted outer alias: what the reference means in the end.
fn say_behind(
    fd: Talk<'_>,
    names: &[u8],
    form: &[u8],
    entries: &[Entry],
    reference: u16,
    meaning: Option<Meaning>,
    before: &[u8],
) {
    let Some(Meaning { row, .. }) = meaning else {
        return;
    };
    if is_inserted_outer(form, row) {
        say(fd, before);
        say(fd, b"through it: ");
        say_meaning(
            fd,
            names,
            form,
            final_at(form, entries, reference),
            b"no declaration is there",
        );
    }
}

// What a REF or an OUTER means, in one or two phrases, each with `before` in front.
pub(crate) fn say_reading(
    fd: Talk<'_>,
    names: &[u8],
    form: &[u8],
    entries: &[Entry],
    row: u16,
    before: &[u8],
) {
    let meaning = meaning_at(form, entries, row);
    say(fd, before);
    match reading_of(form, row) {
        Reading::Outward => {
            say(fd, b"outward: ");
            say_meaning(fd, names, form, meaning, b"no scope declares that name");
        }
        Reading::LookedUp => {
            say(fd, b"looked up: ");
            say_meaning(fd, names, form, meaning, b"no such declaration there");
        }
        Reading::Counting => {
            say(fd, b"counting: ");
            say_meaning(fd, names, form, meaning, b"no declaration has that number");
            say_behind(fd, names, form, entries, row, meaning, before);
        }
    }
}

fn say_step(fd: Talk<'_>, names: &[u8], export: u32) {
    say(fd, b" ");
    say_export(fd, names, export);
}

// The export names of the PATHs behind a REF.
fn say_path(fd: Talk<'_>, names: &[u8], form: &[u8], reference: u16) {
    let rows = rows_in(form);
    for row in next(reference)..rows {
        if code_at(form, row) != PATH {
            return;
        }
        say_step(fd, names, x_at(form, row));
    }
}

fn say_ref(fd: Talk<'_>, names: &[u8], form: &[u8], row: u16) {
    say_space(fd, b_at(form, row));
    if y_at(form, row) != 0 {
        say(fd, b", by path");
        say_path(fd, names, form, row);
        say(fd, b" of ");
        say_space(fd, space_sought(form, row));
    }
    say(fd, b" ");
    say_operand(fd, names, e_at(form, row) != 0, x_at(form, row));
    if is_ascribed(form, row) {
        say(fd, b", the ascribed type");
    }
}

// What a REF or an OUTER names, as it was written.
pub fn say_reference(fd: Talk<'_>, names: &[u8], form: &[u8], row: u16) {
    if code_at(form, row) == OUTER {
        say_outer(
            fd,
            names,
            b_at(form, row),
            e_at(form, row),
            x_at(form, row),
            y_at(form, row),
        );
    } else {
        say_ref(fd, names, form, row);
    }
}
