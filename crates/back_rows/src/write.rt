// All rows, from the last to the first.
ghost use Rattle.std.specs.Prelude.{◌≡◌, ◌+◌, ◌/◌, ◌<◌, false, [], length};
ghost use Rattle.kit.specs.Pick.{pick};
ghost use Rattle.kit.specs.Out.{◌&◌};
ghost use Rattle.parts.specs.PartsAt.{parts_at};
ghost use Rattle.back_notes.specs.Note.{row_at};
ghost use Rattle.back_rows.specs.Below.{below};
ghost use Rattle.back_rows.specs.Write.{field_before_t, left_out_t, cursor_at, start_t, back_ref_t, back_row_t, write_back_t};

use crate::alias::{alias_before, is_for};
use crate::restore::{copy_back, restore};
use back_notes::note::Note;
use parts::{Parts, parts_at};
use rows::row::{FIELD, REF};

// Where the rows are gone through: how many rows of an inserted field are still to be left out; the row behind the inserted fields
// that may serve the next reference, if a reference of the field was met; where the rows that were written begin.
#[derive(Clone, Copy)]
pub struct Cursor {
    pub skip: usize,
    pub inside: bool,
    pub next: usize,
    pub to: usize,
}

// The FIELD that is next before row i.
fn field_before(rows: &[u8], i: usize) -> usize
    ensures { result ≡ field_before_t rows.now i }
{
    for k in (0..i).rev() {
        if parts_at(rows, k).code == FIELD {
            return k;
        }
    }
    0
}

// The row behind the inserted fields that may serve the reference in row i: it is `next`, if one of its field was met before.
fn left_for(rows: &[u8], i: usize, inside: bool, next: usize) -> usize
    ensures { result ≡ pick inside next (field_before_t rows.now i) }
{
    if inside { next } else { field_before(rows, i) }
}

// How many rows are to be left out from the one before `end` on, if `skip` of a field are left: all of an inserted field.
fn left_out(rows: &[u8], noted: &[Note], end: usize, skip: usize) -> usize
    ensures { result ≡ left_out_t skip (below rows.now noted.now end) }
{
    if 0 < skip {
        return skip;
    }
    alias_before(rows, noted, end).size
}

// A reference, which is row i: as it was before the inserted fields that served it, or as it is.
fn back_ref(rows: &[u8], noted: &[Note], i: usize, p: Parts, out: &mut [u8], c: Cursor) -> Cursor
    requires { (i < length rows.now / 16) × (p ≡ parts_at rows.now i) }
    ensures { (cursor_at rows.now noted.now result & out.new) ≡ back_ref_t (row_at rows.now noted.now i) (below rows.now noted.now i) (cursor_at rows.now noted.now c) out.old }
{
    let next = left_for(rows, i, c.inside, c.next);
    let a = alias_before(rows, noted, next);
    if is_for(a, p) {
        let r = restore(rows, noted, a, out, c.to);
        return Cursor {
            skip: 0,
            inside: true,
            next: r.next,
            to: r.to,
        };
    }
    Cursor {
        skip: 0,
        inside: true,
        next,
        to: copy_back(rows, i, out, c.to),
    }
}

// Row i.
fn back_row(rows: &[u8], noted: &[Note], i: usize, out: &mut [u8], c: Cursor) -> Cursor
    requires { i < length rows.now / 16 }
    ensures { (cursor_at rows.now noted.now result & out.new) ≡ back_row_t (row_at rows.now noted.now i) (below rows.now noted.now i) (cursor_at rows.now noted.now c) out.old }
{
    let skip = left_out(rows, noted, i + 1, c.skip);
    if 0 < skip {
        return Cursor {
            skip: skip - 1,
            inside: c.inside,
            next: c.next,
            to: c.to,
        };
    }
    let p = parts_at(rows, i);
    if p.code == REF {
        return back_ref(rows, noted, i, p, out, c);
    }
    Cursor {
        skip: 0,
        inside: c.inside & (p.code != FIELD),
        next: c.next,
        to: copy_back(rows, i, out, c.to),
    }
}

// Writes the rows of the input to the end of `out`, and answers the row at which they begin there. Rows for which there is no
// room are left out.
pub fn write_back(rows: &[u8], noted: &[Note], out: &mut [u8]) -> usize
    ensures { (result & out.new) ≡ write_back_t (below rows.now noted.now (length rows.now / 16)) (start_t (length out.old / 16)) out.old }
{
    let mut c = Cursor {
        skip: 0,
        inside: false,
        next: 0,
        to: out.len() / 16,
    };
    for i in (0..rows.len() / 16).rev() {
        c = back_row(rows, noted, i, out, c);
    }
    c.to
}
