// Rows written from the last to the first, and a reference as it was before its aliases were inserted.
ghost use Rattle.std.specs.Prelude.{◌≡◌, ◌*◌, ◌/◌, ◌<◌, length, take, drop};
ghost use Rattle.kit.specs.Out.{◌&◌};
ghost use Rattle.back_rows.specs.Below.{below};
ghost use Rattle.back_rows.specs.Restore.{put_bytes, put_back_t, rested_at, begin_t, path_t, restore_ref_t};

use crate::alias::{Alias, alias_before, is_linked};
use back_notes::note::Note;
use put::{copy_row, put_row};
use rows::row::{Index, OUTER, Row};
use std::num::wrapping_add_u32;

// Writes a row before those that begin at `to`, and answers where they begin then; where there is no room, nothing is written.
fn put_back(out: &mut [u8], to: usize, row: Row) -> usize
    ensures { (result & out.new) ≡ put_back_t row to out.old }
{
    if to == 0 {
        return 0;
    }
    put_row(out, to - 1, row);
    to - 1
}

// Copies row i, likewise.
pub(crate) fn copy_back(rows: &[u8], i: usize, out: &mut [u8], to: usize) -> usize
    requires { i < length rows.now / 16 }
    ensures { (result & out.new) ≡ put_bytes (take 16 (drop (16 * i) rows.now)) to out.old }
{
    if to == 0 {
        return 0;
    }
    copy_row(rows, i, out, to - 1);
    to - 1
}

// Where the rows that were written begin, and the row behind the inserted fields that are left.
#[derive(Clone, Copy)]
pub struct Restored {
    pub to: usize,
    pub next: usize,
}

// The reference with which a path begins that ends in the alias `last`, and of which `first` is the first.
fn begin_path(out: &mut [u8], to: usize, last: Alias, first: Alias, count: u32) -> usize
    ensures { (result & out.new) ≡ begin_t last first count to out.old }
{
    put_back(
        out,
        to,
        Row::Ref {
            space: last.decl.b,
            at: Index::Number(first.operand.x),
            paths: count,
            z: last.operand.z,
        },
    )
}

// The reference that the alias `last` served, and those before it that it goes on with.
fn restore_path(rows: &[u8], noted: &[Note], last: Alias, out: &mut [u8], to: usize) -> Restored
    ensures { (rested_at rows.now noted.now result & out.new) ≡ path_t last.start last last (below rows.now noted.now last.start) 1 to out.old }
{
    let mut first = last;
    let mut count: u32 = 1;
    let mut at = to;
    for _ in 0..last.start {
        let a = alias_before(rows, noted, first.start);
        if !is_linked(a, first) {
            return Restored {
                to: begin_path(out, at, last, first, count),
                next: first.start,
            };
        }
        at = put_back(out, at, Row::Path(a.value));
        count = wrapping_add_u32(count, 1);
        first = a;
    }
    Restored {
        to: begin_path(out, at, last, first, count),
        next: first.start,
    }
}

// The reference that the alias served: a name further out, or a path.
pub(crate) fn restore(rows: &[u8], noted: &[Note], a: Alias, out: &mut [u8], to: usize) -> Restored
    ensures { (rested_at rows.now noted.now result & out.new) ≡ restore_ref_t a (below rows.now noted.now a.start) to out.old }
{
    if a.operand.code == OUTER {
        return Restored {
            to: put_back(
                out,
                to,
                Row::Ref {
                    space: a.operand.b,
                    at: Index::Name(a.value),
                    paths: 0,
                    z: a.operand.z,
                },
            ),
            next: a.start,
        };
    }
    let at = put_back(out, to, Row::Path(a.value));
    restore_path(rows, noted, a, out, at)
}
