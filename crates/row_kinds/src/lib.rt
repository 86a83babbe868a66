// Single rows of a form: which are inserted DECLs, which refer to something, the row behind one; and how rows are counted.
#![tactic(auto)]

ghost use Rattle.std.specs.Prelude.{◌≡◌, ◌+◌, ◌≤◌};
ghost use Rattle.row_kinds.specs.Kinds.{is_inserted, is_reference, next_of, count_on};

use fixed::FIRST_FRESH;
use row_bytes::{code_at, x_at};
use rows::row::{DECL, OUTER, REF};

// The row behind a row; the last that can be is its own.
#[tactic(auto, using(crate::proofs::KindLaws::kind_ways))]
pub fn next(row: u16) -> u16
    ensures { result ≡ next_of row }
{
    if row < 65535 { row + 1 } else { row }
}

// Whether a row is an inserted DECL.
pub fn is_inserted(form: &[u8], row: u16) -> bool
    ensures { result ≡ is_inserted form.now row }
{
    (code_at(form, row) == DECL) & (FIRST_FRESH <= x_at(form, row))
}

// Whether a row is a REF or an OUTER.
pub fn is_reference(form: &[u8], row: u16) -> bool
    ensures { result ≡ is_reference form.now row }
{
    let code = code_at(form, row);
    (code == REF) | (code == OUTER)
}

// One more, if there is one more to count; the highest count stays.
#[tactic(auto, using(crate::proofs::KindLaws::kind_ways))]
pub fn counted(count: u32, more: bool) -> u32
    ensures { (result ≡ count_on count more) × (result ≤ count + 1) }
{
    if count == 4294967295 {
        count
    } else if more {
        count + 1
    } else {
        count
    }
}
