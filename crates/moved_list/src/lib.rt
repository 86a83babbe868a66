// The two lists of an accepted input: the numbers that have moved, and those that had no item.
//
// The rows of the input are gone through one by one. In the output, scopes open and close in the same order, since no inserted field
// holds one; so a row behind as many OPEN and CLOSE rows is in the same scope.
#![tactic(auto)]

ghost use Rattle.std.specs.Prelude.{◌≡◌, ◌||◌, [], ◌∷◌, ◌+◌, ◌*◌, ◌<◌, ◌≤◌, eqb};
ghost use Rattle.std.proofs.lemmas.List.Edits.{sets};
ghost use Rattle.kit.specs.Out.{◌&◌};
ghost use Rattle.moving.specs.MovedAnswer.{moved_bytes, apart_bytes};
ghost use Rattle.moved_list.specs.Listing.{moved_number, no_item, behind_next, follow, entries_in, noted, none};

use numbers::{Entry, entry_at};
use row_parts::{code_at, rows_in};
use rows::row::{CLOSE, OPEN};
use stores::put_word;

// How many entries the two lists have.
#[derive(Clone, Copy)]
pub struct Listed {
    pub moved: u32,
    pub apart: u32,
}

// Whether a row opens or closes a scope.
fn is_bound(code: u8) -> bool
    ensures { result ≡ (eqb code 7 || eqb code 8) }
{
    (code == OPEN) | (code == CLOSE)
}

// The row behind the next OPEN or CLOSE, from a row on.
#[tactic(auto, using(crate::proofs::Ways::behind_ways))]
fn behind_next(out: &[u8], from: u16) -> u16
    ensures { result ≡ behind_next out.now from }
{
    let rows = rows_in(out);
    for row in from..rows {
        if is_bound(code_at(out, row)) {
            return row + 1;
        }
    }
    from.max(rows)
}

// The output's row in the scope in which the input's next row is, behind a row of that code.
#[tactic(auto, using(crate::proofs::Ways::behind_ways))]
fn follow(out: &[u8], at: u16, code: u8) -> u16
    ensures { result ≡ follow out.now at code }
{
    if is_bound(code) {
        behind_next(out, at)
    } else {
        at
    }
}

// Writes an entry of the first list, the n-th.
#[tactic(auto, using(crate::proofs::Ways::put_ways))]
fn put_moved(list: &mut [u8], n: u32, z: u32, space: u8, meant: u16, gets: u16)
    ensures { list.new ≡ sets list.old (16 * n) (moved_bytes (moved_number z space meant gets ∷ [])) }
{
    let at = 16 * (n as usize);
    put_word(list, at, z as usize);
    put_word(list, at + 4, usize::from(space));
    put_word(list, at + 8, usize::from(meant));
    put_word(list, at + 12, usize::from(gets));
}

// Writes an entry of the second list, the n-th.
#[tactic(auto, using(crate::proofs::Ways::put_ways))]
fn put_apart(list: &mut [u8], n: u32, z: u32, space: u8, number: u32)
    ensures { list.new ≡ sets list.old (12 * n) (apart_bytes (no_item z space number ∷ [])) }
{
    let at = 12 * (n as usize);
    put_word(list, at, z as usize);
    put_word(list, at + 4, usize::from(space));
    put_word(list, at + 8, number as usize);
}

// Writes an entry into its list.
fn put(entry: Option<Entry>, moved: &mut [u8], apart: &mut [u8], s: Listed) -> Listed
    requires { (s.moved < 4294967295) × (s.apart < 4294967295) }
    ensures apart_after { (result & moved.new & apart.new) ≡ noted s moved.old apart.old (entry ∷ []) }
    ensures moved_bound { (result.moved ≤ s.moved + 1) × (result.apart ≤ s.apart + 1) }
{
    let Some(entry) = entry else {
        return s;
    };
    match entry {
        Entry::Moved {
            z,
            space,
            meant,
            gets,
        } => {
            put_moved(moved, s.moved, z, space, meant, gets);
            Listed {
                moved: s.moved + 1,
                apart: s.apart,
            }
        }
        Entry::Apart { z, space, number } => {
            put_apart(apart, s.apart, z, space, number);
            Listed {
                moved: s.moved,
                apart: s.apart + 1,
            }
        }
    }
}

// Writes the two lists for an input and its output, each behind a header of eight bytes. What lies past the end of a list is not stored.
pub fn list_numbers(form: &[u8], out: &[u8], moved: &mut [u8], apart: &mut [u8]) -> Listed
    ensures { (result & moved.new & apart.new) ≡ noted none moved.old apart.old (entries_in form.now out.now) }
{
    let rows = rows_in(form);
    let mut s = Listed { moved: 0, apart: 0 };
    let mut at: u16 = 0;
    for row in 0..rows {
        at = follow(out, at, code_at(form, row));
        s = put(entry_at(form, row, out, at), moved, apart, s);
    }
    s
}
