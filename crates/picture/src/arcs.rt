// From which rows arcs go, and to which.
ghost use Rattle.std.specs.Prelude.{◌≡◌};
ghost use Rattle.picture.specs.Arcs.{row_meant, target_of};

use meanings::entries::Entry;
use meanings::meaning_at;
use readings::Meaning;
use row_parts::{is_reference, rows_in};

// More rows than a form has: a row's number by its remainder is one of a table.
pub const MOST: usize = 4096;

// The row that a meaning has, or the row itself whose meaning it is, if there is none.
fn row_meant(meaning: Option<Meaning>, row: u16) -> u16
    ensures { result ≡ row_meant meaning row }
{
    match meaning {
        Some(Meaning { row: decl, .. }) => decl,
        None => row,
    }
}

// The row of the declaration to which an arc leads from a row: what the reference means, with no alias followed. Of a row from which none
// goes it is the row itself.
#[tactic(auto, using(crate::proofs::Laws::arc_ways))]
pub fn target_of(form: &[u8], entries: &[Entry], row: u16) -> u16
    ensures { result ≡ target_of form.now entries.now row }
{
    if is_reference(form, row) {
        row_meant(meaning_at(form, entries, row), row)
    } else {
        row
    }
}

// Notes for each row of a form where its arc leads.
pub fn note_targets(form: &[u8], entries: &[Entry], targets: &mut [u16; MOST]) {
    let rows = rows_in(form);
    for row in 0..rows {
        targets[usize::from(row) % MOST] = target_of(form, entries, row);
    }
}

// What a table has for a row.
pub fn entry_of(table: &[u16; MOST], row: u16) -> u16 {
    table[usize::from(row) % MOST]
}

// The arcs to a declaration with one more, from a row.
fn widen(row: u16, target: u16, first: &mut [u16; MOST], last: &mut [u16; MOST]) {
    let at = usize::from(target) % MOST;
    if last[at] == 0 {
        first[at] = row.min(target);
        last[at] = row.max(target);
    } else {
        first[at] = row.min(first[at]);
        last[at] = row.max(last[at]);
    }
}

// Notes for each declaration, by its row, from which row and up to which the arcs to it reach. Up to row 0 reaches none.
pub fn note_spans(
    rows: u16,
    targets: &[u16; MOST],
    first: &mut [u16; MOST],
    last: &mut [u16; MOST],
) {
    for row in 0..rows {
        let target = entry_of(targets, row);
        if target != row {
            widen(row, target, first, last);
        }
    }
}
