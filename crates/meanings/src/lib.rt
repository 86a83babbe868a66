// What every row of a form means, found with tables that are made once.
//
// The readings go through scopes row by row, inner scopes among them, and up to a row's OPEN. Whoever asks for one row does best with them;
// whoever asks for all has them noted here first.
#![tactic(auto)]

mod chains;
pub mod entries;
mod meaning;
mod tables;

ghost use Rattle.std.specs.Prelude.{◌≡◌, ◌<◌};
ghost use Rattle.row_parts.specs.Parts.{rows_in};
ghost use Rattle.scopes.specs.Tables.{Tabled};
ghost use Rattle.meanings.specs.Entries.{told, meant_by, note_from, noted, is_noted, meaning_at, number_at, final_at};

use crate::chains::{BY_NAME, BY_NUMBER, note_chains, note_numbers};
use crate::entries::{Entry, entry_at, put_entry, read, told};
use crate::meaning::meant_by;
use crate::tables::note_scopes;
use readings::{Meaning, is_inserted_outer, meaning_of};
use row_parts::{next, rows_in};
use scopes::number_of;

// Forms of more rows are not noted. All that `wnt` loads have fewer.
pub use scopes::tables::MOST;

// ---- noted

#[tactic(auto, using(crate::proofs::EntryLaws::note_ways))]
fn entry_of(form: &[u8], known: &[u16], names: &[u16], numbers: &[u16], row: u16) -> Entry
    requires { Tabled form.now known.now names.now numbers.now × (row < rows_in form.now) }
    ensures { result ≡ told (meant_by form.now row) }
{
    told(meant_by(form, known, names, numbers, row))
}

// Notes every row with the tables of the form.
fn note_rows(form: &[u8], known: &[u16], names: &[u16], numbers: &[u16], entries: &mut [Entry])
    requires { Tabled form.now known.now names.now numbers.now }
    ensures { entries.new ≡ note_from form.now entries.old 0 (rows_in form.now) }
{
    let rows = rows_in(form);
    for row in 0..rows {
        let entry = entry_of(form, known, names, numbers, row);
        put_entry(entries, row, entry);
    }
}

// Notes the declaration that each row has or means, as far as there is room.
pub fn note_meanings(form: &[u8], entries: &mut [Entry])
    ensures { entries.new ≡ noted form.now entries.old }
{
    if MOST < rows_in(form) as usize {
        return;
    }
    let mut known = [0u16; 2 * MOST];
    let mut spaces = [0u16; 2 * MOST];
    let mut names = [0u16; 2 * MOST];
    let mut numbers = [0u16; 2 * MOST];
    note_scopes(form, &mut known);
    note_numbers(form, &mut known, &mut spaces);
    note_chains(form, &known, &mut names, BY_NAME);
    note_chains(form, &known, &mut numbers, BY_NUMBER);
    note_rows(form, &known, &names, &numbers, entries);
}

// ---- read

// Whether there is an entry of a row.
#[tactic(auto, using(crate::proofs::EntryLaws::read_ways))]
fn is_noted(form: &[u8], entries: &[Entry], row: u16) -> bool
    ensures { result ≡ is_noted form.now entries.now row }
{
    let rows = rows_in(form);
    (rows as usize <= MOST) & ((row < rows) & ((row as usize) < entries.len()))
}

// What a reference means: by its entry, and without one by the readings.
#[tactic(auto, using(crate::proofs::EntryLaws::read_ways))]
pub fn meaning_at(form: &[u8], entries: &[Entry], row: u16) -> Option<Meaning>
    ensures { result ≡ meaning_at form.now entries.now row }
{
    if is_noted(form, entries, row) {
        read(entry_at(entries, row))
    } else {
        meaning_of(form, row)
    }
}

// The number of the declaration at a DECL row.
#[tactic(auto, using(crate::proofs::EntryLaws::read_ways))]
pub fn number_at(form: &[u8], entries: &[Entry], row: u16) -> u32
    ensures { result ≡ number_at form.now entries.now row }
{
    if is_noted(form, entries, row) {
        let entry = entry_at(entries, row);
        entry[1]
    } else {
        number_of(form, row)
    }
}

// What a reference means in the end: behind an inserted outer alias, what its OUTER means.
pub fn final_at(form: &[u8], entries: &[Entry], row: u16) -> Option<Meaning>
    ensures { result ≡ final_at form.now entries.now row }
{
    let meaning = meaning_at(form, entries, row)?;
    let decl = meaning.row;
    if is_inserted_outer(form, decl) {
        meaning_at(form, entries, next(decl))
    } else {
        Some(meaning)
    }
}
