// The first pass: each DECL is numbered, and each OUTER knows its scope.
ghost use Rattle.std.specs.Prelude.{◌≡◌, [], ◌%◌};
ghost use Rattle.std.proofs.lemmas.List.Edits.{sets};
ghost use Rattle.kit.specs.Out.{◌&◌};
ghost use Rattle.claim_rows.specs.Left.{rows_at};
ghost use Rattle.claim_scopes.specs.Open.{open_in};
ghost use Rattle.back_notes.specs.Number.{out_t, note_t, number_row_t, notes_t};

use crate::note::{Note, put_note};
use claim_numbers::count::{Counts, count};
use claim_scopes::open::{behind_row, here};
use names::{Scope, scope_at};
use parts::{Parts, parts_at};
use rows::row::{DECL, OUTER};

// The most scopes that are open one in another, in any version.
const SCOPES: usize = 64;

// A row that no form has.
const NO_ROW: u32 = 65535;

// The row of a scope's OPEN in two bytes.
fn low(row: usize) -> u32
    ensures { result ≡ row % 65536 }
{
    (row % 65536) as u32
}

// The row of the OPEN of the scope that is this far out; the innermost is 0 scopes out.
fn scope_out(scopes: &[Scope], depth: usize, out: u32) -> u32
    ensures { result ≡ out_t (open_in scopes.now depth) out }
{
    let far = out as usize;
    if depth <= far {
        return NO_ROW;
    }
    low(scope_at(scopes, depth - 1 - far)[1])
}

// What is noted of a row, where this many scopes are open: `number` is its own, if it is a DECL.
fn note_of(p: Parts, number: u32, scopes: &[Scope], depth: usize) -> Note
    ensures { result ≡ note_t (open_in scopes.now depth) number p }
{
    if p.code == DECL {
        return [number, low(here(scopes, depth))];
    }
    if p.code == OUTER {
        return [0, scope_out(scopes, depth, p.x)];
    }
    [0; 2]
}

// Notes row i, and answers how many scopes are open behind it.
fn number_row(
    p: Parts,
    i: usize,
    scopes: &mut [Scope],
    counts: &mut [Counts],
    noted: &mut [Note],
    depth: usize,
) -> usize
    ensures { (result & scopes.new & counts.new & noted.new) ≡ number_row_t p i scopes.old counts.old noted.old depth }
{
    let number = count(counts, depth, p);
    let n = note_of(p, number, scopes, depth);
    put_note(noted, i, n);
    behind_row(scopes, depth, p, i)
}

// Notes the number of each DECL, and of each OUTER where its scope begins.
pub fn number_rows(rows: &[u8], noted: &mut [Note])
    ensures { noted.new ≡ sets noted.old 0 (notes_t 0 [] [] (rows_at rows.now 0)) }
{
    let n = rows.len() / 16;
    let mut scopes: [Scope; SCOPES] = [[0usize; 4]; SCOPES];
    let mut counts: [Counts; SCOPES] = [[0u32; 13]; SCOPES];
    let mut depth = 0;
    for i in 0..n {
        depth = number_row(parts_at(rows, i), i, &mut scopes, &mut counts, noted, depth);
    }
}
