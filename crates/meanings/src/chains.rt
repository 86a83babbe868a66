// Chains of declarations, so that one is found without going through its scope. On a chain are the DECL rows whose space, scope and value
// come to its number. There are three kinds: by the space alone, by the name and by the number, which is the value of each. A table of a kind
// has for each chain one more than its last row, and behind these for each row one more than the row before it on its chain; 0 ends it.
//
// Names that are chosen to meet on one chain still cost a pass over it for each reference.
ghost use Rattle.std.specs.Prelude.{◌≡◌, ◌+◌, ◌<◌, ◌≤◌, length};
ghost use Rattle.row_parts.specs.Parts.{rows_in};
ghost use Rattle.scopes.specs.Tables.{count_of, value_of, chain_at, linked, Scopes, Counts, Chains};

use crate::tables::put;
use row_parts::{b_at, code_at, rows_in, x_at};
use rows::row::DECL;
use scopes::tables::{MOST, at, chain_of, is_declared, number_at, scope_at};

const BY_SPACE: u8 = 0;

pub(crate) const BY_NAME: u8 = 1;

pub(crate) const BY_NUMBER: u8 = 2;

// By what a row is on a chain of a kind.
fn value_at(form: &[u8], known: &[u16], kind: u8, row: u16) -> u32
    requires { Counts form.now known.now (row + 1) }
    ensures { result ≡ value_of form.now kind row }
{
    if kind == BY_NAME {
        x_at(form, row)
    } else if kind == BY_NUMBER {
        number_at(form, known, row) as u32
    } else {
        0
    }
}

// The chain on which a row is.
fn chain_at(form: &[u8], known: &[u16], kind: u8, row: u16) -> usize
    requires { Scopes form.now known.now 4096 × Counts form.now known.now (row + 1) }
    ensures { (result ≡ chain_at form.now kind row) × (result < 4096) }
{
    chain_of(
        scope_at(form, known, row),
        b_at(form, row),
        value_at(form, known, kind, row),
    )
}

// Links a row to the one before it on a chain; a DECL is the last one then.
fn link(form: &[u8], chains: &mut [u16], chain: usize, row: u16)
    requires { (row < 4096) × (8192 ≤ length chains.old) }
    ensures { chains.new ≡ linked form.now chains.old chain row }
{
    let before = at(chains, chain);
    put(chains, MOST + row as usize, before);
    if code_at(form, row) == DECL {
        put(chains, chain, row + 1);
    }
}

// Notes the chains of a kind.
pub(crate) fn note_chains(form: &[u8], known: &[u16], chains: &mut [u16], kind: u8)
    requires { Scopes form.now known.now 4096 × Counts form.now known.now (rows_in form.now) × Chains form.now kind chains.old 0 × (rows_in form.now ≤ 4096) × (8192 ≤ length chains.old) }
    ensures { Chains form.now kind chains.new (rows_in form.now) }
{
    let rows = rows_in(form);
    for row in 0..rows {
        let chain = chain_at(form, known, kind, row);
        link(form, chains, chain, row);
    }
}

// ---- numbers

// The number of a declaration is one more than that of the one before it of its space in its scope.
fn number_on(form: &[u8], known: &[u16], spaces: &[u16], chain: usize, row: u16) -> u16
    requires { Scopes form.now known.now 4096 × Counts form.now known.now row × Chains form.now 0 spaces.now row × (chain ≡ chain_at form.now 0 row) × (chain < 4096) × (row < 4096) }
    ensures { result ≡ count_of form.now row }
{
    let scope = scope_at(form, known, row);
    let space = b_at(form, row);
    let mut next = at(spaces, chain);
    while 0 < next {
        let above = next - 1;
        if is_declared(form, known, scope, space, above) {
            return number_at(form, known, above) + 1;
        }
        next = at(spaces, MOST + above as usize);
    }
    0
}

// Notes the number of each declaration, with the chains of the spaces.
pub(crate) fn note_numbers(form: &[u8], known: &mut [u16], spaces: &mut [u16])
    requires { Scopes form.now known.old 4096 × Chains form.now 0 spaces.old 0 × (rows_in form.now ≤ 4096) × (8192 ≤ length known.old) × (8192 ≤ length spaces.old) }
    ensures { Scopes form.now known.new 4096 × Counts form.now known.new (rows_in form.now) }
{
    let rows = rows_in(form);
    for row in 0..rows {
        let chain = chain_of(scope_at(form, known, row), b_at(form, row), 0);
        let number = number_on(form, known, spaces, chain, row);
        put(known, MOST + row as usize, number);
        link(form, spaces, chain, row);
    }
}
