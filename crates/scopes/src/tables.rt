// The tables of a form of at most `MOST` rows, as far as they are read here: `known` has the scope of each row, and behind these the number of
// each declaration. Where there are none, `known` has no entry, and the rows are gone through.
ghost use Rattle.std.specs.Prelude.{◌≡◌, ◌+◌, ◌<◌, ◌≤◌, length, get_or};
ghost use Rattle.scopes.specs.Scopes.{scope_of};
ghost use Rattle.scopes.specs.Tables.{stands, count_of, chain_of, Scopes, Counts};

use row_parts::{b_at, code_at};
use rows::row::DECL;
use scope_rows::scope_of;

// A form of more rows has no tables.
pub const MOST: usize = 4096;

// What a table has at i; 0 past the end.
pub fn at(table: &[u16], i: usize) -> u16
    ensures { result ≡ get_or table.now i 0 }
{
    if i < table.len() { table[i] } else { 0 }
}

// The scope of a row, by its entry where it has one.
pub fn scope_at(form: &[u8], known: &[u16], row: u16) -> u16
    requires { 0 < length known.now → Scopes form.now known.now 4096 }
    ensures { (result ≡ scope_of form.now row) × (result ≤ row) }
{
    if known.len() == 0 {
        return scope_of(form, row);
    }
    if row < 4096 {
        at(known, row as usize)
    } else {
        scope_of(form, row)
    }
}

// ---- declarations

// Whether a row is a DECL of a space in a scope.
pub fn is_declared(form: &[u8], known: &[u16], scope: u16, space: u8, row: u16) -> bool
    requires { Scopes form.now known.now 4096 }
    ensures { result ≡ stands form.now scope space row }
{
    (scope_at(form, known, row) == scope)
        & (code_at(form, row) == DECL)
        & (b_at(form, row) == space)
}

// How many declarations of the space that a row names its scope has above it: the number of a DECL.
pub fn number_at(form: &[u8], known: &[u16], row: u16) -> u16
    requires { Counts form.now known.now (row + 1) }
    ensures { (result ≡ count_of form.now row) × (result ≤ row) }
{
    at(known, MOST + row as usize)
}

// The chain of a name or a number in a space of a scope. Those that follow each other are on chains of their own.
pub fn chain_of(scope: u16, space: u8, value: u32) -> usize
    ensures { (result ≡ chain_of scope space value) × (result < 4096) }
{
    ((value % 4096 + scope as u32 * 1031 + space as u32 * 331) % 4096) as usize
}
