// All declarations of a claim, entered in the order of their rows: those of the input's fields under their names, those of
// added aliases under their numbers, so that one table serves both.
ghost use Rattle.std.specs.Prelude.{◌≡◌, false, [], ◌/◌, ◌<◌, length};
ghost use Rattle.kit.specs.Out.{◌&◌};
ghost use Rattle.index.specs.Indexed.{Holds};
ghost use Rattle.claim_rows.specs.Left.{rows_at};
ghost use Rattle.claim_numbers.specs.Enter.{enter_decl_t, enter_at_t, enter_on_t, enter_turn_t, laid_by, entries_t};

use crate::count::{Counts, count};
use claim_rows::added::is_added;
use claim_scopes::entries::enter;
use claim_scopes::open::{behind_row, here};
use names::{Scope, Slot};
use parts::{Parts, parts_at};
use rows::row::DECL;

// The most scopes that are open one in another, in any version.
const SCOPES: usize = 64;

// Where the rows are gone through: how many scopes are open and how many slots are used, and whether the row's field is
// added.
#[derive(Clone, Copy)]
struct Cursor {
    depth: usize,
    used: usize,
    added: bool,
}

// Enters a DECL that is row i: an alias under its number counted from 1, with its row; one of the input under its name, with
// its number. For aliases the row behind the scope's OPEN stands for the scope, which is no OPEN itself.
fn enter_decl(
    table: &mut [Slot],
    index: &mut [u16],
    scope: usize,
    p: Parts,
    number: u32,
    i: usize,
    c: Cursor,
) -> usize
    requires { Holds table.old index.old c.used }
    ensures { ((result & table.new) ≡ enter_decl_t table.old scope p number i c) × Holds table.new index.new result }
{
    let used = c.used;
    if p.code != DECL {
        return used;
    }
    if c.added {
        let name = number % 65536 + 1;
        let row = (i % 65536) as u32;
        return enter(table, index, used, scope % 65536 + 1, p.b, name, row);
    }
    enter(table, index, used, scope, p.b, p.x, number)
}

// Behind row i: it is entered if it is to be, and its scope is opened or closed.
fn go_on(
    p: Parts,
    i: usize,
    table: &mut [Slot],
    index: &mut [u16],
    scopes: &mut [Scope],
    counts: &mut [Counts],
    c: Cursor,
) -> Cursor
    requires { Holds table.old index.old c.used }
    ensures { ((result & table.new & scopes.new & counts.new) ≡ enter_on_t p i table.old scopes.old counts.old c) × Holds table.new index.new result.used }
{
    let number = count(counts, c.depth, p);
    let used = enter_decl(table, index, here(scopes, c.depth), p, number, i, c);
    let depth = behind_row(scopes, c.depth, p, i);
    Cursor {
        depth,
        used,
        added: c.added,
    }
}

// The cursor at a row: whether its field is added.
fn at_row(p: Parts, claim: &[u8], next: usize, c: Cursor) -> Cursor
    ensures { result ≡ enter_at_t p (rows_at claim.now next) c }
{
    Cursor {
        depth: c.depth,
        used: c.used,
        added: is_added(c.added, p.code, claim, next),
    }
}

// Goes over row i.
fn go_over(
    claim: &[u8],
    i: usize,
    table: &mut [Slot],
    index: &mut [u16],
    scopes: &mut [Scope],
    counts: &mut [Counts],
    c: Cursor,
) -> Cursor
    requires { Holds table.old index.old c.used × (i < length claim.now / 16) }
    ensures { ((result & table.new & scopes.new & counts.new) ≡ enter_turn_t (rows_at claim.now i) i table.old scopes.old counts.old c) × Holds table.new index.new result.used }
{
    let p = parts_at(claim, i);
    go_on(
        p,
        i,
        table,
        index,
        scopes,
        counts,
        at_row(p, claim, i + 1, c),
    )
}

// Enters all declarations of a claim, and answers how many slots are used then.
pub fn enter_all(claim: &[u8], table: &mut [Slot], index: &mut [u16]) -> usize
    requires { Holds table.old index.old 0 }
    ensures { ((result & table.new) ≡ laid_by (entries_t (length table.old) 0 false [] [] [] (rows_at claim.now 0)) table.old) × Holds table.new index.new result }
{
    let n = claim.len() / 16;
    let mut scopes: [Scope; SCOPES] = [[0usize; 4]; SCOPES];
    let mut counts: [Counts; SCOPES] = [[0u32; 13]; SCOPES];
    let mut c = Cursor {
        depth: 0,
        used: 0,
        added: false,
    };
    for i in 0..n {
        c = go_over(claim, i, table, index, &mut scopes, &mut counts, c);
    }
    c.used
}
