// Condition 4 on the rows of an input and of a claim: two cursors, row by row.
ghost use Rattle.std.specs.Prelude.{◌≡◌, false, [], take};
ghost use Rattle.index.specs.Indexed.{Holds};
ghost use Rattle.claim_rows.specs.Left.{rows_at};
ghost use Rattle.claim_scopes.specs.Open.{open_in};
ghost use Rattle.claim_operands.specs.Operands.{operand_at_t, is_right_t, next_in, Behind, try_operands_t};

use crate::Cursor;
use crate::outer::outer_right;
use crate::reference::ref_right;
use claim_rows::added::is_added;
use claim_rows::same::past_paths;
use claim_scopes::open::behind_row;
use names::{Scope, Slot};
use parts::{Parts, parts_at};
use rows::row::{OUTER, REF};

// The most scopes that are open one in another, in any version.
const SCOPES: usize = 64;

// The cursor at a row: whether its field is added.
fn at_row(p: Parts, claim: &[u8], next: usize, c: Cursor) -> Cursor
    ensures { result ≡ operand_at_t p (rows_at claim.now next) c }
{
    Cursor {
        used: c.used,
        depth: c.depth,
        added: is_added(c.added, p.code, claim, next),
        next: c.next,
    }
}

// Whether a claimed row is right, where the input's next row stands beside it: only operands of input fields can be wrong.
fn is_right(
    input: &[u8],
    claim: &[u8],
    table: &[Slot],
    index: &[u16],
    scopes: &[Scope],
    c: Cursor,
    p: Parts,
) -> bool
    requires { Holds table.now index.now c.used }
    ensures { result ≡ is_right_t (take c.used table.now) claim.now c.used c.added (open_in scopes.now c.depth) p (rows_at input.now c.next) }
{
    if c.added {
        return true;
    }
    let next = c.next;
    if input.len() / 16 <= next {
        return true;
    }
    if p.code == REF {
        return ref_right(input, claim, table, index, scopes, c, p);
    }
    if p.code == OUTER {
        return outer_right(table, index, scopes, c, parts_at(input, next), p);
    }
    true
}

// The input's next row behind a claimed row: the same again behind an added one.
fn behind(added: bool, input: &[u8], j: usize) -> usize
    ensures { rows_at input.now result ≡ next_in added (rows_at input.now j) }
{
    if added {
        return j;
    }
    if input.len() / 16 <= j {
        return j;
    }
    past_paths(input, j + 1)
}

// Behind row i: its scope is opened or closed, and the input's next row follows.
fn go_on(p: Parts, i: usize, input: &[u8], scopes: &mut [Scope], c: Cursor) -> Cursor
    ensures { Behind p i input.now scopes.old scopes.new c result }
{
    let depth = behind_row(scopes, c.depth, p, i);
    Cursor {
        used: c.used,
        depth,
        added: c.added,
        next: behind(c.added, input, c.next),
    }
}

// Tries condition 4 on the rows of an input and of a claim whose declarations were entered in the first `used` slots.
pub fn try_operands(
    input: &[u8],
    claim: &[u8],
    table: &[Slot],
    index: &[u16],
    used: usize,
) -> Result<(), usize>
    requires { Holds table.now index.now used }
    ensures { result ≡ try_operands_t (take used table.now) claim.now used 0 false [] (rows_at claim.now 0) (rows_at input.now 0) }
{
    let n = claim.len() / 16;
    let mut scopes: [Scope; SCOPES] = [[0usize; 4]; SCOPES];
    let mut c = Cursor {
        used,
        depth: 0,
        added: false,
        next: 0,
    };
    for i in 0..n {
        let p = parts_at(claim, i);
        let at = at_row(p, claim, i + 1, c);
        if !is_right(input, claim, table, index, &scopes, at, p) {
            return Err(i);
        }
        c = go_on(p, i, input, &mut scopes, at);
    }
    Ok(())
}
