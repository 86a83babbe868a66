// Condition 2: no PATH is left, and the claim's rows that are not added are the input's in order, but for PATH rows and
// e, x and y of REF and OUTER.
ghost use Rattle.std.specs.Prelude.{◌≡◌, ◌+◌, ◌/◌, ◌<◌, ◌≤◌, length};
ghost use Rattle.claim_rows.specs.Left.{rows_at};
ghost use Rattle.claim_rows.specs.Same.{depth_behind_t, is_same_t, same_breaks_t, past_paths, rows_behind_t, differs_t};

use crate::added::is_added;
use parts::{Parts, parts_at};
use rows::row::{CLOSE, FIELD, OPEN, OUTER, PATH, REF};

// How deep in an added field the claim is behind a row of this code: 0 outside of added fields, 1 in one, and one more for
// each scope that is open in it. `begins`: whether a FIELD is that of an added field.
fn depth_behind(depth: usize, code: u8, begins: bool) -> usize
    requires { depth + 1 < 18446744073709551616 }
    ensures { (result ≡ depth_behind_t depth code begins) × (result ≤ depth + 1) }
{
    if code == FIELD {
        if 1 < depth {
            return depth;
        }
        return if begins { 1 } else { 0 };
    }
    if code == CLOSE {
        return if depth == 0 { 0 } else { depth - 1 };
    }
    if code == OPEN {
        return if depth == 0 { 0 } else { depth + 1 };
    }
    depth
}

// Whether a claimed row is the input's: REF and OUTER may have other numbers.
fn is_same(p: Parts, q: Parts) -> bool
    ensures { result ≡ is_same_t p q }
{
    (p.code == q.code)
        & ((p.b == q.b)
            & (((p.code == REF)
                | ((p.code == OUTER) | ((p.e == q.e) & ((p.x == q.x) & (p.y == q.y)))))
                & (p.z == q.z)))
}

// Whether a claimed row breaks the condition, where j is the input's next row.
fn breaks(p: Parts, depth: usize, input: &[u8], j: usize) -> bool
    ensures { result ≡ same_breaks_t p depth (rows_at input.now j) }
{
    if p.code == PATH {
        return true;
    }
    if 0 < depth {
        return false;
    }
    if input.len() / 16 <= j {
        return true;
    }
    !is_same(p, parts_at(input, j))
}

// The first row from row `from` on that is no PATH.
pub fn past_paths(rows: &[u8], from: usize) -> usize
    ensures { rows_at rows.now result ≡ past_paths (rows_at rows.now from) }
{
    let n = rows.len() / 16;
    for i in from..n {
        if parts_at(rows, i).code != PATH {
            return i;
        }
    }
    n
}

// The input's next row behind a claimed row: the same again behind an added one.
fn behind(depth: usize, input: &[u8], j: usize) -> usize
    ensures { rows_at input.now result ≡ rows_behind_t depth (rows_at input.now j) }
{
    if 0 < depth {
        return j;
    }
    if input.len() / 16 <= j {
        return j;
    }
    past_paths(input, j + 1)
}

// Tries condition 2 on the rows of an input and of a claim: two cursors, row by row.
pub fn try_rows(input: &[u8], claim: &[u8]) -> Result<(), usize>
    ensures { result ≡ differs_t 0 0 (rows_at claim.now 0) (rows_at input.now 0) }
{
    let n = claim.len() / 16;
    let mut depth = 0;
    let mut j = 0;
    for i in 0..n {
        let p = parts_at(claim, i);
        depth = depth_behind(depth, p.code, is_added(false, p.code, claim, i + 1));
        if breaks(p, depth, input, j) {
            return Err(i);
        }
        j = behind(depth, input, j);
    }
    if j < input.len() / 16 {
        return Err(n);
    }
    Ok(())
}
