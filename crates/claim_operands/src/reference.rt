// Whether a claimed REF has the number that the input's REF asks for.
ghost use Rattle.std.specs.Prelude.{◌≡◌, ◌-◌, ◌+◌, ◌/◌, ◌<◌, length, take};
ghost use Rattle.index.specs.Indexed.{Holds};
ghost use Rattle.parts.specs.PartsAt.{parts_at};
ghost use Rattle.claim_rows.specs.Left.{rows_at};
ghost use Rattle.claim_scopes.specs.Open.{open_in};
ghost use Rattle.claim_operands.specs.Reference.{is_met_t, further_t, name_right_t, path_right_t, ref_right_t};

use crate::Cursor;
use crate::paths::{is_instance, through_paths};
use claim_reach::alias::{Sought, through_outer};
use claim_reach::outward::outward;
use claim_scopes::entries::look_up;
use claim_scopes::open::here;
use names::{Met, Scope, Slot};
use parts::{Parts, parts_at};

// Whether both lead to the same.
fn is_met(a: Option<Met>, b: Option<Met>) -> bool
    ensures { result ≡ is_met_t a b }
{
    match (a, b) {
        (Some(a), Some(b)) => (a.out == b.out) & (a.number == b.number),
        _ => false,
    }
}

// How many scopes are open around the innermost.
fn outside(depth: usize) -> usize
    ensures { result ≡ depth - 1 }
{
    if depth == 0 { 0 } else { depth - 1 }
}

// Whether a number reaches one added outer alias that leads to what a name means further out.
fn further_right(
    claim: &[u8],
    table: &[Slot],
    index: &[u16],
    scopes: &[Scope],
    c: Cursor,
    q: Parts,
    number: u32,
) -> bool
    requires { Holds table.now index.now c.used }
    ensures { result ≡ further_t (take c.used table.now) claim.now c.used (open_in scopes.now c.depth) q number }
{
    let s = Sought {
        used: c.used,
        scope: here(scopes, c.depth),
        space: q.b,
        number,
    };
    is_met(
        through_outer(claim, table, index, s),
        outward(table, index, c.used, scopes, outside(c.depth), q.b, q.x),
    )
}

// Whether a number is what a name means: that of its declaration here, or of an alias.
fn name_right(
    claim: &[u8],
    table: &[Slot],
    index: &[u16],
    scopes: &[Scope],
    c: Cursor,
    q: Parts,
    number: u32,
) -> bool
    requires { Holds table.now index.now c.used }
    ensures { result ≡ name_right_t (take c.used table.now) claim.now c.used (open_in scopes.now c.depth) q number }
{
    match look_up(table, index, c.used, here(scopes, c.depth), q.b, q.x) {
        Some(own) => number == own,
        None => further_right(claim, table, index, scopes, c, q, number),
    }
}

// Whether a number reaches what the input's REF with PATHs, its row `next`, starts from.
fn path_right(
    input: &[u8],
    claim: &[u8],
    table: &[Slot],
    index: &[u16],
    scope: usize,
    c: Cursor,
    number: u32,
) -> bool
    requires { Holds table.now index.now c.used × (c.next < length input.now / 16) }
    ensures { result ≡ path_right_t (take c.used table.now) claim.now c.used scope (parts_at input.now c.next) (rows_at input.now (c.next + 1)) number }
{
    let q = parts_at(input, c.next);
    let s = Sought {
        used: c.used,
        scope,
        space: q.b,
        number,
    };
    match through_paths(input, c.next + 1, q.y, claim, table, index, s) {
        Some(from) => is_instance(table, index, c.used, scope, q, from),
        None => false,
    }
}

// Whether a claimed REF is right, where the input's is its row `next`.
pub(crate) fn ref_right(
    input: &[u8],
    claim: &[u8],
    table: &[Slot],
    index: &[u16],
    scopes: &[Scope],
    c: Cursor,
    p: Parts,
) -> bool
    requires { Holds table.now index.now c.used × (c.next < length input.now / 16) }
    ensures { result ≡ ref_right_t (take c.used table.now) claim.now c.used (open_in scopes.now c.depth) p (parts_at input.now c.next) (rows_at input.now (c.next + 1)) }
{
    if 0 < p.e {
        return false;
    }
    let q = parts_at(input, c.next);
    if 0 < q.y {
        return path_right(input, claim, table, index, here(scopes, c.depth), c, p.x);
    }
    if q.e == 0 {
        return p.x == q.x;
    }
    name_right(claim, table, index, scopes, c, q, p.x)
}
