// Whether a claimed OUTER has the numbers that the input's OUTER asks for.
ghost use Rattle.std.specs.Prelude.{◌≡◌, take};
ghost use Rattle.index.specs.Indexed.{Holds};
ghost use Rattle.claim_scopes.specs.Open.{open_in};
ghost use Rattle.claim_operands.specs.Outer.{up_t, at_right_t, outer_right_t};

use crate::Cursor;
use claim_scopes::entries::look_up;
use names::{Scope, Slot, scope_at, scope_named};
use parts::Parts;

// How far out the input's OUTER leads: as it is written, or to the innermost open scope of its name.
fn up_of(scopes: &[Scope], depth: usize, q: Parts) -> Option<usize>
    ensures { result ≡ up_t (open_in scopes.now depth) q }
{
    if q.e % 2 == 0 {
        return Some(q.x as usize);
    }
    scope_named(scopes, depth, q.x as usize)
}

// Whether a claimed OUTER leads this far out, and has the index that the input's OUTER has in that scope.
fn at_right(
    table: &[Slot],
    index: &[u16],
    scopes: &[Scope],
    c: Cursor,
    up: usize,
    q: Parts,
    p: Parts,
) -> bool
    requires { Holds table.now index.now c.used }
    ensures { result ≡ at_right_t (take c.used table.now) (open_in scopes.now c.depth) up q p }
{
    if c.depth <= up {
        return false;
    }
    if p.x as usize != up {
        return false;
    }
    if q.e < 2 {
        return p.y == q.y;
    }
    let scope = scope_at(scopes, c.depth - 1 - up);
    look_up(table, index, c.used, scope[1], q.b, q.y) == Some(p.y)
}

// Whether a claimed OUTER is right: two written numbers stay.
pub(crate) fn outer_right(
    table: &[Slot],
    index: &[u16],
    scopes: &[Scope],
    c: Cursor,
    q: Parts,
    p: Parts,
) -> bool
    requires { Holds table.now index.now c.used }
    ensures { result ≡ outer_right_t (take c.used table.now) (open_in scopes.now c.depth) q p }
{
    if 0 < p.e {
        return false;
    }
    if q.e == 0 {
        return (p.x == q.x) & (p.y == q.y);
    }
    match up_of(scopes, c.depth, q) {
        Some(up) => at_right(table, index, scopes, c, up, q, p),
        None => false,
    }
}
