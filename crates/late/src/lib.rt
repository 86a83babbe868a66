// Refusal 13: whether what a scope has under a name stands before a field. Slots stand in the order of their fields, so
// those before a field are the first ones of its scope.
#![tactic(auto)]

ghost use Rattle.std.specs.Prelude.{◌≡◌, ◌-◌};
ghost use Rattle.names.specs.Table.{scope_at};
ghost use Rattle.index.specs.Indexed.{Covers};
ghost use Rattle.late.specs.Late.{late_in, before_around};

use index::find;
use names::{BEFORE, Scope, Slot, least, scope_at};

// Whether none of the slots from `from` up to `before`, of those up to `to`, has the name: what has it stands no earlier.
pub fn is_late(
    table: &[Slot],
    index: &[u16],
    from: usize,
    before: usize,
    to: usize,
    space: u32,
    name: u32,
) -> bool
    requires { Covers table.now index.now to }
    ensures { result ≡ late_in table.now from before to space name }
{
    find(table, index, from, least(before, to), space, name).is_none()
}

// The scope `out` scopes out of `depth` that are open, the innermost as one scope out.
pub fn scope_around(scopes: &[Scope], depth: usize, out: usize) -> Scope
    ensures { result ≡ scope_at scopes.now (depth - out) }
{
    scope_at(scopes, depth - least(depth, out))
}

// How many slots stand before the field of that scope that holds us, where in the innermost it is `before`. Further out it
// stands with the scope that the field holds.
#[tactic(auto, using(crate::proofs::Laws::ways))]
pub fn before_around(scopes: &[Scope], depth: usize, before: usize, out: usize) -> usize
    ensures { result ≡ before_around scopes.now depth before out }
{
    if out <= 1 {
        return before;
    }
    scope_around(scopes, depth, out - 1)[BEFORE]
}
