// The scopes that are open: each by its name and the row of its OPEN. They are lent by whoever has them.
ghost use Rattle.std.specs.Prelude.{◌≡◌};
ghost use Rattle.kit.specs.Out.{◌&◌};
ghost use Rattle.claim_scopes.specs.Open.{open_behind_t, here_t, open_in};

use names::{Scope, innermost};
use parts::Parts;
use rows::row::{CLOSE, OPEN};

// How many scopes are open behind a row, which is row i: an OPEN opens one, where there is room, and a CLOSE closes one.
pub fn behind_row(scopes: &mut [Scope], depth: usize, p: Parts, i: usize) -> usize
    ensures { (result & scopes.new) ≡ open_behind_t scopes.old depth p i }
{
    if p.code == OPEN {
        if depth < scopes.len() {
            scopes[depth] = [p.x as usize, i, 0, 0];
            return depth + 1;
        }
        return depth;
    }
    if p.code == CLOSE {
        return if depth == 0 { 0 } else { depth - 1 };
    }
    depth
}

// The row of the OPEN of the innermost scope; 0 where none is open.
pub fn here(scopes: &[Scope], depth: usize) -> usize
    ensures { result ≡ here_t (open_in scopes.now depth) }
{
    innermost(scopes, depth)[1]
}
