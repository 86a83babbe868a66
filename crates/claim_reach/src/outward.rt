// Names in the scopes around.
ghost use Rattle.std.specs.Prelude.{◌≡◌, take};
ghost use Rattle.index.specs.Indexed.{Holds};
ghost use Rattle.claim_scopes.specs.Open.{open_in};
ghost use Rattle.claim_reach.specs.Outward.{reach_out_t};

use claim_scopes::entries::look_up;
use names::{Met, Scope, Slot, scope_at};

// Walks the `depth` open scopes outward, the innermost first as one scope out, and stops at the first that has the name.
pub fn outward(
    table: &[Slot],
    index: &[u16],
    used: usize,
    scopes: &[Scope],
    depth: usize,
    space: u8,
    name: u32,
) -> Option<Met>
    requires { Holds table.now index.now used }
    ensures { result ≡ reach_out_t (take used table.now) (open_in scopes.now depth) 1 space name }
{
    let mut left = depth;
    while 0 < left {
        left -= 1;
        let scope = scope_at(scopes, left);
        if let Some(number) = look_up(table, index, used, scope[1], space, name) {
            return Some(Met {
                out: depth - left,
                number,
            });
        }
    }
    None
}
