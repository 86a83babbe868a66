// A table in which declarations of all scopes stand side by side: each is entered under its scope and its space, and under a
// name or a number. The table and its index are lent by whoever has them.
ghost use Rattle.std.specs.Prelude.{◌≡◌, ◌≤◌, ◌<◌, take};
ghost use Rattle.kit.specs.Out.{◌&◌};
ghost use Rattle.names.specs.Table.{pushed};
ghost use Rattle.index.specs.Indexed.{Holds};
ghost use Rattle.claim_scopes.specs.Entries.{entry_key_t, slot_t, look_t};

use index::{find, push};
use names::Slot;

// More than a byte can say, so that no two scopes have a space in common, whatever stands for a space. It is odd, so that the
// chains of one name in several scopes differ.
const SPACES: u32 = 257;

// A space of a scope, which is known by the row of its OPEN: no two scopes have one in common.
fn key(scope: usize, space: u8) -> u32
    ensures { result ≡ entry_key_t scope space }
{
    (scope % 65536) as u32 * SPACES + space as u32
}

// What was entered in a space of a scope under this name, among the first `used` slots: the first of several.
pub fn look_up(
    table: &[Slot],
    index: &[u16],
    used: usize,
    scope: usize,
    space: u8,
    name: u32,
) -> Option<u32>
    requires { Holds table.now index.now used }
    ensures { result ≡ look_t (take used table.now) scope space name }
{
    find(table, index, 0, used, key(scope, space), name)
}

// Enters a value behind the first `used` slots, and answers how many are used then; in a full table nothing is entered.
pub fn enter(
    table: &mut [Slot],
    index: &mut [u16],
    used: usize,
    scope: usize,
    space: u8,
    name: u32,
    value: u32,
) -> usize
    requires { Holds table.old index.old used }
    ensures { ((result & table.new) ≡ pushed table.old used (slot_t scope space name value)) × Holds table.new index.new result × (used ≤ result) }
{
    push(
        table,
        index,
        used,
        [key(scope, space), name, value, 0, 0, 0],
    )
}
