// References with PATHs.
ghost use Rattle.std.specs.Prelude.{◌≡◌, ◌+◌, ◌<◌, take};
ghost use Rattle.index.specs.Indexed.{Holds};
ghost use Rattle.claim_rows.specs.Left.{rows_at};
ghost use Rattle.claim_operands.specs.Paths.{onward, instance_space, through_paths_t, instance_t};

use claim_reach::alias::{Sought, through_export};
use claim_scopes::entries::look_up;
use fixed::{CORE_INSTANCE, INSTANCE};
use names::Slot;
use parts::{Parts, parts_at};

// The number of an instance, of which the next alias is sought.
fn instance_in(s: Sought, number: u32) -> Sought
    ensures { result ≡ onward s number }
{
    Sought {
        used: s.used,
        scope: s.scope,
        space: INSTANCE,
        number,
    }
}

// The number of the instance that a number reaches through one added alias for each of this many PATHs, the first of which is
// that row: the last PATH is the first to be gone through.
pub(crate) fn through_paths(
    input: &[u8],
    first: usize,
    count: u32,
    claim: &[u8],
    table: &[Slot],
    index: &[u16],
    sought: Sought,
) -> Option<u32>
    requires { Holds table.now index.now sought.used × (first + count < 18446744073709551616) }
    ensures { result ≡ through_paths_t (take sought.used table.now) claim.now (rows_at input.now first) count sought }
{
    let mut s = sought;
    for left in (0..count as usize).rev() {
        let path = parts_at(input, first + left);
        s = instance_in(s, through_export(claim, table, index, s, path.x)?);
    }
    Some(s.number)
}

// The space of the instance that a path to an item of this space starts from.
fn instance_space(space: u8) -> u8
    ensures { result ≡ instance_space space }
{
    if space <= CORE_INSTANCE {
        CORE_INSTANCE
    } else {
        INSTANCE
    }
}

// Whether a number is that of the instance which the input's reference starts from.
pub(crate) fn is_instance(
    table: &[Slot],
    index: &[u16],
    used: usize,
    scope: usize,
    q: Parts,
    number: u32,
) -> bool
    requires { Holds table.now index.now used }
    ensures { result ≡ instance_t (take used table.now) scope q number }
{
    if q.e == 0 {
        return number == q.x;
    }
    look_up(table, index, used, scope, instance_space(q.b), q.x) == Some(number)
}
