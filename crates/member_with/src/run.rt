// The run of a member: its prelude, and the member inside the prelude's root.
ghost use Rattle.std.specs.Prelude.{◌≡◌, ◌||◌, [], ◌∷◌, ◌≤◌, ltb, length};
ghost use Rattle.limits.specs.Held.{setting};
ghost use Rattle.batching.specs.Batch.{member_answer, member_output};
ghost use Rattle.clearing.specs.Cleared.{cleared};
ghost use Rattle.batching.specs.BatchCalls.{room_with};
ghost use Rattle.resolver.specs.Meaning.{numbers, ruled};
ghost use Rattle.rules.specs.Versions.{all};
ghost use Rattle.resolver_with.specs.Asked.{asked};
ghost use Rattle.resolver_with.specs.Areas.{lent_of};
ghost use Rattle.inside.specs.Areas.{SuitsIf, Same};
ghost use Rattle.member_with.specs.Areas.{area_for, short_with, TablesCleared, Large, SameArea};

use crate::sizes::{are_small, area_for, both_for, chains_for, clear_tables};
use areas::clear_bytes;
use inside::run::resolve_around;
use member::{of_prelude, rows_of, said};
use names::{Slot, least};
use refusal::Refusal;
use resolver_with::run::{asked_for, resolve_at};
use resolver_with::sizes::{links_for, slots_for};

// The prelude, of the setting at place i, is resolved into `area`, and the member inside its root into `out`. There is no area where a
// table is too small.
fn run_in(
    prelude: &[u8],
    member: &[u8],
    out: &mut [u8],
    area: &mut [u8],
    i: usize,
    entered: &mut [Slot],
    names: &mut [Slot],
    known: &mut [u16],
    chains: &mut [u16],
    ends: &mut [u32],
) -> Refusal
    requires { SuitsIf i (length area.old) entered.old names.old known.old chains.old ends.old }
    ensures place_value { (numbers result.number result.place ≡ (ruled (member_answer (setting i ∷ []) prelude.now (length area.old) member.now (length out.old))).plain) × (out.new ≡ member_output (setting i ∷ []) prelude.now (length area.old) member.now out.old) }
    ensures same { Same entered.old entered.new names.old names.new known.old known.new chains.old chains.new ends.old ends.new }
{
    let of = said(resolve_at(prelude, area, i, entered, names, known, chains, ends));
    if of.number != 0 {
        return of_prelude(of);
    }
    said(resolve_around(
        rows_of(area, i, of.place),
        member,
        out,
        i,
        entered,
        names,
        known,
        chains,
        ends,
    ))
}

// The same in the fronts of the tables, which are handed back empty.
fn run_lent(
    prelude: &[u8],
    member: &[u8],
    out: &mut [u8],
    area: &mut [u8],
    i: usize,
    entered: &mut [Slot],
    names: &mut [Slot],
    known: &mut [u16],
    chains: &mut [u16],
    ends: &mut [u32],
) -> Refusal
    requires { Large i (length area.old) (lent_of entered.old names.old known.old chains.old ends.old) }
    ensures place_value { (numbers result.number result.place ≡ (ruled (member_answer (setting i ∷ []) prelude.now (length area.old) member.now (length out.old))).plain) × (out.new ≡ member_output (setting i ∷ []) prelude.now (length area.old) member.now out.old) }
    ensures tables_cleared { TablesCleared (setting i).version entered.old entered.new names.old names.new known.old known.new chains.old chains.new ends.old ends.new }
    ensures same_area { SameArea area.old area.new }
{
    let a = least(slots_for(i), entered.len());
    let b = least(both_for(i), names.len());
    let c = least(links_for(i), known.len());
    let d = least(chains_for(i), chains.len());
    let e = least(slots_for(i), ends.len());
    let answer = run_in(
        prelude,
        member,
        out,
        area,
        i,
        &mut entered[..a],
        &mut names[..b],
        &mut known[..c],
        &mut chains[..d],
        &mut ends[..e],
    );
    clear_tables(i, entered, names, known, chains, ends);
    answer
}

// The room in a working area of this many bytes for the prelude: all of its size, or none where an area is below its own.
fn room_in(i: usize, small: bool, work: usize) -> usize
    ensures { (result ≡ room_with (ltb work (area_for (setting i).version) || small) (area_for (setting i).version)) × (result ≤ work) × (result ≤ area_for (setting i).version) }
{
    let size = area_for(i);
    if (work < size) | small { 0 } else { size }
}

// Resolves a member as if its root lay inside the resolved prelude's root, of any setting in force: number and place of the refusal, or
// 0 and the number of rows. After every return all areas are zero up to their sizes.
pub fn member_with(
    prelude: &[u8],
    member: &[u8],
    out: &mut [u8],
    work: &mut [u8],
    entered: &mut [Slot],
    names: &mut [Slot],
    known: &mut [u16],
    chains: &mut [u16],
    ends: &mut [u32],
) -> Refusal
    ensures place_value { numbers result.number result.place ≡ (ruled (member_answer all prelude.now (room_with (short_with prelude.now (length work.old) (lent_of entered.old names.old known.old chains.old ends.old)) (area_for (asked prelude.now).version)) member.now (length out.old))).plain }
    ensures out_after { out.new ≡ member_output all prelude.now (room_with (short_with prelude.now (length work.old) (lent_of entered.old names.old known.old chains.old ends.old)) (area_for (asked prelude.now).version)) member.now out.old }
    ensures work_after { work.new ≡ cleared 0 (area_for (asked prelude.now).version) work.old }
    ensures tables_cleared { TablesCleared (asked prelude.now).version entered.old entered.new names.old names.new known.old known.new chains.old chains.new ends.old ends.new }
{
    let i = asked_for(prelude);
    let small = are_small(
        i,
        entered.len(),
        names.len(),
        known.len(),
        chains.len(),
        ends.len(),
    );
    let room = room_in(i, small, work.len());
    let answer = run_lent(
        prelude,
        member,
        out,
        &mut work[..room],
        i,
        entered,
        names,
        known,
        chains,
        ends,
    );
    clear_bytes(work, area_for(i));
    answer
}
