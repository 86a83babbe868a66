// A batch of any setting in force: its prelude, and each member in its share, in working areas that are lent.
#![tactic(auto)]

ghost use Rattle.std.specs.Prelude.{◌≡◌, false, [], ◌∷◌, ◌≤◌, length};
ghost use Rattle.limits.specs.Held.{setting};
ghost use Rattle.batching.specs.BatchCalls.{room_with, batch_call, batch_leaves};
ghost use Rattle.rules.specs.Versions.{all};
ghost use Rattle.resolver_with.specs.Asked.{asked};
ghost use Rattle.resolver_with.specs.Areas.{lent_of};
ghost use Rattle.member_with.specs.Areas.{is_small, TablesCleared, Large};

use batch::run::batch_in;
use member_with::sizes::{are_small, both_for, chains_for, clear_tables};
use names::{Slot, least};
use resolver_with::run::asked_for;
use resolver_with::sizes::{links_for, slots_for};

// A batch of the setting at place i in the fronts of the tables, which are handed back empty.
fn run_lent(
    prelude: &[u8],
    members: &[u8],
    lengths: &[u32],
    resolved: &mut [u8],
    outs: &mut [u8],
    answers: &mut [u8],
    i: usize,
    entered: &mut [Slot],
    names: &mut [Slot],
    known: &mut [u16],
    chains: &mut [u16],
    ends: &mut [u32],
) -> u64
    requires { Large i (length resolved.old) (lent_of entered.old names.old known.old chains.old ends.old) }
    ensures value { result ≡ batch_call (setting i ∷ []) false prelude.now members.now lengths.now (record { prelude = resolved.old; outs = outs.old; answers = answers.old }) }
    ensures answers_after { record { prelude = resolved.new; outs = outs.new; answers = answers.new } ≡ batch_leaves (setting i ∷ []) false prelude.now members.now lengths.now (record { prelude = resolved.old; outs = outs.old; answers = answers.old }) }
    ensures tables_cleared { TablesCleared (setting i).version entered.old entered.new names.old names.new known.old known.new chains.old chains.new ends.old ends.new }
{
    let a = least(slots_for(i), entered.len());
    let b = least(both_for(i), names.len());
    let c = least(links_for(i), known.len());
    let d = least(chains_for(i), chains.len());
    let e = least(slots_for(i), ends.len());
    let answer = batch_in(
        prelude,
        members,
        lengths,
        resolved,
        outs,
        answers,
        i,
        &mut entered[..a],
        &mut names[..b],
        &mut known[..c],
        &mut chains[..d],
        &mut ends[..e],
    );
    clear_tables(i, entered, names, known, chains, ends);
    answer
}

// The room for the prelude: all that there is, or none where a table is below its size.
fn room_in(small: bool, room: usize) -> usize
    ensures { (result ≡ room_with small room) × (result ≤ room) }
{
    if small { 0 } else { room }
}

// Resolves a batch of any setting in force, the prelude into `resolved`: a refusal's number times 2^32 plus its place, or the number of
// rows that were written of the prelude. After every return the tables are zero up to their sizes.
pub fn batch_with(
    prelude: &[u8],
    members: &[u8],
    lengths: &[u32],
    resolved: &mut [u8],
    outs: &mut [u8],
    answers: &mut [u8],
    entered: &mut [Slot],
    names: &mut [Slot],
    known: &mut [u16],
    chains: &mut [u16],
    ends: &mut [u32],
) -> u64
    ensures value { result ≡ batch_call all (is_small (asked prelude.now).version (lent_of entered.old names.old known.old chains.old ends.old)) prelude.now members.now lengths.now (record { prelude = resolved.old; outs = outs.old; answers = answers.old }) }
    ensures answers_after { record { prelude = resolved.new; outs = outs.new; answers = answers.new } ≡ batch_leaves all (is_small (asked prelude.now).version (lent_of entered.old names.old known.old chains.old ends.old)) prelude.now members.now lengths.now (record { prelude = resolved.old; outs = outs.old; answers = answers.old }) }
    ensures tables_cleared { TablesCleared (asked prelude.now).version entered.old entered.new names.old names.new known.old known.new chains.old chains.new ends.old ends.new }
{
    let i = asked_for(prelude);
    let small = are_small(
        i,
        entered.len(),
        names.len(),
        known.len(),
        chains.len(),
        ends.len(),
    );
    let room = room_in(small, resolved.len());
    run_lent(
        prelude,
        members,
        lengths,
        &mut resolved[..room],
        outs,
        answers,
        i,
        entered,
        names,
        known,
        chains,
        ends,
    )
}
