// The run of a batch: the refusals ahead of its prelude's, the prelude, and the members.
ghost use Rattle.std.specs.Prelude.{◌≡◌, false, [], ◌∷◌, ◌*◌, ◌≤◌, length};
ghost use Rattle.rules.specs.Versions.{base};
ghost use Rattle.rules.specs.Answer.{output};
ghost use Rattle.limits.specs.Held.{setting};
ghost use Rattle.batching.specs.Batch.{prelude_of, after_prelude, shares_after};
ghost use Rattle.batching.specs.BatchBytes.{cut, packed_batch, answers_after};
ghost use Rattle.batching.specs.BatchCalls.{batch_call, batch_leaves};
ghost use Rattle.inside.specs.Areas.{SuitsIf, Same};

use crate::shares::in_shares;
use batch_parts::{are_bad, is_short};
use member::{rows_of, said};
use names::Slot;
use packed::packed_refusal;
use refusal::{ROOM, ROW_COUNT, Refusal};
use resolver_with::run::resolve_at;

// The prelude, of the setting at place i, into its own output, `resolved`, and if it is not refused the members.
fn resolve_all(
    prelude: &[u8],
    members: &[u8],
    lengths: &[u32],
    resolved: &mut [u8],
    outs: &mut [u8],
    answers: &mut [u8],
    i: usize,
    entered: &mut [Slot],
    names: &mut [Slot],
    known: &mut [u16],
    chains: &mut [u16],
    ends: &mut [u32],
) -> u64
    requires { (length lengths.now ≤ 8) × (8 * length lengths.now ≤ length answers.old) × SuitsIf i (length resolved.old) entered.old names.old known.old chains.old ends.old }
    ensures value { result ≡ packed_batch (after_prelude (prelude_of (setting i ∷ []) prelude.now (length resolved.old)) (cut lengths.now members.now) (length outs.old)) }
    ensures resolved_after { resolved.new ≡ output (setting i ∷ []) prelude.now resolved.old }
    ensures outs_after { outs.new ≡ shares_after (prelude_of (setting i ∷ []) prelude.now (length resolved.old)) (cut lengths.now members.now) outs.old }
    ensures answers_after { answers.new ≡ answers_after (after_prelude (prelude_of (setting i ∷ []) prelude.now (length resolved.old)) (cut lengths.now members.now) (length outs.old)) answers.old }
{
    let of = said(resolve_at(prelude, resolved, i, entered, names, known, chains, ends));
    if of.number != 0 {
        return packed_refusal(of);
    }
    in_shares(
        rows_of(resolved, i, of.place),
        members,
        lengths,
        outs,
        answers,
        i,
        entered,
        names,
        known,
        chains,
        ends,
    );
    packed_refusal(of)
}

// A refusal ahead of the prelude's.
fn refused(number: u32) -> u64
    ensures { result ≡ number * 4294967296 }
{
    packed_refusal(Refusal { number, place: 0 })
}

// Resolves a batch of the setting at place i, in tables that have its sizes where `resolved` has any bytes.
pub fn batch_in(
    prelude: &[u8],
    members: &[u8],
    lengths: &[u32],
    resolved: &mut [u8],
    outs: &mut [u8],
    answers: &mut [u8],
    i: usize,
    entered: &mut [Slot],
    names: &mut [Slot],
    known: &mut [u16],
    chains: &mut [u16],
    ends: &mut [u32],
) -> u64
    requires { SuitsIf i (length resolved.old) entered.old names.old known.old chains.old ends.old }
    ensures value { result ≡ batch_call (setting i ∷ []) false prelude.now members.now lengths.now (record { prelude = resolved.old; outs = outs.old; answers = answers.old }) }
    ensures answers_after { record { prelude = resolved.new; outs = outs.new; answers = answers.new } ≡ batch_leaves (setting i ∷ []) false prelude.now members.now lengths.now (record { prelude = resolved.old; outs = outs.old; answers = answers.old }) }
    ensures same { Same entered.old entered.new names.old names.new known.old known.new chains.old chains.new ends.old ends.new }
{
    if are_bad(lengths, members) {
        return refused(ROW_COUNT);
    }
    if is_short(lengths, answers) {
        return refused(ROOM);
    }
    resolve_all(
        prelude, members, lengths, resolved, outs, answers, i, entered, names, known, chains, ends,
    )
}

// Resolves a batch of version 1, the prelude into `resolved`: a refusal's number times 2^32 plus its place, or the number of rows
// that were written of the prelude.
pub fn batch(
    prelude: &[u8],
    members: &[u8],
    lengths: &[u32],
    resolved: &mut [u8],
    outs: &mut [u8],
    answers: &mut [u8],
) -> u64
    ensures value { result ≡ batch_call base false prelude.now members.now lengths.now (record { prelude = resolved.old; outs = outs.old; answers = answers.old }) }
    ensures answers_after { record { prelude = resolved.new; outs = outs.new; answers = answers.new } ≡ batch_leaves base false prelude.now members.now lengths.now (record { prelude = resolved.old; outs = outs.old; answers = answers.old }) }
{
    let mut entered: [Slot; 1024] = [[0u32; 6]; 1024];
    let mut names: [Slot; 2048] = [[0u32; 6]; 2048];
    let mut known = [0u16; 2048];
    let mut chains = [0u16; 3072];
    let mut ends = [0u32; 1024];
    batch_in(
        prelude,
        members,
        lengths,
        resolved,
        outs,
        answers,
        0,
        &mut entered,
        &mut names,
        &mut known,
        &mut chains,
        &mut ends,
    )
}
