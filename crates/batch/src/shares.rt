// The members of a batch inside the root whose rows are given, each in its share of the output, in tables that are lent.
ghost use Rattle.std.specs.Prelude.{◌≤◌, ◌<◌, length};
ghost use Rattle.limits.specs.Held.{setting};
ghost use Rattle.inside.specs.Areas.{Suits};
ghost use Rattle.batch.specs.Shares.{InFront, InShare, InShares};

use batch_parts::{member_at, put_answer, share_of};
use inside::run::resolve_around;
use member::said;
use names::Slot;
use packed::packed_refusal;

// One member of the setting at place i in the first bytes of the rest, as many as its share.
fn in_front(
    root: &[u8],
    form: &[u8],
    rest: &mut [u8],
    share: usize,
    i: usize,
    entered: &mut [Slot],
    names: &mut [Slot],
    known: &mut [u16],
    chains: &mut [u16],
    ends: &mut [u32],
) -> u64
    requires { (share ≤ length rest.old) × Suits i entered.old names.old known.old chains.old ends.old }
    ensures { InFront (setting i) root.now form.now share rest.old rest.new result }
{
    packed_refusal(said(resolve_around(
        root,
        form,
        &mut rest[..share],
        i,
        entered,
        names,
        known,
        chains,
        ends,
    )))
}

// The member `j` in its share, and its answer.
fn in_share(
    root: &[u8],
    members: &[u8],
    lengths: &[u32],
    j: usize,
    outs: &mut [u8],
    answers: &mut [u8],
    i: usize,
    entered: &mut [Slot],
    names: &mut [Slot],
    known: &mut [u16],
    chains: &mut [u16],
    ends: &mut [u32],
)
    requires { (j < length lengths.now) × (length lengths.now ≤ 8) × Suits i entered.old names.old known.old chains.old ends.old }
    ensures { InShare (setting i) root.now members.now lengths.now j outs.old outs.new answers.old answers.new }
{
    let form = member_at(members, lengths, j);
    let share = share_of(outs.len(), lengths.len());
    let at = j * share;
    let answer = in_front(
        root,
        form,
        &mut outs[at..],
        share,
        i,
        entered,
        names,
        known,
        chains,
        ends,
    );
    put_answer(answers, 8 * j, answer);
}

// All members, one after another.
pub(crate) fn in_shares(
    root: &[u8],
    members: &[u8],
    lengths: &[u32],
    outs: &mut [u8],
    answers: &mut [u8],
    i: usize,
    entered: &mut [Slot],
    names: &mut [Slot],
    known: &mut [u16],
    chains: &mut [u16],
    ends: &mut [u32],
)
    requires { (length lengths.now ≤ 8) × Suits i entered.old names.old known.old chains.old ends.old }
    ensures { InShares (setting i) root.now members.now lengths.now outs.old outs.new answers.old answers.new }
{
    let mut j = 0;
    while j < lengths.len() {
        in_share(
            root, members, lengths, j, outs, answers, i, entered, names, known, chains, ends,
        );
        j += 1;
    }
}
