// The functions for members inside a prelude.
ghost use Rattle.std.specs.Prelude.{◌≡◌, false, ltb, length};
ghost use Rattle.rules.specs.Versions.{base, all};
ghost use Rattle.clearing.specs.Cleared.{cleared};
ghost use Rattle.batching.specs.BatchCalls.{member_call, member_leaves, batch_call, batch_leaves};
ghost use Rattle.resolver_with.specs.Asked.{asked};
ghost use Rattle.resolver_with.specs.Areas.{lent_of};
ghost use Rattle.member_with.specs.Areas.{area_for, is_small, short_with, TablesCleared};
ghost use Rattle.ferhevok.specs.Meant.{packed_declared, meant_row};

use batch::run::batch;
use batch_with::batch_with;
use meant::{Declared, meant_at};
use member::member as resolve_member;
use member_with::run::member_with;
use names::Slot;
use packed::{packed_refusal, packed_row};

// The highest row that a form can number.
const LAST: u32 = 65535;

// The forms that a declaration can be of, as numbers.
const MEMBER: u8 = 1;

const PRELUDE: u8 = 2;

// The form of the declaration, 1 for the member and 2 for the prelude, times 2^32 plus its row; 0 where there is none.
fn packed_declared(declared: Option<Declared>) -> u64
    ensures { result ≡ packed_declared declared }
{
    match declared {
        Some(Declared::Member(row)) => packed_row(MEMBER, row),
        Some(Declared::Prelude(row)) => packed_row(PRELUDE, row),
        None => 0,
    }
}

// Which declaration the name in a row of the member means, where the member lies inside the prelude's root.
#[tactic(auto, using(crate::proofs::Declarations::declarations))]
pub fn wnt_meant(prelude: &[u8], member: &[u8], row: u32) -> u64
    ensures { result ≡ packed_declared (meant_row prelude.now member.now row) }
{
    if LAST < row {
        return 0;
    }
    packed_declared(meant_at(prelude, member, row as u16))
}

// Resolves one member as if its root lay inside the resolved prelude's root. `work` is where the prelude is resolved.
pub fn wnt_member(prelude: &[u8], member: &[u8], out: &mut [u8], work: &mut [u8]) -> u64
    ensures value { result ≡ member_call base (ltb (length work.old) 65480) prelude.now 65480 member.now (length out.old) }
    ensures out_after { out.new ≡ member_leaves base (ltb (length work.old) 65480) prelude.now 65480 member.now out.old }
    ensures work_after { work.new ≡ cleared 0 65480 work.old }
{
    packed_refusal(resolve_member(prelude, member, out, work))
}

// The same of any version and rule set, in working areas that are lent. After every return all of them are zero up to the sizes of the
// prelude's version.
pub fn wnt_member_with(
    prelude: &[u8],
    member: &[u8],
    out: &mut [u8],
    work: &mut [u8],
    entered: &mut [Slot],
    names: &mut [Slot],
    known: &mut [u16],
    chains: &mut [u16],
    ends: &mut [u32],
) -> u64
    ensures value { result ≡ member_call all (short_with prelude.now (length work.old) (lent_of entered.old names.old known.old chains.old ends.old)) prelude.now (area_for (asked prelude.now).version) member.now (length out.old) }
    ensures out_after { out.new ≡ member_leaves all (short_with prelude.now (length work.old) (lent_of entered.old names.old known.old chains.old ends.old)) prelude.now (area_for (asked prelude.now).version) member.now out.old }
    ensures work_after { work.new ≡ cleared 0 (area_for (asked prelude.now).version) work.old }
    ensures tables_cleared { TablesCleared (asked prelude.now).version entered.old entered.new names.old names.new known.old known.new chains.old chains.new ends.old ends.new }
{
    packed_refusal(member_with(
        prelude, member, out, work, entered, names, known, chains, ends,
    ))
}

// Resolves a batch: the prelude into `resolved`, and each member into its share of `outs`.
pub fn wnt_batch(
    prelude: &[u8],
    members: &[u8],
    lengths: &[u32],
    resolved: &mut [u8],
    outs: &mut [u8],
    answers: &mut [u8],
) -> u64
    ensures value { result ≡ batch_call base false prelude.now members.now lengths.now (record { prelude = resolved.old; outs = outs.old; answers = answers.old }) }
    ensures answers_after { record { prelude = resolved.new; outs = outs.new; answers = answers.new } ≡ batch_leaves base false prelude.now members.now lengths.now (record { prelude = resolved.old; outs = outs.old; answers = answers.old }) }
{
    batch(prelude, members, lengths, resolved, outs, answers)
}

// The same of any version and rule set, in tables that are lent. After every return they are zero up to the sizes of the prelude's
// version.
pub fn wnt_batch_with(
    prelude: &[u8],
    members: &[u8],
    lengths: &[u32],
    resolved: &mut [u8],
    outs: &mut [u8],
    answers: &mut [u8],
    entered: &mut [Slot],
    names: &mut [Slot],
    known: &mut [u16],
    chains: &mut [u16],
    ends: &mut [u32],
) -> u64
    ensures value { result ≡ batch_call all (is_small (asked prelude.now).version (lent_of entered.old names.old known.old chains.old ends.old)) prelude.now members.now lengths.now (record { prelude = resolved.old; outs = outs.old; answers = answers.old }) }
    ensures answers_after { record { prelude = resolved.new; outs = outs.new; answers = answers.new } ≡ batch_leaves all (is_small (asked prelude.now).version (lent_of entered.old names.old known.old chains.old ends.old)) prelude.now members.now lengths.now (record { prelude = resolved.old; outs = outs.old; answers = answers.old }) }
    ensures tables_cleared { TablesCleared (asked prelude.now).version entered.old entered.new names.old names.new known.old known.new chains.old chains.new ends.old ends.new }
{
    batch_with(
        prelude, members, lengths, resolved, outs, answers, entered, names, known, chains, ends,
    )
}
