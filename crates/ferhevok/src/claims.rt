// The functions that check another assembler's output.
ghost use Rattle.std.specs.Prelude.{◌≡◌, length};
ghost use Rattle.rules.specs.Versions.{base, all};
ghost use Rattle.checking.specs.CheckAnswer.{check_answer, table_after, index_after};
ghost use Rattle.resolver_with.specs.Asked.{asked};
ghost use Rattle.resolver_with.specs.Areas.{lent_of, Cleared};
ghost use Rattle.claim_check.specs.Meaning.{meaning, ruled};
ghost use Rattle.check_with.specs.With.{check_with};
ghost use Rattle.ferhevok.specs.Packed.{packed_verdict};

use check_with::check_with as judge_with;
use claim_check::Verdict;
use claim_check::run::check;
use names::Slot;
use packed::{packed_no, packed_refusal};
use refusal::Refusal;

// 0 for yes; for no 100 and the condition, for a refusal its number, times 2^32, plus the row or the place.
fn packed_verdict(verdict: Result<Verdict, Refusal>) -> u64
    ensures { result ≡ packed_verdict (meaning verdict) }
{
    match verdict {
        Ok(Verdict::Yes) => 0,
        Ok(Verdict::No { condition, row }) => packed_no(condition, row),
        Err(refusal) => packed_refusal(refusal),
    }
}

// Says whether `claim` is an output of the form. After every return the areas are zero up to the sizes of the form's version.
pub fn wnt_check(form: &[u8], claim: &[u8], table: &mut [Slot], index: &mut [u16]) -> u64
    ensures { (result ≡ packed_verdict (ruled (check_answer base form.now claim.now (length table.old) (length index.old)))) × (table.new ≡ table_after base form.now table.old) × (index.new ≡ index_after base form.now index.old) }
{
    packed_verdict(check(form, claim, table, index))
}

// The same for every setting in force, in the areas of `wnt_resolve_with` besides.
pub fn wnt_check_with(
    form: &[u8],
    claim: &[u8],
    table: &mut [Slot],
    index: &mut [u16],
    entered: &mut [Slot],
    names: &mut [Slot],
    known: &mut [u16],
    chains: &mut [u16],
    ends: &mut [u32],
) -> u64
    ensures value { result ≡ packed_verdict (ruled (check_with form.now claim.now (length table.old) (length index.old) (lent_of entered.old names.old known.old chains.old ends.old))) }
    ensures table_after { (table.new ≡ table_after all form.now table.old) × (index.new ≡ index_after all form.now index.old) }
    ensures cleared { Cleared (asked form.now).version entered.old entered.new names.old names.new known.old known.new chains.old chains.new ends.old ends.new }
{
    packed_verdict(judge_with(
        form, claim, table, index, entered, names, known, chains, ends,
    ))
}
