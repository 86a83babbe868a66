// The C functions that check another assembler's output.
ghost use Rattle.std.specs.Prelude.{◌≡◌, length};
ghost use Rattle.rules.specs.Versions.{base, all};
ghost use Rattle.checking.specs.CheckAnswer.{check_answer, table_after, index_after};
ghost use Rattle.resolver_with.specs.Asked.{asked};
ghost use Rattle.resolver_with.specs.Areas.{lent_of, Cleared};
ghost use Rattle.claim_check.specs.Meaning.{ruled};
ghost use Rattle.check_with.specs.With.{check_with};
ghost use Rattle.ferhevok.specs.Packed.{packed_verdict};

use names::Slot;

// Says whether `claim` is an output of the form. After every return the areas are zero up to the sizes of the form's version.
#[unsafe(no_mangle)]
pub extern "C" fn wnt_check(form: &[u8], claim: &[u8], table: &mut [Slot], index: &mut [u16]) -> u64
    ensures { (result ≡ packed_verdict (ruled (check_answer base form.now claim.now (length table.old) (length index.old)))) × (table.new ≡ table_after base form.now table.old) × (index.new ≡ index_after base form.now index.old) }
{
    ferhevok::claims::wnt_check(form, claim, table, index)
}

// The same for every setting in force, in the areas of `wnt_resolve_with` besides.
#[unsafe(no_mangle)]
pub extern "C" fn wnt_check_with(
    form: &[u8],
    claim: &[u8],
    table: &mut [Slot],
    index: &mut [u16],
    entered: &mut [Slot],
    names: &mut [Slot],
    known: &mut [u16],
    chains: &mut [u16],
    ends: &mut [u32],
) -> u64
    ensures value { result ≡ packed_verdict (ruled (check_with form.now claim.now (length table.old) (length index.old) (lent_of entered.old names.old known.old chains.old ends.old))) }
    ensures table_after { (table.new ≡ table_after all form.now table.old) × (index.new ≡ index_after all form.now index.old) }
    ensures cleared { Cleared (asked form.now).version entered.old entered.new names.old names.new known.old known.new chains.old chains.new ends.old ends.new }
{
    ferhevok::claims::wnt_check_with(
        form, claim, table, index, entered, names, known, chains, ends,
    )
}
