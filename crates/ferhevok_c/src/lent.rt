// The C function that resolves a form of any version and rule set, in working areas that are lent.
ghost use Rattle.std.specs.Prelude.{◌≡◌, length};
ghost use Rattle.resolver.specs.Meaning.{ruled};
ghost use Rattle.resolver_with.specs.Asked.{asked};
ghost use Rattle.resolver_with.specs.Areas.{lent_of, Cleared};
ghost use Rattle.resolver_with.specs.With.{answer_with, output_with};
ghost use Rattle.ferhevok.specs.Packed.{packed};

use names::Slot;

// Resolves the form into `out`. After every return the areas are zero up to the sizes of the form's version.
#[unsafe(no_mangle)]
pub extern "C" fn wnt_resolve_with(
    form: &[u8],
    out: &mut [u8],
    entered: &mut [Slot],
    names: &mut [Slot],
    known: &mut [u16],
    chains: &mut [u16],
    ends: &mut [u32],
) -> u64
    ensures { (result ≡ packed (ruled (answer_with form.now (length out.old) (lent_of entered.old names.old known.old chains.old ends.old))).plain) × (out.new ≡ output_with form.now out.old (lent_of entered.old names.old known.old chains.old ends.old)) × Cleared (asked form.now).version entered.old entered.new names.old names.new known.old known.new chains.old chains.new ends.old ends.new }
{
    ferhevok::lent::wnt_resolve_with(form, out, entered, names, known, chains, ends)
}
