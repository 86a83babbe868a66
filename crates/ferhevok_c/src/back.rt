// The C functions that give an input back for a resolved form.
ghost use Rattle.std.specs.Prelude.{◌≡◌, length};
ghost use Rattle.resolver_with.specs.Asked.{asked};
ghost use Rattle.resolver_with.specs.Areas.{lent_of, Cleared};
ghost use Rattle.unresolve.specs.Meaning.{returned, returned_in};
ghost use Rattle.unresolve.specs.With.{back_with, out_with, restored_after, again_after};
ghost use Rattle.unresolve_with.specs.With.{back_lent, out_lent, lengths_of, ClearedBack};
ghost use Rattle.ferhevok.specs.Packed.{packed};

use back_notes::note::Note;
use names::Slot;

// Writes an input that resolves to the form to the front of `out`. After every return the areas are zero up to their sizes.
#[unsafe(no_mangle)]
pub extern "C" fn wnt_unresolve(
    form: &[u8],
    out: &mut [u8],
    restored: &mut [u8],
    again: &mut [u8],
) -> u64
    ensures { (result ≡ packed (returned (back_with form.now (length out.old) (length restored.old) (length again.old))).plain) × (out.new ≡ out_with form.now out.old (length restored.old) (length again.old)) × (restored.new ≡ restored_after restored.old) × (again.new ≡ again_after again.old) }
{
    ferhevok::back::wnt_unresolve(form, out, restored, again)
}

// The same for every setting in force, in notes that are lent too and the areas of `wnt_resolve_with` besides.
#[unsafe(no_mangle)]
pub extern "C" fn wnt_unresolve_with(
    form: &[u8],
    out: &mut [u8],
    restored: &mut [u8],
    again: &mut [u8],
    noted: &mut [Note],
    entered: &mut [Slot],
    names: &mut [Slot],
    known: &mut [u16],
    chains: &mut [u16],
    ends: &mut [u32],
) -> u64
    ensures value { (result ≡ packed (returned_in (asked form.now).version (back_lent form.now (length out.old) (lengths_of restored.old again.old noted.old (lent_of entered.old names.old known.old chains.old ends.old)))).plain) × (out.new ≡ out_lent form.now out.old (lengths_of restored.old again.old noted.old (lent_of entered.old names.old known.old chains.old ends.old))) }
    ensures cleared_back { ClearedBack (asked form.now).version restored.old restored.new again.old again.new noted.old noted.new }
    ensures cleared { Cleared (asked form.now).version entered.old entered.new names.old names.new known.old known.new chains.old chains.new ends.old ends.new }
{
    ferhevok::back::wnt_unresolve_with(
        form, out, restored, again, noted, entered, names, known, chains, ends,
    )
}
