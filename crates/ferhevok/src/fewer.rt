// The functions that resolve a form with fewer aliases.
ghost use Rattle.std.specs.Prelude.{◌≡◌, length};
ghost use Rattle.rules.specs.Versions.{base, all};
ghost use Rattle.checking.specs.CheckAnswer.{table_after, index_after};
ghost use Rattle.share.specs.Lent.{shared_with, output_with};
ghost use Rattle.resolver.specs.Meaning.{ruled};
ghost use Rattle.resolver_with.specs.Asked.{asked};
ghost use Rattle.clearing.specs.Cleared.{cleared};
ghost use Rattle.resolver_with.specs.Areas.{lent_of, Cleared};
ghost use Rattle.share_with.specs.With.{bytes_for, shared_with as shared_lent, output_with as output_lent};
ghost use Rattle.ferhevok.specs.Packed.{packed};

use crate::packed_in;
use names::Slot;
use share::share;
use share_with::share_with;

// Resolves the form into `out` so that references in one scope share aliases. After every return the areas are zero up to their sizes.
pub fn wnt_share(form: &[u8], out: &mut [u8], table: &mut [Slot], index: &mut [u16]) -> u64
    ensures value { (result ≡ packed (ruled (shared_with form.now (length out.old) (length table.old) (length index.old))).plain) × (out.new ≡ output_with form.now out.old (length table.old) (length index.old)) }
    ensures table_after { (table.new ≡ table_after base form.now table.old) × (index.new ≡ index_after base form.now index.old) }
{
    packed_in(share(form, out, table, index))
}

// The same for every setting in force. The marked rows are lent besides the areas of the check and those of `wnt_resolve_with`.
pub fn wnt_share_with(
    form: &[u8],
    out: &mut [u8],
    marked: &mut [u8],
    table: &mut [Slot],
    index: &mut [u16],
    entered: &mut [Slot],
    names: &mut [Slot],
    known: &mut [u16],
    chains: &mut [u16],
    ends: &mut [u32],
) -> u64
    ensures value { (result ≡ packed (ruled (shared_lent form.now (length out.old) (length marked.old) (length table.old) (length index.old) (lent_of entered.old names.old known.old chains.old ends.old))).plain) × (out.new ≡ output_lent form.now out.old (length marked.old) (length table.old) (length index.old) (lent_of entered.old names.old known.old chains.old ends.old)) }
    ensures marked_after { (marked.new ≡ cleared 0 (bytes_for (asked form.now).version) marked.old) × (table.new ≡ table_after all form.now table.old) × (index.new ≡ index_after all form.now index.old) }
    ensures cleared { Cleared (asked form.now).version entered.old entered.new names.old names.new known.old known.new chains.old chains.new ends.old ends.new }
{
    packed_in(share_with(
        form, out, marked, table, index, entered, names, known, chains, ends,
    ))
}
