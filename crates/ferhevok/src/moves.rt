// The functions that list the numbers that have moved.
ghost use Rattle.std.specs.Prelude.{◌≡◌};
ghost use Rattle.rules.specs.Versions.{base};
ghost use Rattle.moving.specs.MovedAnswer.{moved_answer, rooms_of, buffers};
ghost use Rattle.moved.specs.Meaning.{meaning, ruled, held};
ghost use Rattle.moved_with.specs.With.{moved_with, buffers_with};
ghost use Rattle.resolver_with.specs.Asked.{asked};
ghost use Rattle.resolver_with.specs.Areas.{lent_of, Cleared};
ghost use Rattle.ferhevok.specs.Packed.{packed};

use moved::run::moved as list_moved;
use moved_list::Listed;
use moved_with::moved_with as list_moved_with;
use names::Slot;
use packed::{packed_counts, packed_refusal};
use refusal::Refusal;

// The refusal's number times 2^32 plus its place; else how many numbers are apart times 65536 plus how many have moved.
fn packed_lists(answer: Result<Listed, Refusal>) -> u64
    ensures { result ≡ packed (meaning answer) }
{
    match answer {
        Ok(lists) => packed_counts(lists.apart, lists.moved),
        Err(refusal) => packed_refusal(refusal),
    }
}

// Resolves the form into `out`, and lists its written numbers that have moved and, apart from them, those that count to nothing.
pub fn wnt_moved(form: &[u8], out: &mut [u8], moved: &mut [u8], apart: &mut [u8]) -> u64
    ensures value { result ≡ packed (ruled (moved_answer base form.now (rooms_of (held out.old moved.old apart.old)))) }
    ensures apart_after { held out.new moved.new apart.new ≡ buffers base form.now (held out.old moved.old apart.old) }
{
    packed_lists(list_moved(form, out, moved, apart))
}

// The same for a form of any version. After every return the areas are zero up to the sizes of the form's version.
pub fn wnt_moved_with(
    form: &[u8],
    out: &mut [u8],
    moved: &mut [u8],
    apart: &mut [u8],
    entered: &mut [Slot],
    names: &mut [Slot],
    known: &mut [u16],
    chains: &mut [u16],
    ends: &mut [u32],
) -> u64
    ensures value { result ≡ packed (ruled (moved_with form.now (rooms_of (held out.old moved.old apart.old)) (lent_of entered.old names.old known.old chains.old ends.old))) }
    ensures apart_after { held out.new moved.new apart.new ≡ buffers_with form.now (held out.old moved.old apart.old) (lent_of entered.old names.old known.old chains.old ends.old) }
    ensures cleared { Cleared (asked form.now).version entered.old entered.new names.old names.new known.old known.new chains.old chains.new ends.old ends.new }
{
    packed_lists(list_moved_with(form, out, moved, apart, entered, names, known, chains, ends))
}
