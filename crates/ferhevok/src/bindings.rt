// The functions that hold a binding sheet against an input and its resolved form.
ghost use Rattle.std.specs.Prelude.{◌≡◌, length};
ghost use Rattle.rules.specs.Versions.{base, all};
ghost use Rattle.binding.specs.Sheet.{sheet_answer, answers_after, work_after};
ghost use Rattle.resolver_with.specs.Asked.{asked};
ghost use Rattle.resolver_with.specs.Areas.{lent_of, Cleared};
ghost use Rattle.sheet.specs.Meaning.{meaning, ruled};
ghost use Rattle.sheet_with.specs.With.{sheet_with};
ghost use Rattle.ferhevok.specs.Packed.{packed};

use names::Slot;
use packed::packed_refusal;
use refusal::Refusal;
use sheet::check;
use sheet_with::check_with;

// The refusal's number times 2^32 plus its place; else how many slots are not bound as written.
fn packed_slots(answer: Result<usize, Refusal>) -> u64
    ensures { result ≡ packed (meaning answer) }
{
    match answer {
        Ok(failing) => failing as u64,
        Err(refusal) => packed_refusal(refusal),
    }
}

// Answers each slot of the sheet in `answers`. After every return the working area is zero.
pub fn wnt_sheet(
    form: &[u8],
    resolved: &[u8],
    sheet: &[u8],
    answers: &mut [u8],
    work: &mut [u8],
) -> u64
    ensures value { result ≡ packed (ruled (sheet_answer base form.now resolved.now sheet.now (length answers.old) (length work.old))) }
    ensures answers_after { answers.new ≡ answers_after (sheet_answer base form.now resolved.now sheet.now (length answers.old) (length work.old)) answers.old }
    ensures work_after { work.new ≡ work_after base form.now work.old }
{
    packed_slots(check(form, resolved, sheet, answers, work))
}

// The same for forms of any version. After every return all areas are zero up to the sizes of the form's version.
pub fn wnt_sheet_with(
    form: &[u8],
    resolved: &[u8],
    sheet: &[u8],
    answers: &mut [u8],
    work: &mut [u8],
    entered: &mut [Slot],
    names: &mut [Slot],
    known: &mut [u16],
    chains: &mut [u16],
    ends: &mut [u32],
) -> u64
    ensures value { result ≡ packed (ruled (sheet_with form.now resolved.now sheet.now (length answers.old) (length work.old) (lent_of entered.old names.old known.old chains.old ends.old))) }
    ensures answers_after { answers.new ≡ answers_after (sheet_with form.now resolved.now sheet.now (length answers.old) (length work.old) (lent_of entered.old names.old known.old chains.old ends.old)) answers.old }
    ensures work_after { work.new ≡ work_after all form.now work.old }
    ensures cleared { Cleared (asked form.now).version entered.old entered.new names.old names.new known.old known.new chains.old chains.new ends.old ends.new }
{
    packed_slots(check_with(
        form, resolved, sheet, answers, work, entered, names, known, chains, ends,
    ))
}
