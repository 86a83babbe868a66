// A binding sheet held against an input and its resolved form of any version that is in force: in working areas that are lent.
#![tactic(auto)]

ghost use Rattle.std.specs.Prelude.{◌≡◌, true, ◌≤◌, length, replicate};
ghost use Rattle.kit.specs.Out.{◌&◌};
ghost use Rattle.limits.specs.Held.{setting};
ghost use Rattle.reading_laws.specs.OnBytes.{body};
ghost use Rattle.binding.specs.Sheet.{run_of, answers_after, work_after};
ghost use Rattle.slots.specs.Slots.{answered};
ghost use Rattle.rules.specs.Versions.{all};
ghost use Rattle.resolver_with.specs.Asked.{asked};
ghost use Rattle.resolver_with.specs.Areas.{lent_of, roomy, Cleared};
ghost use Rattle.sheet.specs.Meaning.{meaning, ruled};
ghost use Rattle.sheet.specs.Run.{is_output};
ghost use Rattle.sheet_with.specs.With.{sheet_with, area_for, early_t};

use areas::clear_bytes;
use fixed::HEADER;
use lent_areas::{are_roomy, clear_areas};
use limits::of_input;
use names::{Slot, least};
use refusal::{ROOM, Refusal};
use resolver::run::header_size;
use resolver_with::run::{asked_for, resolve_with};
use sheet::{NOT_ITS_SHEET, answers_size, begins, refused, rows_written};
use slots::{answer_slots, is_sound};
use stores::zero_from;

// The bytes of the area in which a form of the setting at place i is resolved: as many as its version's longest output takes.
fn area_for(i: usize) -> usize
    ensures { (result ≡ area_for (setting i)) × (result ≤ 1048767) }
{
    let limits = of_input(i);
    header_size(i) + 64 * limits.rows
}

// The refusal's number where there is no sheet, or an area is too small.
fn refused_early(sheet: &[u8], enough: bool) -> Option<u32>
    ensures { result ≡ early_t sheet.now enough }
{
    if !is_sound(sheet) {
        return Some(NOT_ITS_SHEET);
    }
    if enough { None } else { Some(ROOM) }
}

// Whether `resolved` is what is written for the form, which is resolved into `area`.
fn resolves_to(
    form: &[u8],
    resolved: &[u8],
    area: &mut [u8],
    i: usize,
    entered: &mut [Slot],
    names: &mut [Slot],
    known: &mut [u16],
    chains: &mut [u16],
    ends: &mut [u32],
) -> bool
    requires { (setting i ≡ asked form.now) × (area_for (setting i) ≤ length area.old) × (roomy (setting i).version (lent_of entered.old names.old known.old chains.old ends.old) ≡ true) }
    ensures value { result ≡ is_output (run_of all form.now) resolved.now }
    ensures cleared { Cleared (asked form.now).version entered.old entered.new names.old names.new known.old known.new chains.old chains.new ends.old ends.new }
{
    let rows = rows_written(resolve_with(form, area, entered, names, known, chains, ends));
    if rows == 0 {
        return false;
    }
    if resolved.len() != header_size(i) + 16 * (rows as usize) {
        return false;
    }
    begins(area, resolved)
}

// The same, and the area is zero then.
fn is_output(
    form: &[u8],
    resolved: &[u8],
    area: &mut [u8],
    i: usize,
    entered: &mut [Slot],
    names: &mut [Slot],
    known: &mut [u16],
    chains: &mut [u16],
    ends: &mut [u32],
) -> bool
    requires { (setting i ≡ asked form.now) × (area_for (setting i) ≤ length area.old) × (roomy (setting i).version (lent_of entered.old names.old known.old chains.old ends.old) ≡ true) }
    ensures value { (result ≡ is_output (run_of all form.now) resolved.now) × (area.new ≡ replicate (length area.old) 0) }
    ensures cleared { Cleared (asked form.now).version entered.old entered.new names.old names.new known.old known.new chains.old chains.new ends.old ends.new }
{
    let same = resolves_to(form, resolved, area, i, entered, names, known, chains, ends);
    zero_from(area, 0);
    same
}

// Answers the slots on the rows of the resolved form. They are looked for behind eight bytes: what a header has more is left out.
fn answer_behind(resolved: &[u8], sheet: &[u8], answers: &mut [u8], i: usize) -> usize
    ensures { (result & answers.new) ≡ answered (body (setting i) resolved.now) sheet.now answers.old }
{
    let more = least(header_size(i) - HEADER, resolved.len());
    answer_slots(&resolved[more..], sheet, answers)
}

// Answers each slot of the sheet in `answers`, eight bytes a slot, for a form of any setting in force. A refusal leaves `answers` as it
// was; after every return all areas are zero.
pub fn check_with(
    form: &[u8],
    resolved: &[u8],
    sheet: &[u8],
    answers: &mut [u8],
    work: &mut [u8],
    entered: &mut [Slot],
    names: &mut [Slot],
    known: &mut [u16],
    chains: &mut [u16],
    ends: &mut [u32],
) -> Result<usize, Refusal>
    ensures result_value { meaning result ≡ ruled (sheet_with form.now resolved.now sheet.now (length answers.old) (length work.old) (lent_of entered.old names.old known.old chains.old ends.old)) }
    ensures answers_after { answers.new ≡ answers_after (sheet_with form.now resolved.now sheet.now (length answers.old) (length work.old) (lent_of entered.old names.old known.old chains.old ends.old)) answers.old }
    ensures work_after { work.new ≡ work_after all form.now work.old }
    ensures cleared { Cleared (asked form.now).version entered.old entered.new names.old names.new known.old known.new chains.old chains.new ends.old ends.new }
{
    let i = asked_for(form);
    let size = area_for(i);
    let lent = are_roomy(
        i,
        entered.len(),
        names.len(),
        known.len(),
        chains.len(),
        ends.len(),
    );
    if let Some(early) = refused_early(sheet, lent & (size <= work.len())) {
        clear_bytes(work, size);
        clear_areas(i, entered, names, known, chains, ends);
        return refused(early);
    }
    if !is_output(
        form,
        resolved,
        &mut work[..size],
        i,
        entered,
        names,
        known,
        chains,
        ends,
    ) {
        return refused(NOT_ITS_SHEET);
    }
    if answers.len() < answers_size(sheet) {
        return refused(ROOM);
    }
    Ok(answer_behind(resolved, sheet, answers, i))
}
