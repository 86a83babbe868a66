// Gives an input form back for a resolved form of any version that is in force: in working areas that are lent.
#![tactic(auto)]

ghost use Rattle.std.specs.Prelude.{◌≡◌, ◌||◌, not, ◌*◌, ◌≤◌, ◌<◌, ltb, length, take, drop, set, replicate};
ghost use Rattle.kit.specs.Out.{◌&◌};
ghost use Rattle.rules.specs.Answer.{same_numbers, output};
ghost use Rattle.rules.specs.Laws.RowLaws.{Bytes};
ghost use Rattle.clearing.specs.Cleared.{cleared};
ghost use Rattle.unresolving.specs.BackAnswer.{back_answer, back_output};
ghost use Rattle.limits.specs.Held.{setting};
ghost use Rattle.back_notes.specs.Note.{no_note};
ghost use Rattle.resolver.specs.Meaning.{meaning};
ghost use Rattle.resolver_with.specs.Asked.{asked};
ghost use Rattle.resolver_with.specs.Areas.{slots_for, links_for, lent_of, Cleared};
ghost use Rattle.resolver_with.specs.Exact.{Suits};
ghost use Rattle.claim_check.specs.Run.{Kept};
ghost use Rattle.check_with.specs.Large.{Large};
ghost use Rattle.unresolve.specs.With.{input_size, output_size};
ghost use Rattle.unresolve.specs.Meaning.{returned_in};
ghost use Rattle.unresolve.specs.Restored.{restore_t};
ghost use Rattle.unresolve.specs.Run.{alone, Came};
ghost use Rattle.unresolve_with.specs.With.{notes_for, back_lent, out_lent, lengths_of, ClearedBack};
ghost use Rattle.unresolve_with.specs.Exact.{Sized, Roomy};

use areas::{clear_bytes, zero_links};
use back_notes::note::Note;
use lent_areas::{are_roomy, clear_areas};
use names::Slot;
use refusal::{ROOM, Refused};
use resolver::run::header_size;
use resolver_with::run::{asked_for, run_in};
use resolver_with::sizes::{links_for, slots_for};
use unresolve::restore::{most_rows, restore};
use unresolve::run::{NO_INPUT, begins_with, give, refused, unmark};
use whole_form::read::read_claim;

// ---- notes that are lent

// Zeroes all notes.
fn zero_notes(noted: &mut [Note])
    ensures { noted.new ≡ replicate (length noted.old) no_note }
{
    let mut i = 0;
    while i < noted.len() {
        noted[i] = [0; 2];
        i += 1;
    }
}

// The first notes become empty, all of them where there are fewer.
fn clear_notes(noted: &mut [Note], size: usize)
    ensures { noted.new ≡ cleared no_note size noted.old }
{
    if noted.len() < size {
        zero_notes(noted);
        return;
    }
    zero_notes(&mut noted[..size]);
}

// ---- how large the areas are for a form of the setting at place i

// The bytes of an input of the most rows.
fn input_size(i: usize) -> usize
    ensures { (result ≡ input_size (setting i).version) × (result ≤ 262383) }
{
    header_size(i) + 16 * most_rows(i)
}

// Those of the output that it may have.
fn output_size(i: usize) -> usize
    ensures { (result ≡ output_size (setting i).version) × (result ≤ 1048767) }
{
    header_size(i) + 64 * most_rows(i)
}

// The rows of that output: each has a note.
fn notes_size(i: usize) -> usize
    ensures { (result ≡ notes_for (setting i).version) × (result ≤ 65532) }
{
    4 * most_rows(i)
}

// ---- in areas of these sizes

// Restores the form in the area, and answers where it begins there. The notes and the table may hold anything.
fn restore_lent(
    form: &[u8],
    i: usize,
    restored: &mut [u8],
    noted: &mut [Note],
    table: &mut [Slot],
    index: &mut [u16],
) -> usize
    requires { ((setting i).version.header ≤ length form.now) × (length restored.old ≡ input_size (setting i).version) × (length table.old ≡ slots_for (setting i).version) × (length index.old ≡ links_for (setting i).version) }
    ensures { ((result & restored.new) ≡ restore_t i (slots_for (setting i).version) noted.old (drop (setting i).version.header form.now) restored.old) × (result ≤ 16 * (setting i).version.rows) }
{
    let header = header_size(i);
    zero_links(index);
    restore(i, &form[header..], restored, noted, table, index)
}

// Whether the input resolves to these bytes. A refused one leaves no form in `again`, so that the answer need not be looked at.
fn resolves_to(
    input: &[u8],
    claim: &[u8],
    again: &mut [u8],
    i: usize,
    entered: &mut [Slot],
    names: &mut [Slot],
    known: &mut [u16],
    chains: &mut [u16],
    ends: &mut [u32],
) -> bool
    requires { Suits i entered.old names.old known.old chains.old ends.old }
    ensures { (result ≡ same_numbers (take (length claim.now) (output (alone i) input.now (set again.old 0 0))) claim.now) × Bytes input.now }
{
    unmark(again);
    let _ = run_in(input, again, i, entered, names, known, chains, ends);
    begins_with(again, claim)
}

// Restores an input in the area, and says whether it is one. The table of names serves both.
fn find_input(
    form: &[u8],
    i: usize,
    restored: &mut [u8],
    again: &mut [u8],
    noted: &mut [Note],
    entered: &mut [Slot],
    names: &mut [Slot],
    known: &mut [u16],
    chains: &mut [u16],
    ends: &mut [u32],
) -> Option<usize>
    requires { Sized i restored.old again.old noted.old × Suits i entered.old names.old known.old chains.old ends.old }
    ensures { Came i result form.now restored.new }
{
    match read_claim(form, i) {
        Err(_) => None,
        Ok(_) => {
            let at = restore_lent(form, i, restored, noted, names, chains);
            if resolves_to(
                &restored[at..],
                form,
                again,
                i,
                entered,
                names,
                known,
                chains,
                ends,
            ) {
                return Some(at);
            }
            None
        }
    }
}

// The way back under the setting at place i.
fn give_found(
    form: &[u8],
    out: &mut [u8],
    i: usize,
    restored: &mut [u8],
    again: &mut [u8],
    noted: &mut [Note],
    entered: &mut [Slot],
    names: &mut [Slot],
    known: &mut [u16],
    chains: &mut [u16],
    ends: &mut [u32],
) -> Result<u32, Refused>
    requires { Sized i restored.old again.old noted.old × Suits i entered.old names.old known.old chains.old ends.old }
    ensures { (meaning result ≡ returned_in (setting i).version (back_answer (alone i) form.now (length out.old))) × (out.new ≡ back_output (alone i) form.now out.old) }
{
    match find_input(
        form, i, restored, again, noted, entered, names, known, chains, ends,
    ) {
        None => refused(NO_INPUT),
        Some(at) => give(i, &restored[at..], out),
    }
}

// ---- in areas that are large enough: only their fronts are lent on, so what lies beyond them stays as it was

// The fronts of the resolver's areas.
fn give_in_tables(
    form: &[u8],
    out: &mut [u8],
    i: usize,
    restored: &mut [u8],
    again: &mut [u8],
    noted: &mut [Note],
    entered: &mut [Slot],
    names: &mut [Slot],
    known: &mut [u16],
    chains: &mut [u16],
    ends: &mut [u32],
) -> Result<u32, Refused>
    requires { Sized i restored.old again.old noted.old × Large i entered.old names.old known.old chains.old ends.old }
    ensures result_value { (meaning result ≡ returned_in (setting i).version (back_answer (alone i) form.now (length out.old))) × (out.new ≡ back_output (alone i) form.now out.old) }
    ensures kept { Kept (slots_for (setting i).version) entered.old entered.new × Kept (slots_for (setting i).version) names.old names.new × Kept (links_for (setting i).version) known.old known.new × Kept (links_for (setting i).version) chains.old chains.new × Kept (slots_for (setting i).version) ends.old ends.new }
{
    let most = slots_for(i);
    let all = links_for(i);
    give_found(
        form,
        out,
        i,
        restored,
        again,
        noted,
        &mut entered[..most],
        &mut names[..most],
        &mut known[..all],
        &mut chains[..all],
        &mut ends[..most],
    )
}

// And those of the others.
fn give_in_fronts(
    form: &[u8],
    out: &mut [u8],
    i: usize,
    restored: &mut [u8],
    again: &mut [u8],
    noted: &mut [Note],
    entered: &mut [Slot],
    names: &mut [Slot],
    known: &mut [u16],
    chains: &mut [u16],
    ends: &mut [u32],
) -> Result<u32, Refused>
    requires { Roomy i restored.old again.old noted.old × Large i entered.old names.old known.old chains.old ends.old }
    ensures result_value { (meaning result ≡ returned_in (setting i).version (back_answer (alone i) form.now (length out.old))) × (out.new ≡ back_output (alone i) form.now out.old) }
    ensures kept { Kept (input_size (setting i).version) restored.old restored.new × Kept (output_size (setting i).version) again.old again.new × Kept (notes_for (setting i).version) noted.old noted.new }
    ensures kept_2 { Kept (slots_for (setting i).version) entered.old entered.new × Kept (slots_for (setting i).version) names.old names.new × Kept (links_for (setting i).version) known.old known.new × Kept (links_for (setting i).version) chains.old chains.new × Kept (slots_for (setting i).version) ends.old ends.new }
{
    let input = input_size(i);
    let output = output_size(i);
    let notes = notes_size(i);
    give_in_tables(
        form,
        out,
        i,
        &mut restored[..input],
        &mut again[..output],
        &mut noted[..notes],
        entered,
        names,
        known,
        chains,
        ends,
    )
}

// ---- in areas of any size

// The areas of the way back are handed back empty.
fn clear_back(i: usize, restored: &mut [u8], again: &mut [u8], noted: &mut [Note])
    ensures { ClearedBack (setting i).version restored.old restored.new again.old again.new noted.old noted.new }
{
    clear_bytes(restored, input_size(i));
    clear_bytes(again, output_size(i));
    clear_notes(noted, notes_size(i));
}

// Whether an area is too small for a form of the setting at place i; `lent` says it of the resolver's areas.
fn is_small(lent: bool, restored: usize, again: usize, noted: usize, i: usize) -> bool
    ensures { result ≡ (not lent || (ltb restored (input_size (setting i).version) || (ltb again (output_size (setting i).version) || ltb noted (notes_for (setting i).version)))) }
{
    !lent | ((restored < input_size(i)) | ((again < output_size(i)) | (noted < notes_size(i))))
}

// The way back in areas that are large enough, which are handed back empty.
fn give_lent(
    form: &[u8],
    out: &mut [u8],
    i: usize,
    restored: &mut [u8],
    again: &mut [u8],
    noted: &mut [Note],
    entered: &mut [Slot],
    names: &mut [Slot],
    known: &mut [u16],
    chains: &mut [u16],
    ends: &mut [u32],
) -> Result<u32, Refused>
    requires { Roomy i restored.old again.old noted.old × Large i entered.old names.old known.old chains.old ends.old }
    ensures result_value { (meaning result ≡ returned_in (setting i).version (back_answer (alone i) form.now (length out.old))) × (out.new ≡ back_output (alone i) form.now out.old) }
    ensures cleared_back { ClearedBack (setting i).version restored.old restored.new again.old again.new noted.old noted.new }
    ensures cleared { Cleared (setting i).version entered.old entered.new names.old names.new known.old known.new chains.old chains.new ends.old ends.new }
{
    let answer = give_in_fronts(
        form, out, i, restored, again, noted, entered, names, known, chains, ends,
    );
    clear_back(i, restored, again, noted);
    clear_areas(i, entered, names, known, chains, ends);
    answer
}

// Writes an input that resolves to the form, of any setting in force, to the front of `out`. After every return all areas are zero up
// to the sizes of the form's version.
pub fn unresolve_with(
    form: &[u8],
    out: &mut [u8],
    restored: &mut [u8],
    again: &mut [u8],
    noted: &mut [Note],
    entered: &mut [Slot],
    names: &mut [Slot],
    known: &mut [u16],
    chains: &mut [u16],
    ends: &mut [u32],
) -> Result<u32, Refused>
    ensures result_value { (meaning result ≡ returned_in (asked form.now).version (back_lent form.now (length out.old) (lengths_of restored.old again.old noted.old (lent_of entered.old names.old known.old chains.old ends.old)))) × (out.new ≡ out_lent form.now out.old (lengths_of restored.old again.old noted.old (lent_of entered.old names.old known.old chains.old ends.old))) }
    ensures cleared_back { ClearedBack (asked form.now).version restored.old restored.new again.old again.new noted.old noted.new }
    ensures cleared { Cleared (asked form.now).version entered.old entered.new names.old names.new known.old known.new chains.old chains.new ends.old ends.new }
{
    let i = asked_for(form);
    let lent = are_roomy(
        i,
        entered.len(),
        names.len(),
        known.len(),
        chains.len(),
        ends.len(),
    );
    if is_small(lent, restored.len(), again.len(), noted.len(), i) {
        clear_back(i, restored, again, noted);
        clear_areas(i, entered, names, known, chains, ends);
        return refused(ROOM);
    }
    give_lent(
        form, out, i, restored, again, noted, entered, names, known, chains, ends,
    )
}
