// The whole way back: what is restored is given only if it resolves to the very bytes of the resolved form.
ghost use Rattle.std.specs.Prelude.{◌≡◌, ◌≤◌, length, take, set};
ghost use Rattle.kit.specs.Out.{◌&◌};
ghost use Rattle.rules.specs.Answer.{same_numbers, output};
ghost use Rattle.rules.specs.Versions.{base};
ghost use Rattle.rules.specs.Laws.RowLaws.{Bytes};
ghost use Rattle.unresolving.specs.BackAnswer.{back_answer, back_output};
ghost use Rattle.limits.specs.Held.{setting};
ghost use Rattle.resolver.specs.Meaning.{meaning};
ghost use Rattle.unresolve.specs.Meaning.{returned};
ghost use Rattle.unresolve.specs.With.{back_with, out_with, restored_after, again_after};
ghost use Rattle.unresolve.specs.Run.{refused_t, Came, give_t, Kept};

use crate::restore::restore_first;
use areas::clear_bytes;
use copy::copy;
use fixed::HEADER;
use refusal::{ROOM, Refusal, Refused, Told};
use resolver::run::resolve;
use whole_form::header::header_at;
use whole_form::read::read_claim;

// The setting in force.
const FIRST: usize = 0;

// The refusal of bytes that are no input's output.
pub const NO_INPUT: u32 = 14;

// How many bytes an input of the most rows has, and the output that it may have.
const RESTORED: usize = 16376;

const AGAIN: usize = 65480;

// ---- held to the resolver

// Whether the bytes begin with these.
pub fn begins_with(bytes: &[u8], front: &[u8]) -> bool
    ensures { result ≡ same_numbers (take (length front.now) bytes.now) front.now }
{
    if bytes.len() < front.len() {
        return false;
    }
    let mut k = 0;
    while k < front.len() {
        if bytes[k] != front[k] {
            return false;
        }
        k += 1;
    }
    true
}

// Takes the mark of a form away.
pub fn unmark(area: &mut [u8])
    ensures { area.new ≡ set area.old 0 0 }
{
    if 0 < area.len() {
        area[0] = 0;
    }
}

// Whether the input resolves to these bytes. A refused one leaves no form in `again`, so that the answer need not be looked at.
fn resolves_to(input: &[u8], claim: &[u8], again: &mut [u8]) -> bool
    ensures { (result ≡ same_numbers (take (length claim.now) (output base input.now (set again.old 0 0))) claim.now) × Bytes input.now }
{
    unmark(again);
    let _ = resolve(input, again);
    begins_with(again, claim)
}

// Restores an input in the area, and says whether it is one.
fn find_input(form: &[u8], restored: &mut [u8], again: &mut [u8]) -> Option<usize>
    requires { (length restored.old ≡ 16376) × (length again.old ≡ 65480) }
    ensures { Came 0 result form.now restored.new }
{
    match read_claim(form, FIRST) {
        Err(_) => None,
        Ok(_) => {
            let at = restore_first(&form[HEADER..], restored);
            if resolves_to(&restored[at..], form, again) {
                return Some(at);
            }
            None
        }
    }
}

// ---- the answer

// A refusal at place 0.
pub fn refused(number: u32) -> Result<u32, Refused>
    ensures { result ≡ refused_t number }
{
    Err(Refused {
        refusal: Refusal { number, place: 0 },
        told: Told { space: 0, first: 0 },
    })
}

// Writes an input of the setting at place i to the front of the output, if there is room for it.
pub fn give(i: usize, input: &[u8], out: &mut [u8]) -> Result<u32, Refused>
    requires { ((setting i).version.header ≤ length input.now) × (length input.now ≤ 262144) }
    ensures { (result & out.new) ≡ give_t i input.now out.old }
{
    if out.len() < input.len() {
        return refused(ROOM);
    }
    let rows = (input.len() - header_at(i)) / 16;
    copy(input, out, 0);
    Ok(rows as u32)
}

// The way back in areas of these sizes.
fn run_in(
    form: &[u8],
    out: &mut [u8],
    restored: &mut [u8],
    again: &mut [u8],
) -> Result<u32, Refused>
    requires { (length restored.old ≡ 16376) × (length again.old ≡ 65480) }
    ensures { (meaning result ≡ returned (back_answer base form.now (length out.old))) × (out.new ≡ back_output base form.now out.old) }
{
    match find_input(form, restored, again) {
        None => refused(NO_INPUT),
        Some(at) => give(FIRST, &restored[at..], out),
    }
}

// In areas of any size: only their fronts are lent on, so what lies beyond them stays as it was.
fn decide(
    form: &[u8],
    out: &mut [u8],
    restored: &mut [u8],
    again: &mut [u8],
) -> Result<u32, Refused>
    ensures { (meaning result ≡ returned (back_with form.now (length out.old) (length restored.old) (length again.old))) × (out.new ≡ out_with form.now out.old (length restored.old) (length again.old)) × Kept 16376 restored.old restored.new × Kept 65480 again.old again.new }
{
    if restored.len() < RESTORED {
        return refused(ROOM);
    }
    if again.len() < AGAIN {
        return refused(ROOM);
    }
    run_in(form, out, &mut restored[..RESTORED], &mut again[..AGAIN])
}

// Writes an input that resolves to the form to the front of `out`. `restored` and `again` are working areas.
pub fn unresolve(
    form: &[u8],
    out: &mut [u8],
    restored: &mut [u8],
    again: &mut [u8],
) -> Result<u32, Refused>
    ensures { (meaning result ≡ returned (back_with form.now (length out.old) (length restored.old) (length again.old))) × (out.new ≡ out_with form.now out.old (length restored.old) (length again.old)) × (restored.new ≡ restored_after restored.old) × (again.new ≡ again_after again.old) }
{
    let answer = decide(form, out, restored, again);
    clear_bytes(restored, RESTORED);
    clear_bytes(again, AGAIN);
    answer
}
