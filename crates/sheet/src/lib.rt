// A binding sheet held against an input and its resolved form.
//
// Only the very bytes that document 01 writes for the input are its resolved form. So the input is resolved once more, in a working area
// that is lent, and compared; the slots are then answered on the rows of the resolved form.
#![tactic(auto)]

ghost use Rattle.std.specs.Prelude.{◌≡◌, ◌*◌, ◌/◌, ◌≤◌, length, take, replicate};
ghost use Rattle.rules.specs.Versions.{base};
ghost use Rattle.rules.specs.Answer.{same_numbers, output};
ghost use Rattle.binding.specs.Sheet.{run_of, sheet_answer, answers_after, work_after};
ghost use Rattle.resolver.specs.Meaning as resolver_says;
ghost use Rattle.sheet.specs.Meaning.{meaning, ruled};
ghost use Rattle.sheet.specs.Run.{refused_t, rows_written, is_output};

use areas::clear_bytes;
use fixed::bytes_of;
use refusal::{ROOM, Refusal, Refused};
use resolver::run::resolve;
use slots::{ANSWER, SLOT, answer_slots, is_sound};
use stores::zero_from;

// The bytes of the working area: as many as the longest output of version 1 takes.
pub const AREA: usize = 65480;

// Refusal 15: no sheet, or not an accepted input and its resolved form.
pub const NOT_ITS_SHEET: u32 = 15;

// Document 01's refusal of that number.
pub fn refused(number: u32) -> Result<usize, Refusal>
    ensures { result ≡ refused_t number }
{
    Err(Refusal { number, place: 0 })
}

// Whether `bytes` are what `area` begins with.
pub fn begins(area: &[u8], bytes: &[u8]) -> bool
    ensures { result ≡ same_numbers bytes.now (take (length bytes.now) area.now) }
{
    let mut i = 0;
    while i < bytes.len() {
        if area.len() <= i {
            return false;
        }
        if bytes[i] != area[i] {
            return false;
        }
        i += 1;
    }
    true
}

// How many rows the resolver wrote, 0 if it refused. It is the number that says so: 0 is no refusal's.
pub fn rows_written(answer: Result<u32, Refused>) -> u32
    ensures { result ≡ rows_written (resolver_says.meaning answer).plain }
{
    match answer {
        Ok(rows) => rows,
        Err(Refused { refusal, .. }) => {
            if refusal.number == 0 {
                refusal.place
            } else {
                0
            }
        }
    }
}

// Whether `resolved` is what is written for the form, which is resolved into `area`.
fn resolves_to(form: &[u8], resolved: &[u8], area: &mut [u8]) -> bool
    requires { 65480 ≤ length area.old }
    ensures { (result ≡ is_output (run_of base form.now) resolved.now) × (area.new ≡ output base form.now area.old) }
{
    let rows = rows_written(resolve(form, area));
    if rows == 0 {
        return false;
    }
    if resolved.len() != bytes_of(rows) {
        return false;
    }
    begins(area, resolved)
}

// The same, and the area is zero then.
fn is_output(form: &[u8], resolved: &[u8], area: &mut [u8]) -> bool
    requires { 65480 ≤ length area.old }
    ensures { (result ≡ is_output (run_of base form.now) resolved.now) × (area.new ≡ replicate (length area.old) 0) }
{
    let same = resolves_to(form, resolved, area);
    zero_from(area, 0);
    same
}

// The bytes that the answers to a sheet take.
pub fn answers_size(sheet: &[u8]) -> usize
    ensures { result ≡ 8 * (length sheet.now / 12) }
{
    ANSWER * (sheet.len() / SLOT)
}

// Answers each slot of the sheet in `answers`, eight bytes a slot. A refusal leaves `answers` as it was; after every return the working
// area is zero.
pub fn check(
    form: &[u8],
    resolved: &[u8],
    sheet: &[u8],
    answers: &mut [u8],
    work: &mut [u8],
) -> Result<usize, Refusal>
    ensures result_value { meaning result ≡ ruled (sheet_answer base form.now resolved.now sheet.now (length answers.old) (length work.old)) }
    ensures answers_after { answers.new ≡ answers_after (sheet_answer base form.now resolved.now sheet.now (length answers.old) (length work.old)) answers.old }
    ensures work_after { work.new ≡ work_after base form.now work.old }
{
    if !is_sound(sheet) {
        clear_bytes(work, AREA);
        return refused(NOT_ITS_SHEET);
    }
    if work.len() < AREA {
        clear_bytes(work, AREA);
        return refused(ROOM);
    }
    if !is_output(form, resolved, &mut work[..AREA]) {
        return refused(NOT_ITS_SHEET);
    }
    if answers.len() < answers_size(sheet) {
        return refused(ROOM);
    }
    Ok(answer_slots(resolved, sheet, answers))
}
