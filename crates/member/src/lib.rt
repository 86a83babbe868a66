// One member of a batch by itself, inside the root of its resolved prelude, in version 1. It is given the prelude and the member and nothing
// of another member.
#![tactic(auto)]

ghost use Rattle.std.specs.Prelude.{◌≡◌, ◌+◌, ◌-◌, ◌*◌, ◌≤◌, ltb, length, take, drop};
ghost use Rattle.kit.specs.Pick.{pick};
ghost use Rattle.rules.specs.Versions.{base};
ghost use Rattle.limits.specs.Held.{setting};
ghost use Rattle.batching.specs.Batch.{member_answer, member_output};
ghost use Rattle.clearing.specs.Cleared.{cleared};
ghost use Rattle.batching.specs.BatchCalls.{room_with};
ghost use Rattle.resolver.specs.Meaning.{numbers, meaning, ruled};

use areas::clear_bytes;
use inside::run::resolve_inside;
use names::least;
use refusal::{Refusal, Refused};
use resolver::run::{header_size, resolve};

// The size of the working area: the output of a prelude of as many rows as a form may have.
pub const AREA: usize = 65480;

// What is added to the number of a prelude's refusal.
const OF_PRELUDE: u32 = 200;

// The rows of the form at the front of these bytes, as many as its header counts; the form is of the setting at place i.
pub fn rows_of(form: &[u8], i: usize, count: u32) -> &[u8]
    ensures { result.now ≡ take (16 * count) (drop (setting i).version.header form.now) }
{
    let header = header_size(i);
    let to = least(header + 16 * (count as usize), form.len());
    let from = least(header, to);
    &form[from..to]
}

// The number and the place of an answer: 0 and the number of rows if nothing is refused.
pub fn said(answer: Result<u32, Refused>) -> Refusal
    ensures { numbers result.number result.place ≡ (meaning answer).plain }
{
    match answer {
        Ok(rows) => Refusal {
            number: 0,
            place: rows,
        },
        Err(refused) => refused.refusal,
    }
}

// A prelude's refusal, told from the member's own.
pub fn of_prelude(why: Refusal) -> Refusal
    requires { why.number ≤ 13 }
    ensures { result ≡ record { number = 200 + why.number; place = why.place } }
{
    Refusal {
        number: OF_PRELUDE + why.number,
        place: why.place,
    }
}

// The prelude is resolved into `area`, and the member inside its root into `out`.
fn resolve_member(prelude: &[u8], member: &[u8], out: &mut [u8], area: &mut [u8]) -> Refusal
    ensures { (numbers result.number result.place ≡ (ruled (member_answer base prelude.now (length area.old) member.now (length out.old))).plain) × (out.new ≡ member_output base prelude.now (length area.old) member.now out.old) }
{
    let of = said(resolve(prelude, area));
    if of.number != 0 {
        return of_prelude(of);
    }
    said(resolve_inside(rows_of(area, 0, of.place), member, out))
}

// The room of a working area: none where it is below its size.
fn room_in(area: usize) -> usize
    ensures { (result ≡ room_with (ltb area 65480) 65480) × (result ≤ area) × (result ≤ 65480) }
{
    if area < AREA { 0 } else { AREA }
}

// Resolves a member as if its root lay inside the resolved prelude's root: number and place of the refusal, or 0 and the number of
// rows. Of `work` the first AREA bytes are zero afterwards.
pub fn member(prelude: &[u8], member: &[u8], out: &mut [u8], work: &mut [u8]) -> Refusal
    ensures place_value { numbers result.number result.place ≡ (ruled (member_answer base prelude.now (room_with (ltb (length work.old) 65480) 65480) member.now (length out.old))).plain }
    ensures out_after { out.new ≡ member_output base prelude.now (room_with (ltb (length work.old) 65480) 65480) member.now out.old }
    ensures work_after { work.new ≡ cleared 0 65480 work.old }
{
    let room = room_in(work.len());
    let answer = resolve_member(prelude, member, out, &mut work[..room]);
    clear_bytes(work, AREA);
    answer
}
