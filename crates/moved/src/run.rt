// The whole run: the form is resolved, and its numbers are listed.
ghost use Rattle.std.specs.Prelude.{◌≡◌, ◌*◌, ◌≤◌, length};
ghost use Rattle.kit.specs.Out.{◌&◌};
ghost use Rattle.rules.specs.Versions.{base};
ghost use Rattle.moving.specs.MovedAnswer.{moved_answer, rooms_of, buffers};
ghost use Rattle.resolver.specs.Meaning.{numbers};
ghost use Rattle.resolver.specs.Meaning as resolved;
ghost use Rattle.moved.specs.Meaning.{meaning, ruled, held};
ghost use Rattle.moved.specs.Run.{rows_asked, listed_t, fronts_t};

use form::header::{BadHeader, header_to};
use limits::of_input;
use moved_list::{Listed, list_numbers};
use refusal::{ROOM, Refusal, Refused};
use resolver::run::resolve;
use stores::zero_from;

// The bytes of an entry of each list.
const MOVED: usize = 16;

const APART: usize = 12;

// How many rows a form has whose header and length are right under the setting at place i, 0 for any other.
pub fn rows_asked(form: &[u8], i: usize) -> usize
    ensures { (result ≡ rows_asked i form.now) × (result ≤ 16383) }
{
    match header_to(form, of_input(i)) {
        Ok(rows) => rows,
        Err(BadHeader::Wrong) => 0,
        Err(BadHeader::Count) => 0,
    }
}

// What the resolver answers, as a refusal: its number is 0 if there is none.
pub fn refusal_in(answer: Result<u32, Refused>) -> Refusal
    ensures { numbers result.number result.place ≡ (resolved.meaning answer).plain }
{
    match answer {
        Ok(rows) => Refusal {
            number: 0,
            place: rows,
        },
        Err(Refused { refusal, .. }) => Refusal {
            number: refusal.number,
            place: refusal.place,
        },
    }
}

// Fills both lists: the entries, and zeros behind them.
fn fill(form: &[u8], out: &[u8], moved: &mut [u8], apart: &mut [u8]) -> Listed
    ensures { (result & moved.new & apart.new) ≡ listed_t form.now out.now moved.old apart.old }
{
    zero_from(moved, 0);
    zero_from(apart, 0);
    list_numbers(form, out, moved, apart)
}

// Fills the lists' share for a form of this many rows; what lies beyond stays as it was.
pub fn fill_fronts(
    form: &[u8],
    out: &[u8],
    moved: &mut [u8],
    apart: &mut [u8],
    rows: usize,
) -> Listed
    requires { (rows ≤ 16383) × (16 * rows ≤ length moved.old) × (12 * rows ≤ length apart.old) }
    ensures { (result & moved.new & apart.new) ≡ fronts_t form.now out.now moved.old apart.old rows }
{
    let first = MOVED * rows;
    let second = APART * rows;
    fill(form, out, &mut moved[..first], &mut apart[..second])
}

// Resolves the form into `out`, and lists the written numbers that mean another declaration there (`moved`) and those that meant none
// (`apart`). A refusal leaves both lists as they were.
pub fn moved(
    form: &[u8],
    out: &mut [u8],
    moved: &mut [u8],
    apart: &mut [u8],
) -> Result<Listed, Refusal>
    ensures result_value { meaning result ≡ ruled (moved_answer base form.now (rooms_of (held out.old moved.old apart.old))) }
    ensures apart_after { held out.new moved.new apart.new ≡ buffers base form.now (held out.old moved.old apart.old) }
{
    let rows = rows_asked(form, 0);
    if moved.len() < MOVED * rows {
        return Err(Refusal {
            number: ROOM,
            place: 0,
        });
    }
    if apart.len() < APART * rows {
        return Err(Refusal {
            number: ROOM,
            place: 0,
        });
    }
    let refusal = refusal_in(resolve(form, out));
    if refusal.number != 0 {
        return Err(refusal);
    }
    Ok(fill_fronts(form, out, moved, apart, rows))
}
