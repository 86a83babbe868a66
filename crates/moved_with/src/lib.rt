// The written numbers that inserted aliases have moved, in a form of any version that is in force: in working areas that are lent.
#![tactic(auto)]

ghost use Rattle.std.specs.Prelude.{◌≡◌, ◌*◌, ◌≤◌, ◌||◌, ltb, length};
ghost use Rattle.kit.specs.Out.{◌&◌};
ghost use Rattle.limits.specs.Held.{setting};
ghost use Rattle.moving.specs.MovedAnswer.{rooms_of};
ghost use Rattle.reading_laws.specs.OnBytes.{body};
ghost use Rattle.resolver_with.specs.Asked.{asked};
ghost use Rattle.resolver_with.specs.Areas.{lent_of, Cleared};
ghost use Rattle.moved.specs.Meaning.{meaning, ruled, held};
ghost use Rattle.moved.specs.Run.{fronts_t};
ghost use Rattle.moved_with.specs.With.{moved_with, buffers_with};

use fixed::HEADER;
use lent_areas::clear_areas;
use moved::run::{fill_fronts, refusal_in, rows_asked};
use moved_list::Listed;
use names::{Slot, least};
use refusal::{ROOM, Refusal};
use resolver::run::header_size;
use resolver_with::run::{asked_for, resolve_with};

// Whether lists of these lengths are too short for a form of this many rows.
fn are_short(moved: usize, apart: usize, rows: usize) -> bool
    requires { rows ≤ 16383 }
    ensures { result ≡ ltb moved (16 * rows) || ltb apart (12 * rows) }
{
    (moved < 16 * rows) | (apart < 12 * rows)
}

// Lists the numbers of a form of the setting at place i. The readings take rows behind eight bytes: what a header has more is
// left out.
fn list_behind(
    form: &[u8],
    out: &[u8],
    moved: &mut [u8],
    apart: &mut [u8],
    rows: usize,
    i: usize,
) -> Listed
    requires { (rows ≤ 16383) × (16 * rows ≤ length moved.old) × (12 * rows ≤ length apart.old) }
    ensures { (result & moved.new & apart.new) ≡ fronts_t (body (setting i) form.now) (body (setting i) out.now) moved.old apart.old rows }
{
    let more = header_size(i) - HEADER;
    let a = least(more, form.len());
    let b = least(more, out.len());
    fill_fronts(&form[a..], &out[b..], moved, apart, rows)
}

// Resolves a form of any setting in force into `out`, and lists the written numbers that mean another declaration there (`moved`)
// and those that meant none (`apart`). A refusal leaves both lists as they were; the areas are those of `resolve_with`.
pub fn moved_with(
    form: &[u8],
    out: &mut [u8],
    moved: &mut [u8],
    apart: &mut [u8],
    entered: &mut [Slot],
    names: &mut [Slot],
    known: &mut [u16],
    chains: &mut [u16],
    ends: &mut [u32],
) -> Result<Listed, Refusal>
    ensures result_value { meaning result ≡ ruled (moved_with form.now (rooms_of (held out.old moved.old apart.old)) (lent_of entered.old names.old known.old chains.old ends.old)) }
    ensures apart_after { held out.new moved.new apart.new ≡ buffers_with form.now (held out.old moved.old apart.old) (lent_of entered.old names.old known.old chains.old ends.old) }
    ensures cleared { Cleared (asked form.now).version entered.old entered.new names.old names.new known.old known.new chains.old chains.new ends.old ends.new }
{
    let i = asked_for(form);
    let rows = rows_asked(form, i);
    if are_short(moved.len(), apart.len(), rows) {
        clear_areas(i, entered, names, known, chains, ends);
        return Err(Refusal {
            number: ROOM,
            place: 0,
        });
    }
    let refusal = refusal_in(resolve_with(form, out, entered, names, known, chains, ends));
    if refusal.number != 0 {
        return Err(refusal);
    }
    Ok(list_behind(form, out, moved, apart, rows, i))
}
