// Resolves a form of version 1 with fewer aliases: in each scope references that reach the same outer declaration share one.
//
// The resolver's own run gives every refusal. Where it accepts, the steps are run once more, on rows in which each later reference to
// an outer declaration names the alias that the first one will get. What comes of that is held against the conditions on another
// assembler's output before it is answered. That they never refuse it is proved.
#![tactic(auto)]

ghost use Rattle.std.specs.Prelude.{◌≡◌, ◌+◌, ◌*◌, ◌≤◌, length, take};
ghost use Rattle.kit.specs.Out.{◌&◌};
ghost use Rattle.rules.specs.Versions.{base};
ghost use Rattle.clearing.specs.Cleared.{cleared};
ghost use Rattle.checking.specs.CheckAnswer.{check_answer, table_after, index_after};
ghost use Rattle.sharing.specs.Sharing.{shared, shared_output};
ghost use Rattle.limits.specs.Held.{setting};
ghost use Rattle.names.specs.Table.{empty_slot};
ghost use Rattle.resolver.specs.Meaning.{meaning, ruled};
ghost use Rattle.claim_check.specs.Meaning.{meaning as checked};
ghost use Rattle.share.specs.Lent.{too_small, shared_with, output_with};
ghost use Rattle.share.specs.Run.{mark_t, walked_t, propose_t, Roomy, is_yes, said_yes, Large, Resolved, Ran};

use areas::{clear_links, clear_slots};
use claim_check::Verdict;
use claim_check::run::check;
use fixed::HEADER;
use form::ends::mark_ends;
use mark::mark_rows;
use names::Slot;
use refusal::{Refusal, Refused};
use resolver::run::{fill, header_size, resolve};

// ---- the proposal

// Marks the rows of a form.
fn mark_form(rows: &[u8], marked: &mut [u8])
    ensures { marked.new ≡ mark_t rows.now marked.old }
{
    let mut ends = [0u32; 1024];
    mark_ends(rows, &mut ends);
    let mut table: [Slot; 1024] = [[0u32; 6]; 1024];
    let mut index = [0u16; 2048];
    mark_rows(rows, &ends, marked, &mut table, &mut index);
}

// Runs the steps on the marked rows of a form, into its share of the output.
fn walk_marked(rows: &[u8], marked: &mut [u8], front: &mut [u8]) -> Result<u32, Refused>
    requires { length rows.now ≤ length marked.old }
    ensures { (result & front.new) ≡ walked_t rows.now marked.old front.old }
{
    let size = rows.len();
    mark_form(rows, &mut marked[..size]);
    fill(&marked[..size], front)
}

// Writes the proposal over what the resolver left.
fn propose(form: &[u8], out: &mut [u8]) -> Result<u32, Refused>
    requires { Roomy (setting 0) form.now out.old }
    ensures { (result & out.new) ≡ propose_t form.now out.old }
{
    let mut marked = [0u8; 16368];
    let rows = (form.len() - HEADER) / 16;
    let size = HEADER + 64 * rows;
    walk_marked(&form[HEADER..], &mut marked, &mut out[..size])
}

// ---- the check

// The form of this many rows at the front of the output, under the setting at place i.
pub fn front_of(out: &[u8], i: usize, rows: u32) -> &[u8]
    ensures { result.now ≡ take ((setting i).version.header + 16 * rows) out.now }
{
    let size = header_size(i) + 16 * (rows as usize);
    if out.len() < size {
        return out;
    }
    &out[..size]
}

// Whether a verdict accepts.
pub fn is_yes(verdict: Result<Verdict, Refusal>) -> bool
    ensures { result ≡ said_yes (checked verdict) }
{
    match verdict {
        Ok(Verdict::Yes) => true,
        Ok(
            Verdict::No {
                condition: _,
                row: _,
            },
        ) => false,
        Err(_) => false,
    }
}

// Whether a claim is an output of the form. The areas are handed back empty.
fn is_output(form: &[u8], claim: &[u8], table: &mut [Slot], index: &mut [u16]) -> bool
    ensures { (result ≡ is_yes (check_answer base form.now claim.now (length table.old) (length index.old))) × (table.new ≡ table_after base form.now table.old) × (index.new ≡ index_after base form.now index.old) }
{
    is_yes(check(form, claim, table, index))
}

// ---- the areas

// The slots and the numbers that the check works in.
const SLOTS: usize = 2046;

const LINKS: usize = 3070;

// Whether an area is below its size.
fn is_small(slots: usize, links: usize) -> bool
    ensures { result ≡ too_small slots links }
{
    if slots < SLOTS { true } else { links < LINKS }
}

// The areas are handed back empty.
fn clear(table: &mut [Slot], index: &mut [u16])
    ensures { (table.new ≡ cleared empty_slot 2046 table.old) × (index.new ≡ cleared 0 3070 index.old) }
{
    clear_slots(table, SLOTS);
    clear_links(index, LINKS);
}

// ---- the run

// The number of a refusal, and 0 of none.
pub fn number_of(answer: Result<u32, Refused>) -> u32
    ensures { result ≡ (meaning answer).plain.number }
{
    match answer {
        Ok(_) => 0,
        Err(Refused { refusal, .. }) => refusal.number,
    }
}

// How many rows were written; a refusal's place.
pub fn rows_of(answer: Result<u32, Refused>) -> u32
    ensures { result ≡ (meaning answer).plain.place }
{
    match answer {
        Ok(rows) => rows,
        Err(Refused { refusal, .. }) => refusal.place,
    }
}

// The proposal, once it is seen to be an output of the form.
fn settle(
    form: &[u8],
    out: &mut [u8],
    table: &mut [Slot],
    index: &mut [u16],
) -> Result<u32, Refused>
    requires { Resolved base form.now out.old × Large (length table.old) (length index.old) }
    ensures { ((result & out.new) ≡ propose_t form.now out.old) × (table.new ≡ table_after base form.now table.old) × (index.new ≡ index_after base form.now index.old) }
{
    let proposed = propose(form, out);
    if is_output(form, front_of(out, 0, rows_of(proposed)), table, index) {
        return proposed;
    }
    resolve(form, out)
}

// What the resolver answers: the number of its refusal, 0 of none.
#[derive(Clone, Copy)]
pub struct Own {
    pub number: u32,
    pub answer: Result<u32, Refused>,
}

// The resolver's own run.
fn resolve_own(form: &[u8], out: &mut [u8]) -> Own
    ensures { Ran base form.now out.old out.new result }
{
    let answer = resolve(form, out);
    let number = number_of(answer);
    Own { number, answer }
}

// Resolves the form, and where that is accepted writes the proposal over it.
fn share_in(
    form: &[u8],
    out: &mut [u8],
    table: &mut [Slot],
    index: &mut [u16],
) -> Result<u32, Refused>
    requires { Large (length table.old) (length index.old) }
    ensures result_value { (meaning result ≡ ruled (shared base form.now (length out.old))) × (out.new ≡ shared_output base form.now out.old) }
    ensures table_after { (table.new ≡ table_after base form.now table.old) × (index.new ≡ index_after base form.now index.old) }
{
    let own = resolve_own(form, out);
    let answer = own.answer;
    if own.number != 0 {
        clear(table, index);
        return answer;
    }
    settle(form, out, table, index)
}

// Resolves a form of version 1 so that references share aliases, in the form that `out` holds then. The table and its index are the
// working areas of the check, and empty afterwards.
pub fn share(
    form: &[u8],
    out: &mut [u8],
    table: &mut [Slot],
    index: &mut [u16],
) -> Result<u32, Refused>
    ensures result_value { (meaning result ≡ ruled (shared_with form.now (length out.old) (length table.old) (length index.old))) × (out.new ≡ output_with form.now out.old (length table.old) (length index.old)) }
    ensures table_after { (table.new ≡ table_after base form.now table.old) × (index.new ≡ index_after base form.now index.old) }
{
    if is_small(table.len(), index.len()) {
        clear(table, index);
        return resolve(form, &mut out[..0]);
    }
    share_in(form, out, table, index)
}
