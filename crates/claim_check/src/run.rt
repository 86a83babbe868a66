// The whole check: the refusals of the input, then the conditions. A setting goes by its place in the list of all.
ghost use Rattle.std.specs.Prelude.{◌≡◌, ◌≤◌, length};
ghost use Rattle.rules.specs.Versions.{base};
ghost use Rattle.names.specs.Table.{empty_slot};
ghost use Rattle.clearing.specs.Cleared.{cleared};
ghost use Rattle.checking.specs.CheckAnswer.{slots_of, links_of, check_answer, table_after, index_after};
ghost use Rattle.claim_check.specs.Meaning.{meaning, ruled};
ghost use Rattle.claim_check.specs.Run.{Fit, Kept, version_of, body_of, refused_t, conditions_t, claim_by, steps_by, judge_t, small_t, decide_t};
ghost use Rattle.whole_form.specs.Whole.{form_of};
ghost use Rattle.read_form.specs.ReadForm.{read_form};
ghost use Rattle.rules.specs.Versions.{as_claimed};
ghost use Rattle.limits.specs.Held.{setting};
ghost use Rattle.resolver.specs.Steps.{steps_t};

use crate::Verdict;
use crate::conditions::try_conditions;
use areas::{clear_links, clear_slots};
use form::header::header_to;
use limits::of_input;
use names::Slot;
use refusal::{ROOM, Refusal};
use resolver::steps::try_steps;
use whole_form::read::{read_claim, read_input};

// The setting in force.
const FIRST: usize = 0;

// ---- sizes

// How many bytes a header has.
fn header(i: usize) -> usize
    ensures { result ≡ (version_of i).header }
{
    of_input(i).header as usize
}

// The most rows of an input.
fn most_rows(i: usize) -> usize
    ensures { (result ≡ (version_of i).rows) × (result ≤ 16383) }
{
    of_input(i).rows
}

// How many slots the table has to have.
pub fn slots(i: usize) -> usize
    ensures { (result ≡ slots_of (version_of i)) × (result ≤ 32766) }
{
    2 * most_rows(i)
}

// How many numbers the index has to have.
pub fn links(i: usize) -> usize
    ensures { result ≡ links_of (version_of i) }
{
    1024 + slots(i)
}

// ---- in areas of these sizes

// The conditions on the rows of both forms.
fn judge_rows(
    form: &[u8],
    claim: &[u8],
    i: usize,
    table: &mut [Slot],
    index: &mut [u16],
) -> Result<Verdict, Refusal>
    requires { Fit (length table.old) (length index.old) × ((version_of i).header ≤ length form.now) × ((version_of i).header ≤ length claim.now) }
    ensures { result ≡ conditions_t (body_of i form.now) (body_of i claim.now) (length table.old) }
{
    let a = header(i);
    try_conditions(&form[a..], &claim[a..], table, index)
}

// The conditions on a claim, where the input is accepted.
pub fn judge_claim(
    form: &[u8],
    claim: &[u8],
    i: usize,
    table: &mut [Slot],
    index: &mut [u16],
) -> Result<Verdict, Refusal>
    requires { Fit (length table.old) (length index.old) × ((version_of i).header ≤ length form.now) }
    ensures { result ≡ claim_by i form.now claim.now (length table.old) (form_of (read_form (as_claimed (setting i)) claim.now)) }
{
    match read_claim(claim, i) {
        Err(why) => Ok(Verdict::No {
            condition: 1,
            row: why.place,
        }),
        Ok(_) => judge_rows(form, claim, i, table, index),
    }
}

// The steps on an input that is a form, then the claim.
fn judge_steps(
    form: &[u8],
    claim: &[u8],
    i: usize,
    table: &mut [Slot],
    index: &mut [u16],
) -> Result<Verdict, Refusal>
    requires { Fit (length table.old) (length index.old) × ((version_of i).header ≤ length form.now) }
    ensures { result ≡ steps_by i form.now claim.now (length table.old) (steps_t (body_of i form.now)) }
{
    let a = header(i);
    try_steps(&form[a..])?;
    judge_claim(form, claim, i, table, index)
}

// The input, then the claim.
fn judge(
    form: &[u8],
    claim: &[u8],
    i: usize,
    table: &mut [Slot],
    index: &mut [u16],
) -> Result<Verdict, Refusal>
    requires { Fit (length table.old) (length index.old) }
    ensures { result ≡ judge_t i form.now claim.now (length table.old) }
{
    read_input(form, i)?;
    judge_steps(form, claim, i, table, index)
}

// ---- in areas of any size

// A refusal whose number document 01 gives, at place 0.
fn refused(number: u32) -> Result<Verdict, Refusal>
    ensures { result ≡ refused_t number 0 }
{
    Err(Refusal { number, place: 0 })
}

// An area is too small: that comes after a wrong header and a wrong row count of the input.
pub fn refuse_small(form: &[u8], i: usize) -> Result<Verdict, Refusal>
    ensures { result ≡ small_t i form.now }
{
    header_to(form, of_input(i))?;
    refused(ROOM)
}

// Only the fronts of the areas are lent on, so what lies beyond them stays as it was.
fn decide(
    form: &[u8],
    claim: &[u8],
    i: usize,
    table: &mut [Slot],
    index: &mut [u16],
) -> Result<Verdict, Refusal>
    ensures { (result ≡ decide_t i form.now claim.now (length table.old) (length index.old)) × Kept (slots_of (version_of i)) table.old table.new × Kept (links_of (version_of i)) index.old index.new }
{
    let most = slots(i);
    if table.len() < most {
        return refuse_small(form, i);
    }
    let all = links(i);
    if index.len() < all {
        return refuse_small(form, i);
    }
    judge(form, claim, i, &mut table[..most], &mut index[..all])
}

// The areas are handed back empty.
pub fn clear(table: &mut [Slot], index: &mut [u16], i: usize)
    ensures { (table.new ≡ cleared empty_slot (slots_of (version_of i)) table.old) × (index.new ≡ cleared 0 (links_of (version_of i)) index.old) }
{
    clear_slots(table, slots(i));
    clear_links(index, links(i));
}

// Says whether a claim is an output of the form: yes, or no with the condition that is broken and the first claimed row that
// breaks it, or the form's own refusal. The table and its index are working areas.
pub fn check(
    form: &[u8],
    claim: &[u8],
    table: &mut [Slot],
    index: &mut [u16],
) -> Result<Verdict, Refusal>
    ensures { (meaning result ≡ ruled (check_answer base form.now claim.now (length table.old) (length index.old))) × (table.new ≡ table_after base form.now table.old) × (index.new ≡ index_after base form.now index.old) }
{
    let verdict = decide(form, claim, FIRST, table, index);
    clear(table, index, FIRST);
    verdict
}
