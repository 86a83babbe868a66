// Checks another assembler's output of any version that is in force: in working areas that are lent.
#![tactic(auto)]

ghost use Rattle.std.specs.Prelude.{◌≡◌, ◌||◌, not, [], ◌∷◌, ◌≤◌, ltb, length};
ghost use Rattle.rules.specs.Versions.{as_claimed, all};
ghost use Rattle.read_form.specs.ReadForm.{read_form};
ghost use Rattle.clearing.specs.Cleared.{cleared};
ghost use Rattle.checking.specs.CheckAnswer.{slots_of, links_of, table_after, index_after};
ghost use Rattle.limits.specs.Held.{setting};
ghost use Rattle.names.specs.Table.{empty_slot};
ghost use Rattle.whole_form.specs.Whole.{form_of};
ghost use Rattle.resolver.specs.Run.{walk_in};
ghost use Rattle.resolver.specs.Steps.{steps_in};
ghost use Rattle.resolver_with.specs.Asked.{asked};
ghost use Rattle.resolver_with.specs.Areas.{slots_for, links_for, lent_of, Cleared};
ghost use Rattle.resolver_with.specs.Exact.{Suits};
ghost use Rattle.claim_check.specs.Meaning.{meaning, ruled};
ghost use Rattle.claim_check.specs.Run.{Kept, version_of, body_of, claim_by, input_of};
ghost use Rattle.check_with.specs.With.{check_with};
ghost use Rattle.check_with.specs.Large.{Large};

use claim_check::Verdict;
use claim_check::run::{clear, judge_claim, links, refuse_small, slots};
use lent_areas::{are_roomy, clear_areas};
use names::Slot;
use refusal::Refusal;
use resolver::run::header_size;
use resolver_with::run::{asked_for, walk_in};
use resolver_with::sizes::{links_for, slots_for};
use whole_form::read::read_input;

// What the steps answer to the rows of a form. There is no room for a row that they write, which changes no answer.
fn try_steps(
    form: &[u8],
    i: usize,
    entered: &mut [Slot],
    names: &mut [Slot],
    known: &mut [u16],
    chains: &mut [u16],
    ends: &mut [u32],
) -> Result<(), Refusal>
    requires { Suits i entered.old names.old known.old chains.old ends.old × ((version_of i).header ≤ length form.now) }
    ensures { result ≡ steps_in (walk_in (setting i) (body_of i form.now) ends.old entered.old names.old (0 ∷ [])) }
{
    let a = header_size(i);
    let mut nowhere = [0u8; 1];
    match walk_in(
        &form[a..],
        &mut nowhere,
        i,
        entered,
        names,
        known,
        chains,
        ends,
    ) {
        Ok(_) => Ok(()),
        Err(refused) => Err(refused.refusal),
    }
}

// What is refused of an input: by its reading, or else by the steps.
fn try_input(
    form: &[u8],
    i: usize,
    entered: &mut [Slot],
    names: &mut [Slot],
    known: &mut [u16],
    chains: &mut [u16],
    ends: &mut [u32],
) -> Result<(), Refusal>
    requires { Suits i entered.old names.old known.old chains.old ends.old }
    ensures { result ≡ input_of (setting i).rules (read_form (setting i) form.now) }
{
    read_input(form, i)?;
    try_steps(form, i, entered, names, known, chains, ends)
}

// Only the fronts of the areas are lent on, so what lies beyond them stays as it was.
fn try_fronts(
    form: &[u8],
    i: usize,
    entered: &mut [Slot],
    names: &mut [Slot],
    known: &mut [u16],
    chains: &mut [u16],
    ends: &mut [u32],
) -> Result<(), Refusal>
    requires { Large i entered.old names.old known.old chains.old ends.old }
    ensures value { result ≡ input_of (setting i).rules (read_form (setting i) form.now) }
    ensures kept { Kept (slots_for (version_of i)) entered.old entered.new × Kept (slots_for (version_of i)) names.old names.new × Kept (links_for (version_of i)) known.old known.new × Kept (links_for (version_of i)) chains.old chains.new × Kept (slots_for (version_of i)) ends.old ends.new }
{
    let most = slots_for(i);
    let all = links_for(i);
    try_input(
        form,
        i,
        &mut entered[..most],
        &mut names[..most],
        &mut known[..all],
        &mut chains[..all],
        &mut ends[..most],
    )
}

// The same, and the areas are handed back empty.
fn try_lent(
    form: &[u8],
    i: usize,
    entered: &mut [Slot],
    names: &mut [Slot],
    known: &mut [u16],
    chains: &mut [u16],
    ends: &mut [u32],
) -> Result<(), Refusal>
    requires { Large i entered.old names.old known.old chains.old ends.old }
    ensures value { result ≡ input_of (setting i).rules (read_form (setting i) form.now) }
    ensures cleared { Cleared (version_of i) entered.old entered.new names.old names.new known.old known.new chains.old chains.new ends.old ends.new }
{
    let tried = try_fronts(form, i, entered, names, known, chains, ends);
    clear_areas(i, entered, names, known, chains, ends);
    tried
}

// The conditions on a claim, where the input is accepted; the table and its index are handed back empty.
fn judge_lent(
    form: &[u8],
    claim: &[u8],
    i: usize,
    table: &mut [Slot],
    index: &mut [u16],
) -> Result<Verdict, Refusal>
    requires { (slots_of (version_of i) ≤ length table.old) × (links_of (version_of i) ≤ length index.old) × ((version_of i).header ≤ length form.now) }
    ensures value { result ≡ claim_by i form.now claim.now (slots_of (version_of i)) (form_of (read_form (as_claimed (setting i)) claim.now)) }
    ensures table_after { (table.new ≡ cleared empty_slot (slots_of (version_of i)) table.old) × (index.new ≡ cleared 0 (links_of (version_of i)) index.old) }
{
    let most = slots(i);
    let all = links(i);
    let judged = judge_claim(form, claim, i, &mut table[..most], &mut index[..all]);
    clear(table, index, i);
    judged
}

// Whether an area is too small for a form of the setting at place i; `lent` says it of the areas of the steps.
fn is_small(lent: bool, table: usize, index: usize, i: usize) -> bool
    ensures { result ≡ (not lent || (ltb table (slots_of (version_of i)) || ltb index (links_of (version_of i)))) }
{
    !lent | ((table < slots(i)) | (index < links(i)))
}

// Says whether a claim is an output of the form, of any setting in force: yes, or no with the condition that is broken and the
// first claimed row that breaks it, or the form's own refusal. After every return all areas are zero up to their sizes.
pub fn check_with(
    form: &[u8],
    claim: &[u8],
    table: &mut [Slot],
    index: &mut [u16],
    entered: &mut [Slot],
    names: &mut [Slot],
    known: &mut [u16],
    chains: &mut [u16],
    ends: &mut [u32],
) -> Result<Verdict, Refusal>
    ensures result_value { meaning result ≡ ruled (check_with form.now claim.now (length table.old) (length index.old) (lent_of entered.old names.old known.old chains.old ends.old)) }
    ensures table_after { (table.new ≡ table_after all form.now table.old) × (index.new ≡ index_after all form.now index.old) }
    ensures cleared { Cleared (asked form.now).version entered.old entered.new names.old names.new known.old known.new chains.old chains.new ends.old ends.new }
{
    let i = asked_for(form);
    let lent = are_roomy(
        i,
        entered.len(),
        names.len(),
        known.len(),
        chains.len(),
        ends.len(),
    );
    if is_small(lent, table.len(), index.len(), i) {
        clear(table, index, i);
        clear_areas(i, entered, names, known, chains, ends);
        return refuse_small(form, i);
    }
    match try_lent(form, i, entered, names, known, chains, ends) {
        Ok(()) => judge_lent(form, claim, i, table, index),
        Err(why) => {
            clear(table, index, i);
            Err(why)
        }
    }
}
