// Resolves a form of any setting that is in force with fewer aliases, in working areas that are lent.
//
// As for version 1: the resolver's own run gives every refusal, the steps are run once more on the marked rows, and what comes of
// that is held against the conditions on another assembler's output before it is answered. The marked rows are lent too.
#![tactic(auto)]

ghost use Rattle.std.specs.Prelude.{◌≡◌, true, ◌||◌, not, ◌≤◌, ltb, length};
ghost use Rattle.kit.specs.Out.{◌&◌};
ghost use Rattle.clearing.specs.Cleared.{cleared};
ghost use Rattle.checking.specs.CheckAnswer.{slots_of, links_of, table_after, index_after};
ghost use Rattle.sharing.specs.Sharing.{shared, shared_output};
ghost use Rattle.limits.specs.Held.{setting};
ghost use Rattle.form.specs.MarkEnds.{ends_to};
ghost use Rattle.names.specs.Table.{empty_slot};
ghost use Rattle.mark.specs.MarkedRows.{mark_rows_t};
ghost use Rattle.resolver.specs.Meaning.{meaning, ruled};
ghost use Rattle.rules.specs.Versions.{all};
ghost use Rattle.resolver_with.specs.Asked.{asked};
ghost use Rattle.resolver_with.specs.Areas.{slots_for, links_for, lent_of, roomy, Cleared};
ghost use Rattle.resolver_with.specs.Exact.{Suits};
ghost use Rattle.claim_check.specs.Run.{Kept};
ghost use Rattle.check_with.specs.With.{check_with};
ghost use Rattle.check_with.specs.Large.{Large};
ghost use Rattle.share_laws.specs.Relaxed.{relaxed};
ghost use Rattle.share.specs.Run.{Roomy, is_yes, Resolved, Ran};
ghost use Rattle.share_with.specs.With.{bytes_for, shared_with, output_with};
ghost use Rattle.share_with.specs.Run.{walked_in, propose_with, Linked, Fit};

use areas::{clear_bytes, zero_links};
use check_with::check_with;
use claim_check::run::{clear, links, slots};
use form::ends::mark_ends_to;
use lent_areas::are_roomy;
use limits::of_input;
use mark::mark_rows;
use names::Slot;
use refusal::Refused;
use resolver::run::header_size;
use resolver_with::run::{asked_for, fill_in, resolve_with};
use resolver_with::sizes::{links_for, slots_for};
use share::{Own, front_of, is_yes, number_of, rows_of};

// ---- the proposal

// Marks the rows of a form of the setting at place i. The table may hold anything: its index starts empty.
fn mark_in(
    rows: &[u8],
    marked: &mut [u8],
    i: usize,
    table: &mut [Slot],
    index: &mut [u16],
    ends: &mut [u32],
)
    requires { Linked (length table.old) (length index.old) }
    ensures { (ends.new ≡ ends_to (setting i).version.scopes rows.now ends.old) × ((table.new & marked.new) ≡ mark_rows_t rows.now ends.new table.old marked.old) }
{
    mark_ends_to(rows, ends, of_input(i));
    zero_links(index);
    mark_rows(rows, ends, marked, table, index);
}

// The places of version 2 with rule set 1, under which a name means what stands earlier, and with rule set 0.
const NEWER: usize = 2;

const TODAY: usize = 1;

// The place of the same version with rule set 0.
fn relaxed_at(i: usize) -> usize
    ensures { setting result ≡ relaxed (setting i) }
{
    if i == NEWER { TODAY } else { i }
}

// Runs the steps on the marked rows of a form, into its share of the output. They do not ask for earlier declarations: fresh names
// stand in the rows, and the form was accepted.
fn walk_marked(
    rows: &[u8],
    marked: &mut [u8],
    front: &mut [u8],
    i: usize,
    entered: &mut [Slot],
    names: &mut [Slot],
    known: &mut [u16],
    chains: &mut [u16],
    ends: &mut [u32],
) -> Result<u32, Refused>
    requires { Suits i entered.old names.old known.old chains.old ends.old × (length rows.now ≤ length marked.old) }
    ensures { (result & front.new) ≡ walked_in (setting i) rows.now marked.old ends.old entered.old names.old front.old }
{
    let size = rows.len();
    let walked = relaxed_at(i);
    mark_in(rows, &mut marked[..size], i, entered, known, ends);
    fill_in(
        &marked[..size],
        front,
        i,
        walked,
        entered,
        names,
        known,
        chains,
        ends,
    )
}

// The bytes of the marked rows of a form of the setting at place i.
fn bytes_for(i: usize) -> usize
    ensures { (result ≡ bytes_for (setting i).version) × (result ≤ 262128) }
{
    let limits = of_input(i);
    16 * limits.rows
}

// Writes the proposal over what the resolver left. Only the fronts of the areas are lent on.
fn propose(
    form: &[u8],
    out: &mut [u8],
    i: usize,
    marked: &mut [u8],
    entered: &mut [Slot],
    names: &mut [Slot],
    known: &mut [u16],
    chains: &mut [u16],
    ends: &mut [u32],
) -> Result<u32, Refused>
    requires { Roomy (setting i) form.now out.old × Large i entered.old names.old known.old chains.old ends.old × (bytes_for (setting i).version ≤ length marked.old) }
    ensures out_after { (result & out.new) ≡ propose_with (setting i) form.now out.old marked.old ends.old entered.old names.old }
    ensures kept { Kept (bytes_for (setting i).version) marked.old marked.new × Kept (slots_for (setting i).version) entered.old entered.new × Kept (slots_for (setting i).version) names.old names.new × Kept (links_for (setting i).version) known.old known.new × Kept (links_for (setting i).version) chains.old chains.new × Kept (slots_for (setting i).version) ends.old ends.new }
{
    let header = header_size(i);
    let size = header + 64 * ((form.len() - header) / 16);
    let bytes = bytes_for(i);
    let most = slots_for(i);
    let all = links_for(i);
    walk_marked(
        &form[header..],
        &mut marked[..bytes],
        &mut out[..size],
        i,
        &mut entered[..most],
        &mut names[..most],
        &mut known[..all],
        &mut chains[..all],
        &mut ends[..most],
    )
}

// ---- the check

// Whether a claim is an output of the form. The areas are handed back empty.
fn is_output(
    form: &[u8],
    claim: &[u8],
    table: &mut [Slot],
    index: &mut [u16],
    entered: &mut [Slot],
    names: &mut [Slot],
    known: &mut [u16],
    chains: &mut [u16],
    ends: &mut [u32],
) -> bool
    ensures value { result ≡ is_yes (check_with form.now claim.now (length table.old) (length index.old) (lent_of entered.old names.old known.old chains.old ends.old)) }
    ensures table_after { (table.new ≡ table_after all form.now table.old) × (index.new ≡ index_after all form.now index.old) }
    ensures cleared { Cleared (asked form.now).version entered.old entered.new names.old names.new known.old known.new chains.old chains.new ends.old ends.new }
{
    is_yes(check_with(
        form, claim, table, index, entered, names, known, chains, ends,
    ))
}

// ---- the areas

// Whether an area is too small for a form of the setting at place i; `lent` says it of the areas of the steps.
fn is_small(lent: bool, bytes: usize, table: usize, index: usize, i: usize) -> bool
    ensures { result ≡ (not lent || (ltb bytes (bytes_for (setting i).version) || (ltb table (slots_of (setting i).version) || ltb index (links_of (setting i).version)))) }
{
    !lent | ((bytes < bytes_for(i)) | ((table < slots(i)) | (index < links(i))))
}

// The marked rows are handed back empty.
fn clear_marked(marked: &mut [u8], i: usize)
    ensures { marked.new ≡ cleared 0 (bytes_for (setting i).version) marked.old }
{
    clear_bytes(marked, bytes_for(i));
}

// The same of the areas of the check.
fn clear_check(marked: &mut [u8], table: &mut [Slot], index: &mut [u16], i: usize)
    ensures { (marked.new ≡ cleared 0 (bytes_for (setting i).version) marked.old) × (table.new ≡ cleared empty_slot (slots_of (setting i).version) table.old) × (index.new ≡ cleared 0 (links_of (setting i).version) index.old) }
{
    clear_marked(marked, i);
    clear(table, index, i);
}

// ---- the run

// The proposal, once it is seen to be an output of the form.
fn settle(
    form: &[u8],
    out: &mut [u8],
    i: usize,
    marked: &mut [u8],
    table: &mut [Slot],
    index: &mut [u16],
    entered: &mut [Slot],
    names: &mut [Slot],
    known: &mut [u16],
    chains: &mut [u16],
    ends: &mut [u32],
) -> Result<u32, Refused>
    requires { Resolved all form.now out.old × Fit i form.now (length marked.old) (length table.old) (length index.old) (lent_of entered.old names.old known.old chains.old ends.old) }
    ensures out_after { (result & out.new) ≡ propose_with (setting i) form.now out.old marked.old ends.old entered.old names.old }
    ensures marked_after { (marked.new ≡ cleared 0 (bytes_for (setting i).version) marked.old) × (table.new ≡ table_after all form.now table.old) × (index.new ≡ index_after all form.now index.old) }
    ensures cleared { Cleared (setting i).version entered.old entered.new names.old names.new known.old known.new chains.old chains.new ends.old ends.new }
{
    let proposed = propose(form, out, i, marked, entered, names, known, chains, ends);
    clear_marked(marked, i);
    let claim = front_of(out, i, rows_of(proposed));
    if is_output(
        form, claim, table, index, entered, names, known, chains, ends,
    ) {
        return proposed;
    }
    resolve_with(form, out, entered, names, known, chains, ends)
}

// The resolver's own run.
fn resolve_own(
    form: &[u8],
    out: &mut [u8],
    entered: &mut [Slot],
    names: &mut [Slot],
    known: &mut [u16],
    chains: &mut [u16],
    ends: &mut [u32],
) -> Own
    requires { roomy (asked form.now).version (lent_of entered.old names.old known.old chains.old ends.old) ≡ true }
    ensures ran { Ran all form.now out.old out.new result }
    ensures cleared { Cleared (asked form.now).version entered.old entered.new names.old names.new known.old known.new chains.old chains.new ends.old ends.new }
{
    let answer = resolve_with(form, out, entered, names, known, chains, ends);
    let number = number_of(answer);
    Own { number, answer }
}

// Resolves the form, and where that is accepted writes the proposal over it.
fn share_in(
    form: &[u8],
    out: &mut [u8],
    i: usize,
    marked: &mut [u8],
    table: &mut [Slot],
    index: &mut [u16],
    entered: &mut [Slot],
    names: &mut [Slot],
    known: &mut [u16],
    chains: &mut [u16],
    ends: &mut [u32],
) -> Result<u32, Refused>
    requires { Fit i form.now (length marked.old) (length table.old) (length index.old) (lent_of entered.old names.old known.old chains.old ends.old) }
    ensures result_value { (meaning result ≡ ruled (shared all form.now (length out.old))) × (out.new ≡ shared_output all form.now out.old) }
    ensures marked_after { (marked.new ≡ cleared 0 (bytes_for (asked form.now).version) marked.old) × (table.new ≡ table_after all form.now table.old) × (index.new ≡ index_after all form.now index.old) }
    ensures cleared { Cleared (asked form.now).version entered.old entered.new names.old names.new known.old known.new chains.old chains.new ends.old ends.new }
{
    let own = resolve_own(form, out, entered, names, known, chains, ends);
    let answer = own.answer;
    if own.number != 0 {
        clear_check(marked, table, index, i);
        return answer;
    }
    settle(
        form, out, i, marked, table, index, entered, names, known, chains, ends,
    )
}

// Resolves a form of any setting in force so that references share aliases, in the form that `out` holds then. The working areas
// are the marked rows, the table and the index of the check, and those of the resolver; after every return all are zero up to
// their sizes, which go by the form's version.
pub fn share_with(
    form: &[u8],
    out: &mut [u8],
    marked: &mut [u8],
    table: &mut [Slot],
    index: &mut [u16],
    entered: &mut [Slot],
    names: &mut [Slot],
    known: &mut [u16],
    chains: &mut [u16],
    ends: &mut [u32],
) -> Result<u32, Refused>
    ensures result_value { (meaning result ≡ ruled (shared_with form.now (length out.old) (length marked.old) (length table.old) (length index.old) (lent_of entered.old names.old known.old chains.old ends.old))) × (out.new ≡ output_with form.now out.old (length marked.old) (length table.old) (length index.old) (lent_of entered.old names.old known.old chains.old ends.old)) }
    ensures marked_after { (marked.new ≡ cleared 0 (bytes_for (asked form.now).version) marked.old) × (table.new ≡ table_after all form.now table.old) × (index.new ≡ index_after all form.now index.old) }
    ensures cleared { Cleared (asked form.now).version entered.old entered.new names.old names.new known.old known.new chains.old chains.new ends.old ends.new }
{
    let i = asked_for(form);
    let lent = are_roomy(
        i,
        entered.len(),
        names.len(),
        known.len(),
        chains.len(),
        ends.len(),
    );
    if is_small(lent, marked.len(), table.len(), index.len(), i) {
        clear_check(marked, table, index, i);
        return resolve_with(form, &mut out[..0], entered, names, known, chains, ends);
    }
    share_in(
        form, out, i, marked, table, index, entered, names, known, chains, ends,
    )
}
