// The run on a form, in working areas that are lent.
ghost use Rattle.std.specs.Prelude.{◌≡◌, length};
ghost use Rattle.kit.specs.Out.{◌&◌};
ghost use Rattle.rules.specs.Tools.{when◌then◌else◌};
ghost use Rattle.limits.specs.Held.{setting};
ghost use Rattle.resolver.specs.Meaning.{meaning, ruled};
ghost use Rattle.resolver.specs.Run.{walk_in, fill_t};
ghost use Rattle.resolver_with.specs.Asked.{asked};
ghost use Rattle.resolver_with.specs.Areas.{lent_of, roomy, Cleared};
ghost use Rattle.resolver_with.specs.With.{answer_with, output_with, Ran};
ghost use Rattle.resolver_with.specs.Exact.{Suits, exactly, Zeroed};

use crate::sizes::{links_for, slots_for};
use areas::{zero_links, zero_numbers, zero_slots};
use form::ends::mark_ends_to;
use form::header::{BadHeader, header_to};
use limits::{most_scopes, of_input};
use names::{Scope, Slot, least};
use refusal::{ROOM, Refusal, Refused};
use resolver::run::{admitted, blank, finish, header_size};
use walk::scopes::{scope_walk, starting};
use write::alias::WriteState;

// How many settings there are.
const SETTINGS: usize = 3;

// The place of the setting that the header asks for; the first where it asks for none.
pub fn asked_for(form: &[u8]) -> usize
    ensures { setting result ≡ asked form.now }
{
    let mut next = 0;
    while next < SETTINGS {
        let i = next;
        next += 1;
        match header_to(form, of_input(i)) {
            Ok(_) => return i,
            Err(BadHeader::Count) => return i,
            Err(BadHeader::Wrong) => {}
        }
    }
    0
}

// Whether a name means only what an earlier field declares, under the setting at place i.
pub fn is_early(i: usize) -> bool
    ensures { result ≡ (setting i).rules.early }
{
    let limits = of_input(i);
    limits.rules == 1
}

// The walk over the rows of a form. The tables may hold anything: their indexes start empty.
pub fn walk_in(
    rows: &[u8],
    out: &mut [u8],
    i: usize,
    entered: &mut [Slot],
    names: &mut [Slot],
    known: &mut [u16],
    chains: &mut [u16],
    ends: &mut [u32],
) -> Result<WriteState, Refused>
    requires { Suits i entered.old names.old known.old chains.old ends.old }
    ensures { (result & out.new) ≡ walk_in (setting i) rows.now ends.old entered.old names.old out.old }
{
    let early = is_early(i);
    mark_ends_to(rows, ends, of_input(i));
    zero_links(known);
    zero_links(chains);
    let mut scopes: [Scope; 64] = [[0usize; 4]; 64];
    let most = most_scopes(of_input(i));
    scope_walk(
        rows,
        ends,
        entered,
        known,
        names,
        chains,
        &mut scopes[..most],
        out,
        starting(0, 0, early),
    )
}

// Fills the share of the output of a form of the setting at place i; the steps go by the one at place j.
pub fn fill_in(
    rows: &[u8],
    front: &mut [u8],
    i: usize,
    j: usize,
    entered: &mut [Slot],
    names: &mut [Slot],
    known: &mut [u16],
    chains: &mut [u16],
    ends: &mut [u32],
) -> Result<u32, Refused>
    requires { Suits j entered.old names.old known.old chains.old ends.old }
    ensures { (result & front.new) ≡ fill_t (setting i) (walk_in (setting j) rows.now ends.old entered.old names.old) front.old }
{
    let header = header_size(i);
    if front.len() < header {
        return Err(Refused::from(Refusal {
            number: ROOM,
            place: 0,
        }));
    }
    match walk_in(
        rows,
        &mut front[header..],
        j,
        entered,
        names,
        known,
        chains,
        ends,
    ) {
        Err(refused) => blank(front, refused),
        Ok(s) => finish(front, i, s.to),
    }
}

// Whether areas of these lengths have the sizes for a form of the setting at place i.
fn is_exact(
    i: usize,
    entered: usize,
    names: usize,
    known: usize,
    chains: usize,
    ends: usize,
) -> bool
    ensures { result ≡ exactly (setting i).version (record { entered = entered; names = names; known = known; chains = chains; ends = ends }) }
{
    let slots = slots_for(i);
    let links = links_for(i);
    (entered == slots)
        & ((names == slots) & ((known == links) & ((chains == links) & (ends == slots))))
}

// The output's room, or none where an area is too small.
fn room_if(enough: bool, room: usize) -> usize
    ensures { result ≡ (when enough then room else 0) }
{
    if enough { room } else { 0 }
}

// Resolves the form under the setting at place i, in areas of which none is larger than its size.
pub fn run_in(
    form: &[u8],
    out: &mut [u8],
    i: usize,
    entered: &mut [Slot],
    names: &mut [Slot],
    known: &mut [u16],
    chains: &mut [u16],
    ends: &mut [u32],
) -> Result<u32, Refused>
    ensures { Ran (setting i) (exactly (setting i).version (lent_of entered.old names.old known.old chains.old ends.old)) form.now out.old out.new result }
{
    let enough = is_exact(
        i,
        entered.len(),
        names.len(),
        known.len(),
        chains.len(),
        ends.len(),
    );
    let rows = admitted(form, i, room_if(enough, out.len()))?;
    let header = header_size(i);
    let size = header + 64 * rows;
    fill_in(
        &form[header..],
        &mut out[..size],
        i,
        i,
        entered,
        names,
        known,
        chains,
        ends,
    )
}

// Zeroes all areas.
fn clear(
    entered: &mut [Slot],
    names: &mut [Slot],
    known: &mut [u16],
    chains: &mut [u16],
    ends: &mut [u32],
)
    ensures { Zeroed entered.old entered.new names.old names.new known.old known.new chains.old chains.new ends.old ends.new }
{
    zero_slots(entered);
    zero_slots(names);
    zero_links(known);
    zero_links(chains);
    zero_numbers(ends);
}

// The same run, after which all areas are zero.
fn run_cleared(
    form: &[u8],
    out: &mut [u8],
    i: usize,
    entered: &mut [Slot],
    names: &mut [Slot],
    known: &mut [u16],
    chains: &mut [u16],
    ends: &mut [u32],
) -> Result<u32, Refused>
    ensures { Ran (setting i) (exactly (setting i).version (lent_of entered.old names.old known.old chains.old ends.old)) form.now out.old out.new result × Zeroed entered.old entered.new names.old names.new known.old known.new chains.old chains.new ends.old ends.new }
{
    let answer = run_in(form, out, i, entered, names, known, chains, ends);
    clear(entered, names, known, chains, ends);
    answer
}

// Resolves the form under the setting at place i, in areas of any size, and zeroes of each as much as the version takes.
pub fn resolve_at(
    form: &[u8],
    out: &mut [u8],
    i: usize,
    entered: &mut [Slot],
    names: &mut [Slot],
    known: &mut [u16],
    chains: &mut [u16],
    ends: &mut [u32],
) -> Result<u32, Refused>
    ensures { Ran (setting i) (roomy (setting i).version (lent_of entered.old names.old known.old chains.old ends.old)) form.now out.old out.new result × Cleared (setting i).version entered.old entered.new names.old names.new known.old known.new chains.old chains.new ends.old ends.new }
{
    let slots = slots_for(i);
    let links = links_for(i);
    let a = least(slots, entered.len());
    let b = least(slots, names.len());
    let c = least(links, known.len());
    let d = least(links, chains.len());
    let e = least(slots, ends.len());
    run_cleared(
        form,
        out,
        i,
        &mut entered[..a],
        &mut names[..b],
        &mut known[..c],
        &mut chains[..d],
        &mut ends[..e],
    )
}

// Resolves a form of any setting in force: its names become numbers, in the form that `out` holds then. The working
// areas are two tables, the index of each, and the ends of fields; their sizes go by the form's version.
pub fn resolve_with(
    form: &[u8],
    out: &mut [u8],
    entered: &mut [Slot],
    names: &mut [Slot],
    known: &mut [u16],
    chains: &mut [u16],
    ends: &mut [u32],
) -> Result<u32, Refused>
    ensures { (meaning result ≡ ruled (answer_with form.now (length out.old) (lent_of entered.old names.old known.old chains.old ends.old))) × (out.new ≡ output_with form.now out.old (lent_of entered.old names.old known.old chains.old ends.old)) × Cleared (asked form.now).version entered.old entered.new names.old names.new known.old known.new chains.old chains.new ends.old ends.new }
{
    let i = asked_for(form);
    resolve_at(form, out, i, entered, names, known, chains, ends)
}
