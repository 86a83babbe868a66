// The walk inside a root whose rows are given, and the whole run. All but version 1's own tables is said for the setting at any place.
ghost use Rattle.std.specs.Prelude.{◌≡◌};
ghost use Rattle.kit.specs.Out.{◌&◌};
ghost use Rattle.parts.specs.PartsAt.{parts_at};
ghost use Rattle.limits.specs.Held.{setting};
ghost use Rattle.index.specs.Indexed.{Holds};
ghost use Rattle.resolver.specs.Run.{fill_t};
ghost use Rattle.member_laws.specs.Within.{walk_inside};
ghost use Rattle.inside.specs.Areas.{Suits};
ghost use Rattle.inside.specs.Run.{walk_around, Resolves};

use crate::admit::admitted_inside;
use areas::zero_links;
use form::ends::mark_ends_to;
use limits::{most_scopes, of_input};
use names::{Scope, Slot, scope_of};
use parts::parts_at;
use prelude_root::enter_root;
use refusal::{ROOM, Refusal, Refused};
use resolver::run::{blank, finish, header_size};
use resolver_with::run::is_early;
use walk::scopes::{scope_walk, starting};
use write::alias::WriteState;

// A root that stands in the table: its name, and how many of the first slots are its.
#[derive(Clone, Copy)]
pub struct Seat {
    pub name: usize,
    pub used: usize,
}

// A name as a whole number.
fn wide(name: u32) -> usize
    ensures { result ≡ name }
{
    name as usize
}

// The name of the scope whose rows are these.
fn name_of(root: &[u8]) -> usize
    ensures { result ≡ (parts_at root.now 0).x }
{
    let open = parts_at(root, 0);
    wide(open.x)
}

// The walk over the rows of a form of the setting at place i inside a root that stands in the table.
fn walk_behind(
    rows: &[u8],
    out: &mut [u8],
    i: usize,
    entered: &mut [Slot],
    names: &mut [Slot],
    known: &mut [u16],
    chains: &mut [u16],
    ends: &mut [u32],
    root: Seat,
) -> Result<WriteState, Refused>
    requires { Suits i entered.old names.old known.old chains.old ends.old × Holds names.old chains.old root.used }
    ensures { (result & out.new) ≡ walk_inside (setting i) root.name root.used rows.now ends.old entered.old names.old out.old }
{
    let early = is_early(i);
    mark_ends_to(rows, ends, of_input(i));
    zero_links(known);
    let mut scopes: [Scope; 64] = [[0usize; 4]; 64];
    scopes[0] = scope_of(root.name, 0, root.used, 0);
    let most = most_scopes(of_input(i));
    scope_walk(
        rows,
        ends,
        entered,
        known,
        names,
        chains,
        &mut scopes[..most],
        out,
        starting(root.used, 1, early),
    )
}

// The walk inside the root whose rows are `root`: its declarations come first in the table of names, which has room for as many and
// for the form's. The tables may hold anything: their indexes start empty.
fn walk_inside(
    root: &[u8],
    rows: &[u8],
    out: &mut [u8],
    i: usize,
    entered: &mut [Slot],
    names: &mut [Slot],
    known: &mut [u16],
    chains: &mut [u16],
    ends: &mut [u32],
) -> Result<WriteState, Refused>
    requires { Suits i entered.old names.old known.old chains.old ends.old }
    ensures { (result & out.new) ≡ walk_around (setting i) root.now rows.now ends.old entered.old names.old out.old }
{
    zero_links(chains);
    let used = enter_root(root, names, chains);
    let name = name_of(root);
    walk_behind(
        rows,
        out,
        i,
        entered,
        names,
        known,
        chains,
        ends,
        Seat { name, used },
    )
}

// Fills the form's share of the output.
fn fill_inside(
    root: &[u8],
    rows: &[u8],
    front: &mut [u8],
    i: usize,
    entered: &mut [Slot],
    names: &mut [Slot],
    known: &mut [u16],
    chains: &mut [u16],
    ends: &mut [u32],
) -> Result<u32, Refused>
    requires { Suits i entered.old names.old known.old chains.old ends.old }
    ensures { (result & front.new) ≡ fill_t (setting i) (walk_around (setting i) root.now rows.now ends.old entered.old names.old) front.old }
{
    let header = header_size(i);
    if front.len() < header {
        return Err(Refused::from(Refusal {
            number: ROOM,
            place: 0,
        }));
    }
    match walk_inside(
        root,
        rows,
        &mut front[header..],
        i,
        entered,
        names,
        known,
        chains,
        ends,
    ) {
        Err(refused) => blank(front, refused),
        Ok(s) => finish(front, i, s.to),
    }
}

// Resolves a form of the setting at place i inside the root of a resolved form, whose rows are `root`, in tables that are lent.
pub fn resolve_around(
    root: &[u8],
    form: &[u8],
    out: &mut [u8],
    i: usize,
    entered: &mut [Slot],
    names: &mut [Slot],
    known: &mut [u16],
    chains: &mut [u16],
    ends: &mut [u32],
) -> Result<u32, Refused>
    requires { Suits i entered.old names.old known.old chains.old ends.old }
    ensures { Resolves (setting i) root.now form.now out.old out.new result }
{
    let rows = admitted_inside(form, i, out.len())?;
    let header = header_size(i);
    let size = header + 64 * rows;
    fill_inside(
        root,
        &form[header..],
        &mut out[..size],
        i,
        entered,
        names,
        known,
        chains,
        ends,
    )
}

// The same in version 1, in tables that start empty.
pub fn resolve_inside(root: &[u8], form: &[u8], out: &mut [u8]) -> Result<u32, Refused>
    ensures { Resolves (setting 0) root.now form.now out.old out.new result }
{
    let mut entered: [Slot; 1024] = [[0u32; 6]; 1024];
    let mut names: [Slot; 2048] = [[0u32; 6]; 2048];
    let mut known = [0u16; 2048];
    let mut chains = [0u16; 3072];
    let mut ends = [0u32; 1024];
    resolve_around(
        root,
        form,
        out,
        0,
        &mut entered,
        &mut names,
        &mut known,
        &mut chains,
        &mut ends,
    )
}
