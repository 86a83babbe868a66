// The working areas for a form inside a root, by the version: how large each is, and how they are handed back.
ghost use Rattle.std.specs.Prelude.{◌≡◌, ◌≤◌};
ghost use Rattle.limits.specs.Held.{setting};
ghost use Rattle.inside.specs.Areas.{both_for, chains_for};
ghost use Rattle.member_with.specs.Areas.{area_for, is_small, TablesCleared};

use areas::{clear_links, clear_numbers, clear_slots};
use names::Slot;
use resolver::run::header_size;
use resolver_with::sizes::{links_for, slots_for};

// How many slots the table of names has for a form of the setting at place i inside a root.
pub fn both_for(i: usize) -> usize
    ensures { (result ≡ both_for (setting i).version) × (result ≤ 32768) }
{
    2 * slots_for(i)
}

// How many numbers the index of that table has.
pub fn chains_for(i: usize) -> usize
    ensures { (result ≡ chains_for (setting i).version) × (result ≤ 49152) }
{
    3 * slots_for(i)
}

// The bytes of the area in which a prelude is resolved: as many as its version's longest output takes.
pub fn area_for(i: usize) -> usize
    ensures { result ≡ area_for (setting i).version }
{
    let slots = slots_for(i);
    header_size(i) + 64 * slots - 64
}

// Whether one of the tables is below its size, by their lengths.
pub fn are_small(
    i: usize,
    entered: usize,
    names: usize,
    known: usize,
    chains: usize,
    ends: usize,
) -> bool
    ensures { result ≡ is_small (setting i).version (record { entered = entered; names = names; known = known; chains = chains; ends = ends }) }
{
    let slots = slots_for(i);
    let both = both_for(i);
    let links = links_for(i);
    let more = chains_for(i);
    (entered < slots) | ((names < both) | ((known < links) | ((chains < more) | (ends < slots))))
}

// The tables are handed back empty.
pub fn clear_tables(
    i: usize,
    entered: &mut [Slot],
    names: &mut [Slot],
    known: &mut [u16],
    chains: &mut [u16],
    ends: &mut [u32],
)
    ensures { TablesCleared (setting i).version entered.old entered.new names.old names.new known.old known.new chains.old chains.new ends.old ends.new }
{
    let slots = slots_for(i);
    clear_slots(entered, slots);
    clear_slots(names, both_for(i));
    clear_links(known, links_for(i));
    clear_links(chains, chains_for(i));
    clear_numbers(ends, slots);
}
