// Working areas that are lent, by the form's version: whether they are large enough, and how they are handed back.
#![tactic(auto)]

ghost use Rattle.std.specs.Prelude.{◌≡◌};
ghost use Rattle.limits.specs.Held.{setting};
ghost use Rattle.resolver_with.specs.Areas.{roomy, Cleared};

use areas::{clear_links, clear_numbers, clear_slots};
use names::Slot;
use resolver_with::sizes::{links_for, slots_for};

// Whether areas of these lengths are large enough for a form of the setting at place i.
pub fn are_roomy(
    i: usize,
    entered: usize,
    names: usize,
    known: usize,
    chains: usize,
    ends: usize,
) -> bool
    ensures { result ≡ roomy (setting i).version (record { entered = entered; names = names; known = known; chains = chains; ends = ends }) }
{
    let slots = slots_for(i);
    let links = links_for(i);
    (slots <= entered)
        & ((slots <= names) & ((links <= known) & ((links <= chains) & (slots <= ends))))
}

// The areas for a form of the setting at place i are handed back empty.
pub fn clear_areas(
    i: usize,
    entered: &mut [Slot],
    names: &mut [Slot],
    known: &mut [u16],
    chains: &mut [u16],
    ends: &mut [u32],
)
    ensures { Cleared (setting i).version entered.old entered.new names.old names.new known.old known.new chains.old chains.new ends.old ends.new }
{
    let slots = slots_for(i);
    let links = links_for(i);
    clear_slots(entered, slots);
    clear_slots(names, slots);
    clear_links(known, links);
    clear_links(chains, links);
    clear_numbers(ends, slots);
}
