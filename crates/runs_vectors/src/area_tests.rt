// Areas of elements: as many of them as a vector lends, and whether they are then zero up to a size and as they were beyond.
ghost use Rattle.std.specs.Prelude.{◌+◌, ◌≤◌};
ghost use Rattle.runs_vectors.specs.Lent.{Counts};

use crate::head::{Head, cleared_at};
use names::Slot;

pub const FILLED_LINK: u16 = 42405;

pub const FILLED_NUMBER: u32 = 2779096485;

// Every area is the front of one as long as these.
pub type Slots = [Slot; 32800];

pub type Links = [u16; 32800];

pub type Numbers = [u32; 32800];

// The stated number of elements, or all that there are.
pub fn slots_in(stated: u64, area: &[Slot]) -> usize
    ensures { Counts result area.now }
{
    let long = stated as usize;
    if long < area.len() { long } else { area.len() }
}

pub fn links_in(stated: u64, area: &[u16]) -> usize
    ensures { Counts result area.now }
{
    let long = stated as usize;
    if long < area.len() { long } else { area.len() }
}

pub fn numbers_in(stated: u64, area: &[u32]) -> usize
    ensures { Counts result area.now }
{
    let long = stated as usize;
    if long < area.len() { long } else { area.len() }
}

// What an element is, by whether it is cleared.
fn link_at(i: usize, cleared: usize) -> u16 {
    if i < cleared { 0 } else { FILLED_LINK }
}

fn number_at(i: usize, cleared: usize) -> u32 {
    if i < cleared { 0 } else { FILLED_NUMBER }
}

// Whether each number of a slot is this one.
fn is_all(slot: Slot, number: u32) -> bool {
    (slot[0] == number)
        & (slot[1] == number)
        & (slot[2] == number)
        & (slot[3] == number)
        & (slot[4] == number)
        & (slot[5] == number)
}

// How many slots, links and numbers of three areas are cleared.
#[derive(Clone, Copy)]
struct Cleared {
    slots: usize,
    links: usize,
    numbers: usize,
}

// Whether an area of each kind is cleared so far and no further.
fn are_left(slots: &Slots, links: &Links, numbers: &Numbers, cleared: Cleared) -> bool {
    let mut i = 0;
    while i < 32800 {
        let as_stated = is_all(slots[i], number_at(i, cleared.slots))
            & (links[i] == link_at(i, cleared.links))
            & (numbers[i] == number_at(i, cleared.numbers));
        if !as_stated {
            return false;
        }
        i += 1;
    }
    true
}

// Whether a table and its index are cleared as stated from `at` on. No numbers are lent with them.
pub fn is_emptied(head: &Head, at: usize, table: &Slots, index: &Links) -> bool
    requires { at + 24 ≤ 100 }
{
    let cleared = Cleared {
        slots: cleared_at(head, at),
        links: cleared_at(head, at + 12),
        numbers: 0,
    };
    are_left(table, index, &[FILLED_NUMBER; 32800], cleared)
}

// Whether the five areas of the steps are cleared as stated from `at` on.
pub fn are_emptied(
    head: &Head,
    at: usize,
    entered: &Slots,
    names: &Slots,
    known: &Links,
    chains: &Links,
    ends: &Numbers,
) -> bool
    requires { at + 60 ≤ 100 }
{
    let numbers = cleared_at(head, at + 48);
    let first = Cleared {
        slots: cleared_at(head, at),
        links: cleared_at(head, at + 24),
        numbers,
    };
    let second = Cleared {
        slots: cleared_at(head, at + 12),
        links: cleared_at(head, at + 36),
        numbers,
    };
    are_left(entered, known, ends, first) & are_left(names, chains, ends, second)
}
