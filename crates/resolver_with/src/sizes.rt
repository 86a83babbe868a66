// The working areas: how large each is for a form.
ghost use Rattle.std.specs.Prelude.{◌≡◌, ◌≤◌};
ghost use Rattle.limits.specs.Held.{setting};
ghost use Rattle.resolver_with.specs.Areas.{slots_for, links_for};

use limits::of_input;

// How many slots each table has for a form of the setting at place i, and how many ends are noted.
pub fn slots_for(i: usize) -> usize
    ensures { (result ≡ slots_for (setting i).version) × (result ≤ 16384) }
{
    let limits = of_input(i);
    limits.rows + 1
}

// How many numbers the index of such a table has: a head of a chain and a link for each slot.
pub fn links_for(i: usize) -> usize
    ensures { (result ≡ links_for (setting i).version) × (result ≤ 32768) }
{
    2 * slots_for(i)
}
