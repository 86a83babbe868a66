// Working areas that are lent: bytes, tables of slots, their indexes, and numbers. What they held is gone when they are handed back.
#![tactic(auto)]

ghost use Rattle.std.specs.Prelude.{◌≡◌, length, replicate};
ghost use Rattle.clearing.specs.Cleared.{cleared};
ghost use Rattle.names.specs.Table.{empty_slot};

use names::Slot;

// Every entry becomes this one. The library's `fill` wants a `clone` that cannot fail, which `T: Copy` does not say.
#[tactic(auto, using(crate::proofs::Zeros::ways))]
fn fill<T: Copy>(area: &mut [T], entry: T)
    ensures { area.new ≡ replicate (length area.old) entry }
{
    for i in 0..area.len() {
        area[i] = entry;
    }
}

// The first entries become this one, as far as there are any.
#[tactic(auto, using(crate::proofs::Zeros::fronts))]
fn clear<T: Copy>(area: &mut [T], size: usize, entry: T)
    ensures { area.new ≡ cleared entry size area.old }
{
    if area.len() < size {
        fill(area, entry);
    } else {
        fill(&mut area[..size], entry);
    }
}

// Zeroes a table of slots.
pub fn zero_slots(table: &mut [Slot])
    ensures { table.new ≡ replicate (length table.old) empty_slot }
{
    fill(table, [0; 6]);
}

// Zeroes an index.
pub fn zero_links(index: &mut [u16])
    ensures { index.new ≡ replicate (length index.old) 0 }
{
    fill(index, 0);
}

// Zeroes numbers, as the ends of fields.
pub fn zero_numbers(numbers: &mut [u32])
    ensures { numbers.new ≡ replicate (length numbers.old) 0 }
{
    fill(numbers, 0);
}

// The first bytes become zero, as far as there are any.
pub fn clear_bytes(bytes: &mut [u8], size: usize)
    ensures { bytes.new ≡ cleared 0 size bytes.old }
{
    clear(bytes, size, 0);
}

// The first slots become zero, as far as there are any.
pub fn clear_slots(table: &mut [Slot], size: usize)
    ensures { table.new ≡ cleared empty_slot size table.old }
{
    clear(table, size, [0; 6]);
}

// The first numbers of an index become zero, as far as there are any.
pub fn clear_links(index: &mut [u16], size: usize)
    ensures { index.new ≡ cleared 0 size index.old }
{
    clear(index, size, 0);
}

// The first of other numbers become zero, as far as there are any.
pub fn clear_numbers(numbers: &mut [u32], size: usize)
    ensures { numbers.new ≡ cleared 0 size numbers.old }
{
    clear(numbers, size, 0);
}
