// Numbers of document 01 that several crates need.
#![tactic(auto)]

ghost use Rattle.std.specs.Prelude.{◌≡◌, ◌+◌, ◌*◌};

// The highest name of an input. The names above are fresh.
pub const LAST_NAME: u32 = 2147483647;

// The first fresh name, which no input has: that of the first insertion. A DECL's name from here up was inserted.
pub const FIRST_FRESH: u32 = 2147483648;

// The spaces of core instances, the last whose items core instances export, and of instances: in a byte, as in a row,
pub const CORE_INSTANCE: u8 = 6;

pub const INSTANCE: u8 = 10;

// and in four bytes, as in a slot.
pub const CORE_INSTANCE_WIDE: u32 = 6;

pub const INSTANCE_WIDE: u32 = 10;

// How many bytes a header of version 1 has,
pub const HEADER: usize = 8;

// the same in a byte, as in limits, and one of version 2.
pub const HEADER_NARROW: u8 = 8;

pub const LONG_HEADER_NARROW: u8 = 16;

// How many bytes a header of this many bytes and this many rows have.
pub fn bytes_with(header: u8, rows: u32) -> usize
    ensures { result ≡ header + 16 * rows }
{
    header as usize + 16 * (rows as usize)
}

// How many bytes a form of version 1 with this many rows has; the next row would begin there.
pub fn bytes_of(rows: u32) -> usize
    ensures { result ≡ 8 + 16 * rows }
{
    bytes_with(HEADER_NARROW, rows)
}
