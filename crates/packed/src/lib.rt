// The one number in which a C function answers: a refusal as number and place, with room below for what is accepted.
#![tactic(auto)]

ghost use Rattle.std.specs.Prelude.{◌≡◌, ◌+◌, ◌*◌};

use refusal::Refusal;

// The refusal's number times 2^32 plus its place.
pub fn packed_refusal(refusal: Refusal) -> u64
    ensures { result ≡ refusal.number * 4294967296 + refusal.place }
{
    (refusal.number as u64) * 4294967296 + (refusal.place as u64)
}

// A broken condition, numbered from 101 up beside the refusals, times 2^32 plus the claimed row that breaks it.
pub fn packed_no(condition: u8, row: u32) -> u64
    ensures { result ≡ (100 + condition) * 4294967296 + row }
{
    (100 + (condition as u64)) * 4294967296 + (row as u64)
}

// How many numbers are apart times 65536 plus how many have moved.
pub fn packed_counts(apart: u32, moved: u32) -> u64
    ensures { result ≡ apart * 65536 + moved }
{
    (apart as u64) * 65536 + (moved as u64)
}

// The number of a form times 2^32 plus a row of it.
pub fn packed_row(form: u8, row: u16) -> u64
    ensures { result ≡ form * 4294967296 + row }
{
    (form as u64) * 4294967296 + (row as u64)
}
