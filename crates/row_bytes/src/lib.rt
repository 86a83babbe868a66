// The parts of the rows of a form, by the bytes in which they stand. What lies past the end is 0, so that any bytes can be looked at.
#![tactic(auto)]

ghost use Rattle.std.specs.Prelude.{◌≡◌, ◌<◌};
ghost use Rattle.row_bytes.specs.Parts.{start_of, code_at, b_at, e_at, x_at, y_at, z_at};

use fixed::bytes_of;
use form_bytes::{byte_at, half_at, word_at};

// Where a row begins.
pub fn start_of(row: u16) -> u32
    ensures { (result ≡ start_of row) × (result < 1048576) }
{
    bytes_of(row as u32) as u32
}

pub fn code_at(form: &[u8], row: u16) -> u8
    ensures { result ≡ code_at form.now row }
{
    byte_at(form, start_of(row) as usize)
}

pub fn b_at(form: &[u8], row: u16) -> u8
    ensures { result ≡ b_at form.now row }
{
    byte_at(form, start_of(row) as usize + 1)
}

pub fn e_at(form: &[u8], row: u16) -> u32
    ensures { result ≡ e_at form.now row }
{
    half_at(form, start_of(row) + 2)
}

pub fn x_at(form: &[u8], row: u16) -> u32
    ensures { result ≡ x_at form.now row }
{
    word_at(form, start_of(row) + 4)
}

pub fn y_at(form: &[u8], row: u16) -> u32
    ensures { result ≡ y_at form.now row }
{
    word_at(form, start_of(row) + 8)
}

pub fn z_at(form: &[u8], row: u16) -> u32
    ensures { result ≡ z_at form.now row }
{
    word_at(form, start_of(row) + 12)
}
