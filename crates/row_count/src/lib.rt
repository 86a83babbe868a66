// What the header of a form says, and how many rows there are.
#![tactic(auto)]

ghost use Rattle.std.specs.Prelude.{◌≡◌};
ghost use Rattle.parts.specs.PartsAt.{two};
ghost use Rattle.row_count.specs.Count.{has_header, rows_in, is_whole};

use fixed::HEADER;
use form_bytes::{begins_as, byte_at, half_at};
use row_bytes::start_of;

// Whether the header is that of version 1.
pub fn has_header(form: &[u8]) -> bool
    ensures { result ≡ has_header form.now }
{
    begins_as(form, 1) & (byte_at(form, 4) == 0) & (byte_at(form, 5) == 0)
}

// The row count of the header.
pub fn rows_said(form: &[u8]) -> u32
    ensures { result ≡ two form.now 6 }
{
    half_at(form, 6)
}

// How many whole rows stand behind the header, at most 65,535.
pub fn rows_in(form: &[u8]) -> u16
    ensures { result ≡ rows_in form.now }
{
    if form.len() < HEADER {
        return 0;
    }
    let rows = (form.len() - HEADER) / 16;
    if rows < 65535 { rows as u16 } else { 65535 }
}

// Whether there are just as many rows as the header says.
pub fn is_whole(form: &[u8]) -> bool
    ensures { result ≡ is_whole form.now }
{
    let rows = rows_in(form);
    (rows_said(form) == rows as u32) & (form.len() == start_of(rows) as usize)
}
