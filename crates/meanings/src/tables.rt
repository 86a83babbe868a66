// The scope of each row of a form, noted.
ghost use Rattle.std.specs.Prelude.{◌≡◌, ◌+◌, ◌<◌, ◌≤◌, length, set};
ghost use Rattle.scopes.specs.Scopes.{scope_of};
ghost use Rattle.scopes.specs.Tables.{Scopes};

use row_parts::code_at;
use rows::row::{CLOSE, OPEN};
use scopes::tables::at;

pub(crate) fn put(table: &mut [u16], i: usize, value: u16)
    ensures { table.new ≡ set table.old i value }
{
    if i < table.len() {
        table[i] = value;
    }
}

// The scope of the row behind a row, which has the scope `around`: a CLOSE is followed by what its OPEN's scope holds.
fn scope_behind(form: &[u8], known: &[u16], row: u16, around: u16) -> u16
    requires { Scopes form.now known.now row × (around ≡ scope_of form.now row) × (row < 4096) }
    ensures { result ≡ scope_of form.now (row + 1) }
{
    let code = code_at(form, row);
    if code == OPEN {
        row + 1
    } else if code == CLOSE {
        if 0 < around {
            at(known, (around - 1) as usize)
        } else {
            0
        }
    } else {
        around
    }
}

// Notes the scope of each row.
pub(crate) fn note_scopes(form: &[u8], known: &mut [u16])
    requires { 4096 ≤ length known.old }
    ensures { Scopes form.now known.new 4096 }
{
    let mut around: u16 = 0;
    for row in 0..4096 {
        let next = scope_behind(form, known, row, around);
        put(known, row as usize, around);
        around = next;
    }
}
