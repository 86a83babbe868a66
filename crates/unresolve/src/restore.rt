// The form that a resolved form may have come from: its rows restored, and a header before them. Whether it did is not asked here.
ghost use Rattle.std.specs.Prelude.{◌≡◌, ◌+◌, ◌-◌, ◌*◌, ◌≤◌, length};
ghost use Rattle.kit.specs.Out.{◌&◌};
ghost use Rattle.limits.specs.Held.{setting};
ghost use Rattle.index.specs.Indexed.{Holds};
ghost use Rattle.unresolve.specs.Restored.{no_notes, restore_rows_t, restore_t};

use back_notes::named::name_rows;
use back_notes::note::Note;
use back_notes::number::number_rows;
use back_rows::write::write_back;
use limits::of_input;
use names::Slot;
use whole_form::header::{header_at, put_header};

// The setting of version 1.
const FIRST: usize = 0;

// Writes the restored rows to the end of `out`, and answers the row at which they begin there. The notes may hold anything, and so
// may the table: its index starts empty. They have room for an output.
fn restore_rows(
    rows: &[u8],
    out: &mut [u8],
    noted: &mut [Note],
    table: &mut [Slot],
    index: &mut [u16],
) -> usize
    requires { Holds table.old index.old 0 }
    ensures { (result & out.new) ≡ restore_rows_t (length table.old) noted.old rows.now out.old }
{
    number_rows(rows, noted);
    name_rows(rows, noted, table, index);
    write_back(rows, noted, out)
}

// The most rows of an input.
pub fn most_rows(i: usize) -> usize
    ensures { (result ≡ (setting i).version.rows) × (result ≤ 16383) }
{
    of_input(i).rows
}

// How many rows there are from the row `to` up to the last.
fn rows_from(most: usize, to: usize) -> usize
    ensures { (result ≡ most - to) × (result ≤ most) }
{
    if to < most { most - to } else { 0 }
}

// Puts the restored form of the setting at place i at the end of the area, and answers where it begins there.
pub fn restore(
    i: usize,
    rows: &[u8],
    area: &mut [u8],
    noted: &mut [Note],
    table: &mut [Slot],
    index: &mut [u16],
) -> usize
    requires { (length area.old ≡ (setting i).version.header + 16 * (setting i).version.rows) × Holds table.old index.old 0 }
    ensures { ((result & area.new) ≡ restore_t i (length table.old) noted.old rows.now area.old) × (result ≤ 16 * (setting i).version.rows) }
{
    let header = header_at(i);
    let most = most_rows(i);
    let to = restore_rows(rows, &mut area[header..], noted, table, index);
    let count = rows_from(most, to);
    let at = 16 * (most - count);
    put_header(&mut area[at..], of_input(i), count);
    at
}

// The same of version 1, in tables of its own.
pub(crate) fn restore_first(rows: &[u8], area: &mut [u8]) -> usize
    requires { length area.old ≡ 16376 }
    ensures { ((result & area.new) ≡ restore_t 0 1024 no_notes rows.now area.old) × (result ≤ 16368) }
{
    let mut noted: [Note; 4092] = [[0u32; 2]; 4092];
    let mut table: [Slot; 1024] = [[0u32; 6]; 1024];
    let mut index = [0u16; 2048];
    restore(FIRST, rows, area, &mut noted, &mut table, &mut index)
}
