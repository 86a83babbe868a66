// Which references are numbers that have moved. An entry of their list is four numbers of four bytes, of which the first is the place of the
// reference and the third the row that it meant.
use form_bytes::word_at;
use row_parts::{OUTER, code_at, e_at, z_at};

// More entries than a list has: what is taken from it stays below, so that no sum can wrap.
const MOST: u32 = 65536;

// Whether an entry has that place, and meant that row.
fn is_entry(list: &[u8], entry: u32, place: u32, meant: u16) -> bool {
    let at = entry % MOST * 16;
    (word_at(list, at) == place) & (word_at(list, at + 8) == u32::from(meant))
}

fn has_entry(list: &[u8], count: u32, place: u32, meant: u16) -> bool {
    for entry in 0..count {
        if is_entry(list, entry, place, meant) {
            return true;
        }
    }
    false
}

// Whether a reference is a written number: of an OUTER the index is.
fn is_number(form: &[u8], row: u16) -> bool {
    let e = e_at(form, row);
    (e == 0) | ((code_at(form, row) == OUTER) & (e == 1))
}

// Whether a reference is a number on a list of this many entries. Numbers of one place that meant one row have moved alike.
pub(crate) fn has_moved(form: &[u8], row: u16, meant: u16, list: &[u8], count: u32) -> bool {
    is_number(form, row) && has_entry(list, count, z_at(form, row), meant)
}
