// What a field still wants, as a number: what the table of `wants` leaves of it after a row.
#![tactic(auto)]

ghost use Rattle.std.specs.Prelude.{◌≡◌, ◌-◌, ◌≤◌, ◌<◌, ltb};
ghost use Rattle.kit.specs.Pick.{pick};
ghost use Rattle.wants.specs.States.{entry, ref_entry, outer_entry};

// A row that does not fit, as is every number below the next.
pub const NOT: usize = 46;

// No operands.
pub const NOTHING: usize = 48;

// The number behind the last.
const PAST: usize = 115;

// Behind the columns of REFs, which are two for each space: one without PATHs and one with.
pub const CASE: usize = 26;

// The columns of OUTERs follow.
const FIRST_OUTER: usize = 27;

// The field's end.
pub const END: usize = 40;

// A byte as a number.
fn wide(byte: u8) -> usize
    ensures { result ≡ byte }
{
    byte as usize
}

// The row of the table for what is wanted.
fn row_of(left: usize) -> usize
    requires { 48 ≤ left }
    ensures { (result ≡ pick (ltb left 115) (left - 48) 0) × (result < 67) }
{
    if left < PAST { left - NOTHING } else { 0 }
}

// What is left after a row of this column.
#[tactic(auto, using(crate::proofs::Laws::entry_not, crate::proofs::Laws::entry_past, crate::proofs::Laws::entry_found))]
pub fn after(table: &[[u8; 41]; 67], left: usize, column: usize) -> usize
    ensures { result ≡ entry table.now left column }
{
    if left < NOTHING {
        return NOT;
    }
    if 41 <= column {
        return NOT;
    }
    let row = row_of(left);
    wide(table[row][column])
}

// What is left after a REF. One to the spaces 0 to 6 has at most one PATH.
pub fn after_ref(table: &[[u8; 41]; 67], left: usize, space: usize, paths: usize) -> usize
    ensures { result ≡ ref_entry table.now left space paths }
{
    if 12 < space {
        return NOT;
    }
    if paths == 0 {
        return after(table, left, space * 2);
    }
    if (7 <= space) | (paths <= 1) {
        return after(table, left, space * 2 + 1);
    }
    NOT
}

// What is left after an OUTER.
pub fn after_outer(table: &[[u8; 41]; 67], left: usize, space: usize) -> usize
    ensures { result ≡ outer_entry table.now left space }
{
    if 12 < space {
        return NOT;
    }
    after(table, left, FIRST_OUTER + space)
}
