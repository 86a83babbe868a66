// Which row of a form a row of a claim answers to, and the other way: the rows that are left once the added fields of the
// claim and the PATH rows of the form are left out, in order.
use row_parts::{PATH, code_at, counted, field_of, is_inserted, next, rows_in};
use rows::row::{CLOSE, OPEN};

// Whether a row of a claim belongs to an added field. One that opens a scope is passed over as a whole by no tool, so a row
// that opens or closes a scope is taken for the form's.
fn is_added(claim: &[u8], row: u16) -> bool {
    let code = code_at(claim, row);
    let is_bound = (code == OPEN) | (code == CLOSE);
    !is_bound & is_inserted(claim, next(field_of(claim, row)))
}

// How many rows before a row of a claim are the form's.
fn own_before(claim: &[u8], row: u16) -> u32 {
    let mut count: u32 = 0;
    for i in 0..row {
        count = counted(count, !is_added(claim, i));
    }
    count
}

// What is left of a count behind a row that may be one of those counted.
fn left_behind(left: u32, is_one: bool) -> u32 {
    if is_one {
        if 0 < left { left - 1 } else { left }
    } else {
        left
    }
}

// The row of the form that has this number when PATH rows are not counted.
fn form_row(form: &[u8], count: u32) -> u16 {
    let rows = rows_in(form);
    let mut left = count;
    for row in 0..rows {
        let is_own = code_at(form, row) != PATH;
        if is_own & (left == 0) {
            return row;
        }
        left = left_behind(left, is_own);
    }
    rows
}

// The row of a form to which a row of a claim answers; the row count if there is none.
pub(crate) fn row_of(form: &[u8], claim: &[u8], row: u16) -> u16 {
    form_row(form, own_before(claim, row))
}

// How many rows before a row of a form are no PATH rows.
fn rows_before(form: &[u8], row: u16) -> u32 {
    let mut count: u32 = 0;
    for i in 0..row {
        count = counted(count, code_at(form, i) != PATH);
    }
    count
}

// The row of a claim that answers to a row of a form; the row count if there is none.
pub(crate) fn claim_row(form: &[u8], claim: &[u8], row: u16) -> u16 {
    let rows = rows_in(claim);
    let mut left = rows_before(form, row);
    for i in 0..rows {
        let is_own = !is_added(claim, i);
        if is_own & (left == 0) {
            return i;
        }
        left = left_behind(left, is_own);
    }
    rows
}
