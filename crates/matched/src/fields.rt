// The root's fields of two forms: where a field ends, how far they are the same from the front, and how far from the back.
ghost use Rattle.std.specs.Prelude.{◌≡◌, ◌+◌, ◌-◌, ◌/◌, ◌≤◌, ◌<◌, length};
ghost use Rattle.matched.specs.Counted.{choice_of};
ghost use Rattle.matched.specs.Alike.{code_of, is_behind, depth_behind, end_t, end_behind, field_end, same_run_t, same_field_t, next_t, front_t, more_t, back_t, tail_t, rest_from, middle_t};

use crate::row::same_row;
use parts::parts_at;
use rows::row::{CLOSE, FIELD, OPEN};

// What is left of both roots: from this row on, up to that of the left and that of the right.
#[derive(Clone, Copy)]
pub struct Rest {
    pub from: usize,
    pub left: usize,
    pub right: usize,
}

// Whether a row of this code stands behind a field: a FIELD or a CLOSE, where no inner scope is open.
fn is_behind(depth: usize, code: u8) -> bool
    ensures { result ≡ is_behind depth code }
{
    (depth == 0) & ((code == FIELD) | (code == CLOSE))
}

// How many inner scopes are open behind a row of this code.
fn depth_behind(depth: usize, code: u8) -> usize
    requires { depth + 1 < 18446744073709551616 }
    ensures { (result ≡ depth_behind depth code) × (result ≤ depth + 1) }
{
    if code == OPEN {
        return depth + 1;
    }
    if code != CLOSE {
        return depth;
    }
    if depth == 0 { 0 } else { depth - 1 }
}

// The code of the row at i.
fn code_at(rows: &[u8], i: usize) -> u8
    ensures { result ≡ code_of rows.now i }
{
    let p = parts_at(rows, i);
    p.code
}

// The row behind the field whose rows go on from here.
#[tactic(auto, using(crate::proofs::Ways::ends))]
fn end_from(rows: &[u8], from: usize) -> usize
    requires { from ≤ length rows.now / 16 }
    ensures { (result ≡ end_t rows.now from 0 (length rows.now / 16 - from)) × (from ≤ result) × (result ≤ length rows.now / 16) }
{
    let n = rows.len() / 16;
    let mut depth = 0;
    for j in from..n {
        let code = code_at(rows, j);
        if is_behind(depth, code) {
            return j;
        }
        depth = depth_behind(depth, code);
    }
    n
}

// The row behind the field that begins at i.
pub fn field_end(rows: &[u8], i: usize) -> usize
    ensures { (result ≡ field_end rows.now i) × (result - i ≤ length rows.now / 16 - i) }
{
    if rows.len() / 16 <= i {
        return i;
    }
    end_from(rows, i + 1)
}

// Whether the rows from here up to there are the same in both.
#[tactic(auto, using(crate::proofs::Ways::runs))]
fn same_run(left: &[u8], right: &[u8], from: usize, to: usize, choice: u32) -> bool
    ensures { result ≡ same_run_t (choice_of choice) left.now right.now from (to - from) }
{
    for i in from..to {
        if !same_row(left, i, right, i, choice) {
            return false;
        }
    }
    true
}

// Whether the field that begins at i, and in the left ends there, is the same in the right.
fn same_field(left: &[u8], right: &[u8], i: usize, end: usize, choice: u32) -> bool
    requires { (i + 1 ≤ length right.now / 16) × (end ≡ end_behind left.now i) }
    ensures { result ≡ same_field_t (choice_of choice) left.now right.now i }
{
    if end_from(right, i + 1) != end {
        return false;
    }
    same_run(left, right, i, end, choice)
}

// The row behind the field that begins at i, if both have one there and it is the same; else i.
fn next(left: &[u8], right: &[u8], i: usize, choice: u32) -> usize
    requires { i < length left.now / 16 }
    ensures { (result ≡ next_t (choice_of choice) left.now right.now i) × (result ≤ length left.now / 16) }
{
    if left.len() / 16 <= i + 1 {
        return i;
    }
    if right.len() / 16 <= i + 1 {
        return i;
    }
    let end = end_from(left, i + 1);
    if same_field(left, right, i, end, choice) {
        end
    } else {
        i
    }
}

// The row behind the fields that are the same from the front, the same row in both.
fn front(left: &[u8], right: &[u8], choice: u32) -> usize
    requires { 2 ≤ length left.now / 16 }
    ensures { (result ≡ front_t (choice_of choice) left.now right.now 1 (length left.now / 16)) × (result ≤ length left.now / 16) }
{
    let m = left.len() / 16;
    let mut i = 1;
    while i < m {
        let end = next(left, right, i, choice);
        if end <= i {
            return i;
        }
        i = end;
    }
    i
}

// Whether behind these rows before the root's CLOSE that are the same the right has one more, and it is the left's.
fn one_more(left: &[u8], right: &[u8], from: usize, same: usize, choice: u32) -> bool
    requires { from + 1 + same < length left.now / 16 }
    ensures { result ≡ more_t (choice_of choice) left.now right.now from same }
{
    let m = left.len() / 16;
    let n = right.len() / 16;
    if n <= from + 1 + same {
        return false;
    }
    same_row(left, m - 2 - same, right, n - 2 - same, choice)
}

// How many rows before the root's CLOSE are the same, none of them before this row.
#[tactic(auto, using(crate::proofs::Ways::backs))]
fn back(left: &[u8], right: &[u8], from: usize, choice: u32) -> usize
    requires { from ≤ length left.now / 16 }
    ensures { (result ≡ back_t (choice_of choice) left.now right.now from 0 (length left.now / 16 - (from + 1))) × (result ≤ length left.now / 16 - (from + 1)) × (result ≤ length right.now / 16 - (from + 1)) }
{
    let most = (left.len() / 16).saturating_sub(from + 1);
    for same in 0..most {
        if !one_more(left, right, from, same, choice) {
            return same;
        }
    }
    most
}

// The first field of the left, from this row on, with this many rows or fewer from it to the root's CLOSE.
fn tail(rows: &[u8], from: usize, same: usize) -> usize
    requires { (from ≤ length rows.now / 16) × (same ≤ length rows.now / 16) }
    ensures { (result ≡ tail_t rows.now same from (length rows.now / 16)) × (length rows.now / 16 ≤ result + 1 + same) × (from ≤ result) × (result ≤ length rows.now / 16) }
{
    let n = rows.len() / 16;
    let mut i = from;
    while i + 1 + same < n {
        i = end_from(rows, i + 1);
    }
    i
}

// Nothing is left.
fn nothing() -> Rest
    ensures { result ≡ rest_from 1 1 1 }
{
    Rest {
        from: 1,
        left: 1,
        right: 1,
    }
}

// What is left of both when the fields that are the same from the front, then from the back, are taken away.
pub fn middle(left: &[u8], right: &[u8], choice: u32) -> Rest
    ensures { result ≡ middle_t (choice_of choice) left.now right.now }
{
    let m = left.len() / 16;
    let n = right.len() / 16;
    if m < 2 {
        return nothing();
    }
    if n < 2 {
        return nothing();
    }
    let from = front(left, right, choice);
    let same = back(left, right, from, choice);
    let end = tail(left, from, same);
    Rest {
        from,
        left: end,
        right: end + n - m,
    }
}
