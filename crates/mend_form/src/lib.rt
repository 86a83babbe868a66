// The rows of the mended form of a spoilt one: which stay, what becomes of their parts, and the CLOSE rows that were missing.
#![tactic(auto)]

ghost use Rattle.std.specs.Prelude.{◌≡◌, ◌+◌, ◌*◌, ◌/◌, ◌≤◌, ◌<◌, length};
ghost use Rattle.mending.specs.Mend.{closes_root, depth_after};
ghost use Rattle.mend_form.specs.Kept.{kept_in};
ghost use Rattle.mend_form.specs.Filled.{part_at, stays_t, byte_t, mended_row_t, row_in};

use rows::row::{CASE, CLOSE, DECL, EXPORT, FIELD, OPEN, OUTER, PATH};

// The rows that stay, the first ones, and the scopes that are open behind them.
#[derive(Clone, Copy)]
pub struct Kept {
    pub rows: usize,
    pub scopes: usize,
}

// ---- the rows that stay

// Whether a row is the root's CLOSE, where this many scopes are open.
fn closes_root(code: u8, depth: usize) -> bool
    ensures { result ≡ closes_root code depth }
{
    (code == CLOSE) & (depth <= 1)
}

// How many scopes are open behind a row.
fn depth_after(code: u8, depth: usize) -> usize
    requires { depth + 1 < 18446744073709551616 }
    ensures { (result ≡ depth_after code depth) × (result ≤ depth + 1) }
{
    if code == OPEN {
        return depth + 1;
    }
    if code == CLOSE {
        if depth == 0 {
            return depth;
        }
        return depth - 1;
    }
    depth
}

// Counts OPEN and CLOSE codes up to the root's CLOSE.
pub fn kept_in(rows: &[u8]) -> Kept
    ensures { (result ≡ kept_in rows.now) × (result.rows ≤ length rows.now / 16) × (result.scopes ≤ length rows.now / 16) }
{
    let n = rows.len() / 16;
    let mut depth = 0;
    for i in 0..n {
        let code = rows[16 * i];
        if closes_root(code, depth) {
            return Kept {
                rows: i + 1,
                scopes: 0,
            };
        }
        depth = depth_after(code, depth);
    }
    Kept {
        rows: n,
        scopes: depth,
    }
}

// ---- what becomes of a row

// The part that byte j of a row belongs to: code, b, e, x, y, z.
fn part_at(j: usize) -> usize
    ensures { result ≡ part_at j }
{
    if j < 2 {
        return j;
    }
    if j < 4 {
        return 2;
    }
    2 + j / 4
}

// Whether a part stays as it is, by the row's code: e of a builtin (19) and of an export (22) says something.
fn stays(code: u8, b: u8, part: usize) -> bool
    ensures { result ≡ stays_t code b part }
{
    match code {
        FIELD => { (part == 1) | ((part == 5) | ((part == 2) & ((b == 19) | (b == 22)))) }
        DECL => (part == 1) | ((part == 3) | (part == 5)),
        PATH => part == 3,
        CASE => (part == 3) | (part == 5),
        OPEN => (part == 1) | (part == 3),
        CLOSE => false,
        EXPORT => part == 3,
        _ => true,
    }
}

// Byte j of a mended row. Of e of an OUTER the two lowest bits stay.
fn mended_byte(code: u8, b: u8, j: usize, byte: u8) -> u8
    ensures { result ≡ byte_t code b j byte }
{
    let part = part_at(j);
    if part == 0 {
        return byte;
    }
    if code == OUTER {
        if j == 2 {
            return byte % 4;
        }
        if j == 3 {
            return 0;
        }
        return byte;
    }
    if stays(code, b, part) { byte } else { 0 }
}

// Row i as it is mended.
fn mended_row(rows: &[u8], i: usize) -> [u8; 16]
    requires { 16 * (i + 1) ≤ length rows.now }
    ensures { result ≡ mended_row_t rows.now (16 * i) 0 16 }
{
    let a = 16 * i;
    let code = rows[a];
    let b = rows[a + 1];
    let mut row = [0u8; 16];
    for j in 0..16 {
        row[j] = mended_byte(code, b, j, rows[a + j]);
    }
    row
}

// Row i of the mended form: one that stays, or a CLOSE row behind those; all zero where there is none.
pub fn row_of(rows: &[u8], kept: Kept, i: usize) -> [u8; 16]
    ensures { result ≡ row_in rows.now kept i }
{
    let mut row = [0u8; 16];
    if kept.rows <= i {
        if i - kept.rows < kept.scopes {
            row[0] = CLOSE;
        }
        return row;
    }
    if rows.len() / 16 <= i {
        return row;
    }
    mended_row(rows, i)
}
