// The root of a resolved form as what lies around another form: its declarations, inserted ones too, are entered in a table with
// their numbers. Table and index are lent by whoever has them.
#![tactic(auto)]

ghost use Rattle.std.specs.Prelude.{◌≡◌, ◌+◌, ◌/◌, ◌≤◌, ◌<◌, length};
ghost use Rattle.kit.specs.Out.{◌&◌};
ghost use Rattle.parts.specs.PartsAt.{parts_at};
ghost use Rattle.index.specs.Indexed.{Holds};
ghost use Rattle.claim_rows.specs.Left.{rows_at};
ghost use Rattle.prelude_root.specs.Root.{depth_t, root_row_t, turn_t, root_t};

use claim_numbers::count::{Counts, count};
use index::push;
use names::Slot;
use parts::{Parts, parts_at};
use rows::row::{CLOSE, DECL, OPEN};

// How many scopes are open behind a row of this code.
fn behind(depth: usize, code: u8) -> usize
    requires { depth < 18446744073709551615 }
    ensures { (result ≡ depth_t depth code) × (result ≤ depth + 1) }
{
    if code == OPEN {
        return depth + 1;
    }
    if code == CLOSE {
        return if depth == 0 { 0 } else { depth - 1 };
    }
    depth
}

// Enters row i where this many scopes are open, if it is a DECL of the root.
#[tactic(auto, using(crate::proofs::Ways::entering))]
fn enter_row(
    p: Parts,
    i: usize,
    depth: usize,
    names: &mut [Slot],
    chains: &mut [u16],
    counts: &mut [Counts],
    used: usize,
) -> usize
    requires { Holds names.old chains.old used }
    ensures { ((result & names.new & counts.new) ≡ root_row_t p i depth used names.old counts.old) × Holds names.new chains.new result }
{
    if depth != 1 {
        return used;
    }
    if p.code != DECL {
        return used;
    }
    let number = count(counts, 1, p);
    let row = (i % 4294967296) as u32;
    push(names, chains, used, [p.b as u32, p.x, number, row, 0, 0])
}

// Where the rows are gone through: how many scopes are open, and how many slots are used.
#[derive(Clone, Copy)]
pub struct Cursor {
    pub depth: usize,
    pub used: usize,
}

// Goes over row i.
fn go_over(
    rows: &[u8],
    i: usize,
    names: &mut [Slot],
    chains: &mut [u16],
    counts: &mut [Counts],
    c: Cursor,
) -> Cursor
    requires { Holds names.old chains.old c.used × (i < length rows.now / 16) × (c.depth ≤ i) }
    ensures { ((result & names.new & counts.new) ≡ turn_t (parts_at rows.now i) i names.old counts.old c) × Holds names.new chains.new result.used × (result.depth ≤ i + 1) }
{
    let p = parts_at(rows, i);
    let used = enter_row(p, i, c.depth, names, chains, counts, c.used);
    Cursor {
        depth: behind(c.depth, p.code),
        used,
    }
}

// Enters the declarations of the root whose OPEN is the first row, and answers how many slots are used then.
pub fn enter_root(rows: &[u8], names: &mut [Slot], chains: &mut [u16]) -> usize
    requires { Holds names.old chains.old 0 }
    ensures { ((result & names.new) ≡ root_t names.old (rows_at rows.now 0)) × Holds names.new chains.new result }
{
    let n = rows.len() / 16;
    let mut counts: [Counts; 1] = [[0u32; 13]; 1];
    let mut c = Cursor { depth: 0, used: 0 };
    let mut i = 0;
    while i < n {
        c = go_over(rows, i, names, chains, &mut counts, c);
        i += 1;
    }
    c.used
}
