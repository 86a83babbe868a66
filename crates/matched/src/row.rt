// Whether two rows are the same, as far as they count: bit 0 of the choice ignores places, bit 1 which fresh name it is.
ghost use Rattle.std.specs.Prelude.{◌≡◌};
ghost use Rattle.comparing.specs.Compare.{blur_place, blur_name};
ghost use Rattle.comparing.specs.Laws.Parts.{is_name_x, is_name_y};
ghost use Rattle.parts.specs.PartsAt.{parts_at};
ghost use Rattle.matched.specs.Counted.{choice_of, number_t, counted_t, all_same, same_t};

use fixed::{FIRST_FRESH, LAST_NAME};
use parts::{Parts, parts_at};
use rows::row::{CASE, DECL, OPEN, OUTER, REF};

// A place as it counts.
fn place_counted(z: u32, choice: u32) -> u32
    ensures { result ≡ blur_place (choice_of choice) z }
{
    if choice % 2 == 1 { 0 } else { z }
}

// A name as it counts: all fresh names may count as the first.
fn name_counted(n: u32, choice: u32) -> u32
    ensures { result ≡ blur_name (choice_of choice) n }
{
    if choice / 2 % 2 == 1 {
        if LAST_NAME < n {
            return FIRST_FRESH;
        }
    }
    n
}

// Whether x of a row is a name.
fn is_name_x(code: u8, e: u32) -> bool
    ensures { result ≡ is_name_x code e }
{
    (code == DECL)
        | ((code == CASE) | ((code == OPEN) | (((code == REF) | (code == OUTER)) & (e % 2 == 1))))
}

// Whether y of a row is a name.
fn is_name_y(code: u8, e: u32) -> bool
    ensures { result ≡ is_name_y code e }
{
    (code == OUTER) & (e / 2 == 1)
}

// The number of an operand as it counts.
fn number_counted(n: u32, named: bool, choice: u32) -> u32
    ensures { result ≡ number_t (choice_of choice) named n }
{
    if named { name_counted(n, choice) } else { n }
}

// The parts of a row as they count.
fn counted(p: Parts, choice: u32) -> Parts
    ensures { result ≡ counted_t (choice_of choice) p }
{
    Parts {
        code: p.code,
        b: p.b,
        e: p.e,
        x: number_counted(p.x, is_name_x(p.code, p.e), choice),
        y: number_counted(p.y, is_name_y(p.code, p.e), choice),
        z: place_counted(p.z, choice),
    }
}

// Whether all six parts are the same.
fn all_same(p: Parts, q: Parts) -> bool
    ensures { result ≡ all_same p q }
{
    (p.code == q.code)
        & ((p.b == q.b) & ((p.e == q.e) & ((p.x == q.x) & ((p.y == q.y) & (p.z == q.z)))))
}

// Whether the left's row at i is the right's at j.
pub fn same_row(left: &[u8], i: usize, right: &[u8], j: usize, choice: u32) -> bool
    ensures { result ≡ same_t (choice_of choice) (parts_at left.now i) (parts_at right.now j) }
{
    all_same(
        counted(parts_at(left, i), choice),
        counted(parts_at(right, j), choice),
    )
}
