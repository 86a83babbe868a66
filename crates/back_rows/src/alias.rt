// An inserted field: an alias of an export, or of an outer item, with a fresh name.
ghost use Rattle.std.specs.Prelude.{◌≡◌, ◌≤◌};
ghost use Rattle.back_rows.specs.Below.{below};
ghost use Rattle.back_rows.specs.Alias.{no_parts, no_alias_t, alias_of_t, alias_before_t, for_t, is_linked_t};

use back_notes::note::{Note, note_at};
use fixed::{FIRST_FRESH, INSTANCE};
use parts::{Parts, parts_at};
use rows::row::{DECL, EXPORT, OUTER};

// The code of a field that is an alias of an instance's export.
const OF_EXPORT: u8 = 9;

// How many rows it has, and the first of them: none, and the row behind it, where the rows are no inserted field. Its FIELD, its
// DECL and the DECL's number, its operand; and the number of the export, or the name of the outer item.
#[derive(Clone, Copy)]
pub struct Alias {
    pub size: usize,
    pub start: usize,
    pub field: Parts,
    pub decl: Parts,
    pub number: u32,
    pub operand: Parts,
    pub value: u32,
}

// No row.
fn no_parts() -> Parts
    ensures { result ≡ no_parts }
{
    Parts {
        code: 0,
        b: 0,
        e: 0,
        x: 0,
        y: 0,
        z: 0,
    }
}

// No inserted field ends before the row `end`.
fn no_alias(end: usize) -> Alias
    ensures { result ≡ no_alias_t end }
{
    let none = no_parts();
    Alias {
        size: 0,
        start: end,
        field: none,
        decl: none,
        number: 0,
        operand: none,
        value: 0,
    }
}

// The inserted field of this many rows that end before the row `end`.
fn alias_of(rows: &[u8], noted: &[Note], end: usize, size: usize, value: u32) -> Alias
    requires { (3 ≤ size) × (size ≤ end) }
    ensures { result ≡ alias_of_t size value (below rows.now noted.now end) }
{
    let start = end - size;
    let decl = parts_at(rows, start + 1);
    if decl.code != DECL {
        return no_alias(end);
    }
    if decl.x < FIRST_FRESH {
        return no_alias(end);
    }
    Alias {
        size,
        start,
        field: parts_at(rows, start),
        decl,
        number: note_at(noted, start + 1)[0],
        operand: parts_at(rows, start + 2),
        value,
    }
}

// The inserted field that ends before the row `end`. An alias of an export has four rows, the last an EXPORT; one of an outer
// item has three, the last an OUTER.
pub(crate) fn alias_before(rows: &[u8], noted: &[Note], end: usize) -> Alias
    ensures { result ≡ alias_before_t (below rows.now noted.now end) }
{
    if end < 4 {
        return no_alias(end);
    }
    let last = parts_at(rows, end - 1);
    if last.code == EXPORT {
        return alias_of(rows, noted, end, 4, last.x);
    }
    if last.code == OUTER {
        return alias_of(rows, noted, end, 3, note_at(noted, end - 1)[0]);
    }
    no_alias(end)
}

// Whether the reference p counts to the alias, from the same place.
pub(crate) fn is_for(a: Alias, p: Parts) -> bool
    ensures { result ≡ for_t a p }
{
    (a.size != 0) & ((a.decl.b == p.b) & ((a.decl.z == p.z) & (a.number == p.x)))
}

// Whether b goes on with the path of a: both are aliases of exports of instances, at the same place, and b's instance is a.
pub(crate) fn is_linked(a: Alias, b: Alias) -> bool
    ensures { result ≡ is_linked_t a b }
{
    (a.size != 0)
        & ((a.field.b == OF_EXPORT)
            & ((b.field.b == OF_EXPORT)
                & ((a.decl.b == INSTANCE)
                    & ((a.field.z == b.field.z) & (a.number == b.operand.x)))))
}
