// A form's rows as the planner of fewer aliases runs the steps on them: in each scope every later reference to an outer
// declaration names the alias that the first one will get.
//
// Insertions are counted as the steps count them, all of a scope's before those of the scopes inside it, so scopes are marked in
// the order of their OPEN rows. The table has the names that a scope declares, and behind them those that have an alias already,
// with the alias's name as their number.
#![tactic(auto)]

ghost use Rattle.std.specs.Prelude.{◌≡◌, ◌/◌, ◌≤◌, is_some, length, slice_index};
ghost use Rattle.kit.specs.Out.{◌&◌};
ghost use Rattle.put.specs.Put.{copy_row};
ghost use Rattle.names.specs.Table.{between, find_in};
ghost use Rattle.index.specs.Indexed.{Holds, Covers};
ghost use Rattle.mark.specs.Visits.{visits_behind_t, visit_step_t, place_at, visits_t};
ghost use Rattle.mark.specs.MarkedRows.{Serves, left_by, enter_row_t, enter_all, serve_t, insert_marked_t, mark_outer_t, mark_name_t, mark_ref_t, mark_row_t, mark_all, mark_scope_t, mark_open_t, scopes_t, copies_t, mark_rows_t};

use codes::here_only;
use fixed::FIRST_FRESH;
use index::{find, leave, push};
use names::Slot;
use parts::{Parts, parts_at};
use put::{copy_row, put_row};
use rows::row::{CLOSE, DECL, FIELD, Index, OPEN, REF, Row};
use std::num::wrapping_add_u32;

// ---- the rows of one scope

// Where a scope is gone through: the row at hand, the row past the field at hand, and whether that field's names are walked.
#[derive(Clone, Copy)]
pub struct Place {
    pub row: usize,
    pub end: usize,
    pub walked: bool,
}

// The row past the field that begins at a row, as it was noted; 0 where none was.
fn end_of(ends: &[u32], row: usize) -> usize
    ensures { result ≡ slice_index ends.now row }
{
    if row < ends.len() {
        ends[row] as usize
    } else {
        0
    }
}

// The row behind a row of `count`; past the last there is none.
fn behind(row: usize, count: usize) -> usize
    ensures { result ≡ visits_behind_t count row }
{
    if row < count { row + 1 } else { row }
}

// On from the row at hand, whose parts these are: the scope that a field holds is passed over.
fn step(p: Parts, at: Place, ends: &[u32], count: usize) -> Place
    ensures { result ≡ visit_step_t ends.now count p at }
{
    if p.code == FIELD {
        return Place {
            row: behind(at.row, count),
            end: end_of(ends, at.row),
            walked: !here_only(p.b),
        };
    }
    if p.code == OPEN {
        return Place {
            row: at.end,
            end: at.end,
            walked: at.walked,
        };
    }
    Place {
        row: behind(at.row, count),
        end: at.end,
        walked: at.walked,
    }
}

// ---- what it declares

// Enters a DECL, and answers how many slots are used then.
fn enter_row(p: Parts, table: &mut [Slot], index: &mut [u16], used: usize) -> usize
    requires { Holds table.old index.old used }
    ensures { ((result & table.new) ≡ enter_row_t p table.old used) × Holds table.new index.new result }
{
    if p.code == DECL {
        return push(table, index, used, [p.b as u32, p.x, 0, 0, 0, 0]);
    }
    used
}

// Enters the DECLs of the scope whose first row this is. A scope has no more rows than the form.
fn enter_scope(
    rows: &[u8],
    ends: &[u32],
    first: usize,
    table: &mut [Slot],
    index: &mut [u16],
) -> usize
    requires { Holds table.old index.old 0 }
    ensures { ((result & table.new) ≡ enter_all (visits_t rows.now ends.now (length rows.now / 16) (place_at first)) table.old 0) × Holds table.new index.new result }
{
    let count = rows.len() / 16;
    let mut used = 0;
    let mut at = Place {
        row: first,
        end: first,
        walked: false,
    };
    for _ in 0..count {
        let p = parts_at(rows, at.row);
        if p.code == CLOSE {
            return used;
        }
        used = enter_row(p, table, index, used);
        at = step(p, at, ends, count);
    }
    used
}

// ---- what it refers to

// What is carried through a scope: how many names it declares, how many slots are used with those that have an alias, and the
// name of the next insertion.
#[derive(Clone, Copy)]
pub struct Marking {
    pub own: usize,
    pub used: usize,
    pub fresh: u32,
}

// Whether the scope declares a name.
fn is_own(table: &[Slot], index: &[u16], own: usize, space: u32, name: u32) -> bool
    requires { Covers table.now index.now own }
    ensures { result ≡ is_some (find_in (between 0 own table.now) space name) }
{
    find(table, index, 0, own, space, name).is_some()
}

// The next insertion is the alias of a name that has none yet.
fn insert(p: Parts, table: &mut [Slot], index: &mut [u16], m: Marking) -> Marking
    requires { Serves m table.old index.old }
    ensures { ((result & table.new) ≡ insert_marked_t p m table.old) × Serves result table.new index.new }
{
    let fresh = m.fresh;
    let used = push(table, index, m.used, [p.b as u32, p.x, fresh, 0, 0, 0]);
    Marking {
        own: m.own,
        used,
        fresh: wrapping_add_u32(fresh, 1),
    }
}

// Names the alias in place of what is declared further out.
fn rename(p: Parts, row: usize, alias: u32, marked: &mut [u8])
    ensures { marked.new ≡ serve_t p row alias marked.old }
{
    put_row(
        marked,
        row,
        Row::Ref {
            space: p.b,
            at: Index::Name(alias),
            paths: 0,
            z: p.z,
        },
    );
}

// A name that the scope does not declare: one that has an alias is named by it, and any other gets the next one.
fn mark_outer(
    p: Parts,
    row: usize,
    marked: &mut [u8],
    table: &mut [Slot],
    index: &mut [u16],
    m: Marking,
) -> Marking
    requires { Serves m table.old index.old }
    ensures { ((result & table.new & marked.new) ≡ mark_outer_t (find_in (between m.own m.used table.old) p.b p.x) p row m table.old marked.old) × Serves result table.new index.new }
{
    match find(table, index, m.own, m.used, p.b as u32, p.x) {
        Some(alias) => {
            rename(p, row, alias, marked);
            m
        }
        None => insert(p, table, index, m),
    }
}

// A walked name: one that the scope declares stays.
fn mark_name(
    p: Parts,
    row: usize,
    marked: &mut [u8],
    table: &mut [Slot],
    index: &mut [u16],
    m: Marking,
) -> Marking
    requires { Serves m table.old index.old }
    ensures { ((result & table.new & marked.new) ≡ mark_name_t p row m table.old marked.old) × Serves result table.new index.new }
{
    if is_own(table, index, m.own, p.b as u32, p.x) {
        return m;
    }
    mark_outer(p, row, marked, table, index, m)
}

// A reference: each of its PATHs is an insertion, and a number stays.
fn mark_ref(
    p: Parts,
    row: usize,
    marked: &mut [u8],
    table: &mut [Slot],
    index: &mut [u16],
    m: Marking,
) -> Marking
    requires { Serves m table.old index.old }
    ensures { ((result & table.new & marked.new) ≡ mark_ref_t p row m table.old marked.old) × Serves result table.new index.new }
{
    if 0 < p.y {
        return Marking {
            own: m.own,
            used: m.used,
            fresh: wrapping_add_u32(m.fresh, p.y),
        };
    }
    if p.e == 0 {
        return m;
    }
    mark_name(p, row, marked, table, index, m)
}

// The row at hand: operands that are looked up here only, and rows that are no REF, are passed over.
fn mark_row(
    p: Parts,
    at: Place,
    marked: &mut [u8],
    table: &mut [Slot],
    index: &mut [u16],
    m: Marking,
) -> Marking
    requires { Serves m table.old index.old }
    ensures { ((result & table.new & marked.new) ≡ mark_row_t p at.row at.walked m table.old marked.old) × Serves result table.new index.new }
{
    if at.walked {
        if p.code == REF {
            return mark_ref(p, at.row, marked, table, index, m);
        }
    }
    m
}

// Marks the references of the scope whose first row this is.
fn mark_scope_rows(
    rows: &[u8],
    ends: &[u32],
    first: usize,
    marked: &mut [u8],
    table: &mut [Slot],
    index: &mut [u16],
    start: Marking,
) -> Marking
    requires { Serves start table.old index.old }
    ensures { ((result & table.new & marked.new) ≡ mark_all (visits_t rows.now ends.now (length rows.now / 16) (place_at first)) start table.old marked.old) × Serves result table.new index.new }
{
    let count = rows.len() / 16;
    let mut m = start;
    let mut at = Place {
        row: first,
        end: first,
        walked: false,
    };
    for _ in 0..count {
        let p = parts_at(rows, at.row);
        if p.code == CLOSE {
            return m;
        }
        m = mark_row(p, at, marked, table, index, m);
        at = step(p, at, ends, count);
    }
    m
}

// Marks the scope whose first row this is, and answers the name of the next insertion. The table is free again then.
fn mark_scope(
    rows: &[u8],
    ends: &[u32],
    first: usize,
    marked: &mut [u8],
    table: &mut [Slot],
    index: &mut [u16],
    fresh: u32,
) -> u32
    requires { Holds table.old index.old 0 }
    ensures { ((result & table.new & marked.new) ≡ mark_scope_t rows.now ends.now first fresh table.old marked.old) × Holds table.new index.new 0 }
{
    let own = enter_scope(rows, ends, first, table, index);
    let start = Marking {
        own,
        used: own,
        fresh,
    };
    let m = mark_scope_rows(rows, ends, first, marked, table, index, start);
    leave(table, index, 0, m.used);
    m.fresh
}

// ---- all scopes

// Marks the scope that the row at i opens, if it opens one.
fn mark_at(
    rows: &[u8],
    ends: &[u32],
    i: usize,
    marked: &mut [u8],
    table: &mut [Slot],
    index: &mut [u16],
    fresh: u32,
) -> u32
    requires { Holds table.old index.old 0 × (i ≤ length rows.now / 16) }
    ensures { ((result & table.new & marked.new) ≡ mark_open_t rows.now ends.now i fresh table.old marked.old) × Holds table.new index.new 0 }
{
    if parts_at(rows, i).code == OPEN {
        return mark_scope(rows, ends, i + 1, marked, table, index, fresh);
    }
    fresh
}

// Marks all scopes, in the order of their OPEN rows.
fn mark_scopes(rows: &[u8], ends: &[u32], marked: &mut [u8], table: &mut [Slot], index: &mut [u16])
    requires { Holds table.old index.old 0 }
    ensures { ((table.new & marked.new) ≡ scopes_t rows.now ends.now 0 (length rows.now / 16) 2147483648 table.old marked.old) × Holds table.new index.new 0 }
{
    let count = rows.len() / 16;
    let mut fresh = FIRST_FRESH;
    for i in 0..count {
        fresh = mark_at(rows, ends, i, marked, table, index, fresh);
    }
}

// Copies the row at i to its own place.
fn copy_at(rows: &[u8], i: usize, marked: &mut [u8])
    ensures { marked.new ≡ left_by (copy_row rows.now i marked.old i) }
{
    copy_row(rows, i, marked, i);
}

// Copies the rows, as many as there is room for.
fn copy_rows(rows: &[u8], marked: &mut [u8])
    ensures { marked.new ≡ copies_t rows.now 0 (length rows.now / 16) marked.old }
{
    let count = rows.len() / 16;
    for i in 0..count {
        copy_at(rows, i, marked);
    }
}

// Writes the rows of a form to `marked`, with every later reference to an outer declaration naming the alias that the first one
// in its scope will get. `ends` has the row past each field.
pub fn mark_rows(
    rows: &[u8],
    ends: &[u32],
    marked: &mut [u8],
    table: &mut [Slot],
    index: &mut [u16],
)
    requires { Holds table.old index.old 0 }
    ensures { ((table.new & marked.new) ≡ mark_rows_t rows.now ends.now table.old marked.old) × Holds table.new index.new 0 }
{
    copy_rows(rows, marked);
    mark_scopes(rows, ends, marked, table, index);
}
