// The names of a form, each once in a table with its number, and rows that have numbers for names.
ghost use Rattle.std.specs.Prelude.{◌≡◌, ◌+◌, ◌<◌, ◌≤◌, length};
ghost use Rattle.renaming.specs.Renaming.{name_in};
ghost use Rattle.anonymise.specs.Seen.{Knows, Enters, new_name};
ghost use Rattle.anonymise.specs.Renamed.{input_row, index_names_t, row_names_t, renamed_index_t, renamed_row_t};

use fixed::{FIRST_FRESH, LAST_NAME};
use index::{find, push};
use names::Slot;
use rows::row::{Index, Row, row_to};

// The space under which all names are entered.
const NAMES: u32 = 0;

// The row at i of an input, Broken where there is none.
pub(crate) fn input_row(rows: &[u8], i: usize) -> Row
    ensures { result ≡ input_row rows.now i }
{
    row_to(rows, i, LAST_NAME)
}

// ---- names are entered

// Enters a name that is not there yet, and answers how many there are then. 0 is no name.
fn enter(table: &mut [Slot], index: &mut [u16], used: usize, name: u32) -> usize
    requires { Knows table.old index.old used × (used < length table.old) }
    ensures { Enters table.old used (name_in name) table.new index.new result }
{
    if name == 0 {
        return used;
    }
    match find(table, index, 0, used, NAMES, name) {
        Some(_) => used,
        None => push(
            table,
            index,
            used,
            [NAMES, name, (used + 1) as u32, 0, 0, 0],
        ),
    }
}

// Enters the name of an operand that is one.
fn enter_index(table: &mut [Slot], index: &mut [u16], used: usize, at: Index) -> usize
    requires { Knows table.old index.old used × (used < length table.old) }
    ensures { Enters table.old used (index_names_t at) table.new index.new result }
{
    match at {
        Index::Number(_) => used,
        Index::Name(name) => enter(table, index, used, name),
    }
}

// Enters the names of the row at i.
pub(crate) fn enter_row(
    rows: &[u8],
    i: usize,
    table: &mut [Slot],
    index: &mut [u16],
    used: usize,
) -> usize
    requires { Knows table.old index.old used × (used + 2 ≤ length table.old) }
    ensures { Enters table.old used (row_names_t (input_row rows.now i)) table.new index.new result }
{
    match input_row(rows, i) {
        Row::Decl {
            space: _,
            name,
            z: _,
        } => enter(table, index, used, name),
        Row::Ref {
            space: _,
            at,
            paths: _,
            z: _,
        } => enter_index(table, index, used, at),
        Row::Outer {
            space: _,
            up,
            at,
            z: _,
        } => {
            let more = enter_index(table, index, used, up);
            enter_index(table, index, more, at)
        }
        Row::Case { name, z: _ } => enter(table, index, used, name),
        Row::Open { kind: _, name } => enter(table, index, used, name),
        _ => used,
    }
}

// ---- and numbered

// The number of a name: its place among those that were entered, and the next where it is not there. What is no name of an
// input stays.
fn number(table: &[Slot], index: &[u16], used: usize, name: u32) -> u32
    requires { Knows table.now index.now used }
    ensures { result ≡ new_name table.now used name }
{
    if name == 0 {
        return name;
    }
    if FIRST_FRESH <= name {
        return name;
    }
    match find(table, index, 0, used, NAMES, name) {
        Some(number) => number,
        None => (used + 1) as u32,
    }
}

// An operand with its number for its name.
fn number_at(table: &[Slot], index: &[u16], used: usize, at: Index) -> Index
    requires { Knows table.now index.now used }
    ensures { result ≡ renamed_index_t (new_name table.now used) at }
{
    match at {
        Index::Number(n) => Index::Number(n),
        Index::Name(name) => Index::Name(number(table, index, used, name)),
    }
}

// A row with numbers for its names.
pub(crate) fn renamed_row(table: &[Slot], index: &[u16], used: usize, row: Row) -> Row
    requires { Knows table.now index.now used }
    ensures { result ≡ renamed_row_t (new_name table.now used) row }
{
    match row {
        Row::Decl { space, name, z } => {
            let name = number(table, index, used, name);
            Row::Decl { space, name, z }
        }
        Row::Ref {
            space,
            at,
            paths,
            z,
        } => {
            let at = number_at(table, index, used, at);
            Row::Ref {
                space,
                at,
                paths,
                z,
            }
        }
        Row::Outer { space, up, at, z } => {
            let up = number_at(table, index, used, up);
            let at = number_at(table, index, used, at);
            Row::Outer { space, up, at, z }
        }
        Row::Case { name, z } => {
            let name = number(table, index, used, name);
            Row::Case { name, z }
        }
        Row::Open { kind, name } => {
            let scope = number(table, index, used, name);
            Row::Open { kind, name: scope }
        }
        _ => row,
    }
}
