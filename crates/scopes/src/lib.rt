// Scopes and what they declare, found by going through the rows, or with the tables of a form where they are lent. Which scope a row has, and
// which number a declaration, is in `scope_rows`.
//
// A scope is known by its first row, the one behind its OPEN. The rows outside every OPEN have 0 for theirs.
#![tactic(auto)]

mod lookup;
pub mod tables;

ghost use Rattle.std.specs.Prelude.{◌≡◌};
ghost use Rattle.scopes.specs.Scopes.{is_meant, find_in, scope_outward};

pub use crate::lookup::{find_with, scope_outward_with};
use row_parts::{FIRST_FRESH, code_at, counted, rows_in, x_at};
use rows::row::CLOSE;
use scope_rows::{declares, is_bound};
pub use scope_rows::{level_behind, number_of, scope_of};

// What a declaration is looked for by.
#[derive(Clone, Copy)]
pub enum Key {
    Name(u32),
    Number(u32),
    // The first inserted one.
    Inserted,
}

// The DECL row of a declaration, and its number.
#[derive(Clone, Copy)]
pub struct Found {
    pub row: u16,
    pub number: u32,
}

// Which scope is looked for, going outward.
#[derive(Clone, Copy)]
pub enum Wanted {
    // The one this many scopes out.
    Out(u32),
    // One of that name.
    Named(u32),
    // One that declares a name in a space.
    Declaring { space: u8, name: u32 },
}

// A scope, and how many scopes out it is.
#[derive(Clone, Copy)]
pub struct Outer {
    pub scope: u16,
    pub out: u32,
}

// Whether a declaration of that name and number has the key; 0 is no name.
pub fn is_meant(key: Key, name: u32, number: u32) -> bool
    ensures { result ≡ is_meant key name number }
{
    match key {
        Key::Name(wanted) => (wanted != 0) & (wanted == name),
        Key::Number(wanted) => wanted == number,
        Key::Inserted => FIRST_FRESH <= name,
    }
}

// The declaration of a space that a scope has by a name or a number, or its first inserted one.
pub fn find(form: &[u8], scope: u16, space: u8, key: Key) -> Option<Found>
    ensures { result ≡ find_in form.now scope space key }
{
    let rows = rows_in(form);
    let mut row = scope;
    let mut level: u32 = 0;
    let mut number: u32 = 0;
    while row < rows {
        let code = code_at(form, row);
        if is_bound(level, code, CLOSE) {
            return None;
        }
        let is_declaration = declares(form, row, level, space);
        let name = x_at(form, row);
        if is_declaration & is_meant(key, name, number) {
            return Some(Found { row, number });
        }
        number = counted(number, is_declaration);
        level = level_behind(level, code);
        row += 1;
    }
    None
}

// The first scope that is wanted, from a scope outward, that scope included.
pub fn scope_outward(form: &[u8], scope: u16, wanted: Wanted) -> Option<Outer>
    ensures { result ≡ scope_outward form.now scope wanted }
{
    scope_outward_with(form, &[], &[], &[], scope, wanted)
}
