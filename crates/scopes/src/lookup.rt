// Scopes and what they declare, found with the tables of a form.
ghost use Rattle.std.specs.Prelude.{◌≡◌, true, ◌+◌, ◌<◌, ◌≤◌};
ghost use Rattle.kit.specs.Pick.{pick};
ghost use Rattle.row_parts.specs.Parts.{rows_in};
ghost use Rattle.scopes.specs.Scopes.{find_in, declares_name, is_wanted, scope_outward};
ghost use Rattle.scopes.specs.Tables.{is_scope, kind_of, sought_by, is_sought, first_above, found_at, Scopes, Counts, Chains, Tabled, Known};

use crate::tables::{MOST, at, chain_of, is_declared, number_at, scope_at};
use crate::{Found, Key, Outer, Wanted, is_meant};
use row_parts::{rows_in, x_at};

// Whether a row is the first of a scope; the rows outside every OPEN are none.
fn is_scope(form: &[u8], known: &[u16], row: u16) -> bool
    requires { Scopes form.now known.now 4096 }
    ensures { result ≡ is_scope form.now row }
{
    (0 < row) & (row < rows_in(form)) & (scope_at(form, known, row) == row)
}

// What a key says a declaration has.
fn sought_by(key: Key) -> u32
    ensures { result ≡ sought_by key }
{
    match key {
        Key::Name(wanted) => wanted,
        Key::Number(wanted) => wanted,
        Key::Inserted => 0,
    }
}

// Whether a row is a declaration of a space in a scope that has a key.
fn is_sought(form: &[u8], known: &[u16], scope: u16, space: u8, key: Key, row: u16) -> bool
    requires { Scopes form.now known.now 4096 × Counts form.now known.now (row + 1) }
    ensures { result ≡ is_sought form.now scope space key row }
{
    let number = number_at(form, known, row) as u32;
    is_declared(form, known, scope, space, row) & is_meant(key, x_at(form, row), number)
}

fn chosen(test: bool, one: u16, other: u16) -> u16
    ensures { result ≡ pick test one other }
{
    if test { one } else { other }
}

// One more than the first row that is sought, 0 where there is none: the first of those on the chain of the key.
fn first_on(form: &[u8], known: &[u16], chains: &[u16], scope: u16, space: u8, key: Key) -> u16
    requires { Scopes form.now known.now 4096 × Counts form.now known.now (rows_in form.now) × Chains form.now (kind_of key) chains.now (rows_in form.now) × (0 < kind_of key) × (rows_in form.now ≤ 4096) }
    ensures { (result ≡ first_above form.now scope space key (rows_in form.now) 0) × (result ≤ rows_in form.now) }
{
    let mut next = at(chains, chain_of(scope, space, sought_by(key)));
    let mut first: u16 = 0;
    while 0 < next {
        let row = next - 1;
        first = chosen(is_sought(form, known, scope, space, key, row), next, first);
        next = at(chains, MOST + row as usize);
    }
    first
}

// The declaration at the row before.
fn found_at(form: &[u8], known: &[u16], behind: u16) -> Option<Found>
    requires { Counts form.now known.now behind }
    ensures { result ≡ found_at form.now behind }
{
    let row = behind.checked_sub(1)?;
    Some(Found {
        row,
        number: number_at(form, known, row) as u32,
    })
}

fn follow(
    form: &[u8],
    known: &[u16],
    chains: &[u16],
    scope: u16,
    space: u8,
    key: Key,
) -> Option<Found>
    requires { Scopes form.now known.now 4096 × Counts form.now known.now (rows_in form.now) × Chains form.now (kind_of key) chains.now (rows_in form.now) × (0 < kind_of key) × (rows_in form.now ≤ 4096) × (is_scope form.now scope ≡ true) }
    ensures { result ≡ find_in form.now scope space key }
{
    found_at(
        form,
        known,
        first_on(form, known, chains, scope, space, key),
    )
}

// The declaration of a space that a scope has by a name or a number, or its first inserted one, which is on no chain.
fn find_known(
    form: &[u8],
    known: &[u16],
    names: &[u16],
    numbers: &[u16],
    scope: u16,
    space: u8,
    key: Key,
) -> Option<Found>
    requires { Tabled form.now known.now names.now numbers.now }
    ensures { result ≡ find_in form.now scope space key }
{
    if !is_scope(form, known, scope) {
        return crate::find(form, scope, space, key);
    }
    match key {
        Key::Name(_) => follow(form, known, names, scope, space, key),
        Key::Number(_) => follow(form, known, numbers, scope, space, key),
        Key::Inserted => crate::find(form, scope, space, key),
    }
}

// The same, by the tables where they are lent.
pub fn find_with(
    form: &[u8],
    known: &[u16],
    names: &[u16],
    numbers: &[u16],
    scope: u16,
    space: u8,
    key: Key,
) -> Option<Found>
    requires { Known form.now known.now names.now numbers.now }
    ensures { result ≡ find_in form.now scope space key }
{
    if known.len() == 0 {
        crate::find(form, scope, space, key)
    } else {
        find_known(form, known, names, numbers, scope, space, key)
    }
}

// Whether a scope declares a name in a space.
fn declares_name(
    form: &[u8],
    known: &[u16],
    names: &[u16],
    numbers: &[u16],
    scope: u16,
    space: u8,
    name: u32,
) -> bool
    requires { Known form.now known.now names.now numbers.now }
    ensures { result ≡ declares_name form.now scope space name }
{
    find_with(form, known, names, numbers, scope, space, Key::Name(name)).is_some()
}

// Whether a scope that is `out` scopes out is the one that is wanted.
fn is_wanted(
    form: &[u8],
    known: &[u16],
    names: &[u16],
    numbers: &[u16],
    scope: u16,
    out: u32,
    wanted: Wanted,
) -> bool
    requires { Known form.now known.now names.now numbers.now × (0 < scope) }
    ensures { result ≡ is_wanted form.now scope out wanted }
{
    match wanted {
        Wanted::Out(count) => out == count,
        Wanted::Named(name) => x_at(form, scope - 1) == name,
        Wanted::Declaring { space, name } => {
            declares_name(form, known, names, numbers, scope, space, name)
        }
    }
}

// The first scope that is wanted, from a scope outward, that scope included.
pub fn scope_outward_with(
    form: &[u8],
    known: &[u16],
    names: &[u16],
    numbers: &[u16],
    scope: u16,
    wanted: Wanted,
) -> Option<Outer>
    requires { Known form.now known.now names.now numbers.now }
    ensures { result ≡ scope_outward form.now scope wanted }
{
    let mut around = scope;
    let mut out: u32 = 0;
    while 0 < around {
        if is_wanted(form, known, names, numbers, around, out, wanted) {
            return Some(Outer { scope: around, out });
        }
        around = scope_at(form, known, around - 1);
        out += 1;
    }
    None
}
