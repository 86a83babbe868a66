// Written numbers, on the rows of an input and of its output: what one meant in the input, and what it gets in the output.
//
// In the output a scope has the input's declarations in their order, and inserted ones among them. So a number that is below that of the
// first inserted declaration of its space stays, and any other moves.
#![tactic(auto)]

ghost use Rattle.std.specs.Prelude.{◌≡◌};
ghost use Rattle.numbers.specs.Entries.{is_written, number_at, scope_wanted, is_pushed, gets_entry, output_entry, counted_entry, entry_at};

use readings::{outer_wanted, space_sought};
use row_parts::{OUTER, b_at, code_at, e_at, x_at, y_at, z_at};
use rows::row::REF;
use scopes::{Found, Key, Outer, Wanted, find, scope_of, scope_outward};

// What is listed of a row.
#[derive(Clone, Copy)]
pub enum Entry {
    // Its number means another declaration than it did: place, space, the DECL row that it meant in the input, the one that it gets in
    // the output.
    Moved {
        z: u32,
        space: u8,
        meant: u16,
        gets: u16,
    },
    // The input has no item of that number: place, space, number.
    Apart {
        z: u32,
        space: u8,
        number: u32,
    },
}

// A number: the place of its row, the space in which it is counted.
#[derive(Clone, Copy)]
pub struct Number {
    pub z: u32,
    pub space: u8,
    pub number: u32,
}

// Whether a row has a number: a REF that is one, or an OUTER whose index is one.
fn is_written(form: &[u8], row: u16) -> bool
    ensures { result ≡ is_written form.now row }
{
    let code = code_at(form, row);
    let e = e_at(form, row);
    ((code == REF) & (e == 0)) | ((code == OUTER) & (e < 2))
}

// The number of such a row. With PATHs it is that of the instance where they start.
fn number_at(form: &[u8], row: u16) -> Number
    ensures { result ≡ number_at form.now row }
{
    let z = z_at(form, row);
    let code = code_at(form, row);
    if code == OUTER {
        return Number {
            z,
            space: b_at(form, row),
            number: y_at(form, row),
        };
    }
    Number {
        z,
        space: space_sought(form, row),
        number: x_at(form, row),
    }
}

// The scope that it is counted in: of a REF its own, of an OUTER the one that it names.
#[tactic(auto, using(crate::proofs::Ways::ways))]
fn scope_wanted(form: &[u8], row: u16) -> Wanted
    ensures { result ≡ scope_wanted form.now row }
{
    if code_at(form, row) == OUTER {
        outer_wanted(e_at(form, row), x_at(form, row))
    } else {
        Wanted::Out(0)
    }
}

// Whether a number moves in a scope of the output: an inserted declaration has it or a lower one.
fn is_pushed(out: &[u8], scope: u16, n: Number) -> bool
    ensures { result ≡ is_pushed out.now scope n }
{
    match find(out, scope, n.space, Key::Inserted) {
        Some(Found { number, .. }) => number <= n.number,
        None => false,
    }
}

// A number that meant something in the input, in its scope of the output.
fn gets_entry(out: &[u8], scope: u16, n: Number, meant: u16) -> Option<Entry>
    ensures { result ≡ gets_entry out.now scope n meant }
{
    if !is_pushed(out, scope, n) {
        return None;
    }
    let Found { row, .. } = find(out, scope, n.space, Key::Number(n.number))?;
    Some(Entry::Moved {
        z: n.z,
        space: n.space,
        meant,
        gets: row,
    })
}

// The same, this many scopes out from a row of the output.
fn output_entry(out: &[u8], at: u16, away: u32, n: Number, meant: u16) -> Option<Entry>
    ensures { result ≡ output_entry out.now at away n meant }
{
    let Outer { scope, .. } = scope_outward(out, scope_of(out, at), Wanted::Out(away))?;
    gets_entry(out, scope, n, meant)
}

// A number in its scope of the input, which is this many scopes out.
fn counted_entry(
    form: &[u8],
    scope: u16,
    away: u32,
    n: Number,
    out: &[u8],
    at: u16,
) -> Option<Entry>
    ensures { result ≡ counted_entry form.now scope away n out.now at }
{
    match find(form, scope, n.space, Key::Number(n.number)) {
        Some(Found { row, .. }) => output_entry(out, at, away, n, row),
        None => Some(Entry::Apart {
            z: n.z,
            space: n.space,
            number: n.number,
        }),
    }
}

// What is listed of a row of the input, where `at` is a row of the output in the same scope. A number whose scope does not exist is not
// listed.
pub fn entry_at(form: &[u8], row: u16, out: &[u8], at: u16) -> Option<Entry>
    ensures { result ≡ entry_at form.now row out.now at }
{
    if !is_written(form, row) {
        return None;
    }
    let Outer { scope, out: away } = scope_outward(
        form,
        scope_of(form, row),
        scope_wanted(form, row),
    )?;
    counted_entry(form, scope, away, number_at(form, row), out, at)
}
