// What a reference on the rows of a form means: outward where it is a walked name, by counting where it is a number, or looked up in one
// scope. It takes any bytes. Whoever has the tables of a form lends them, and whoever has none lends nothing.
#![tactic(auto)]

ghost use Rattle.std.specs.Prelude.{◌≡◌};
ghost use Rattle.scopes.specs.Tables.{Known};
ghost use Rattle.readings.specs.Meaning.{reading_of, is_outward, meant, outward_for, through_outer, meaning_of, final_meaning};

use operands::{index_key, is_walked, key_of};
pub use operands::{is_inserted_outer, outer_wanted, space_sought};
use row_parts::{OUTER, b_at, code_at, e_at, next, x_at, y_at};
use scopes::tables::scope_at;
use scopes::{Found, Key, Outer, Wanted, find_with, scope_outward_with};

// The DECL row that is meant, its number in its scope, how many scopes out that is, and its name.
#[derive(Clone, Copy)]
pub struct Meaning {
    pub row: u16,
    pub number: u32,
    pub out: u32,
    pub name: u32,
}

// How the operand of a row is read.
#[derive(Clone, Copy)]
pub enum Reading {
    // Outward, scope by scope.
    Outward,
    // A name that is looked up in one scope.
    LookedUp,
    // A number.
    Counting,
}

// How a REF or an OUTER is read.
#[tactic(auto, using(crate::proofs::MeaningLaws::meaning_ways))]
pub fn reading_of(form: &[u8], row: u16) -> Reading
    ensures { result ≡ reading_of form.now row }
{
    if e_at(form, row) == 0 {
        Reading::Counting
    } else if is_walked(form, row) {
        Reading::Outward
    } else {
        Reading::LookedUp
    }
}

// Whether a reference is read outward.
pub fn is_outward(form: &[u8], row: u16) -> bool
    ensures { result ≡ is_outward (reading_of form.now row) }
{
    match reading_of(form, row) {
        Reading::Outward => true,
        Reading::LookedUp => false,
        Reading::Counting => false,
    }
}

// What was found, `out` scopes out.
fn meant(form: &[u8], found: Option<Found>, out: u32) -> Option<Meaning>
    ensures { result ≡ meant form.now found out }
{
    let Found { row, number } = found?;
    Some(Meaning {
        row,
        number,
        out,
        name: x_at(form, row),
    })
}

// A name by the outward reading: the innermost scope around a row that declares it.
fn outward(
    form: &[u8],
    known: &[u16],
    names: &[u16],
    numbers: &[u16],
    row: u16,
    space: u8,
    name: u32,
) -> Option<Meaning>
    requires { Known form.now known.now names.now numbers.now }
    ensures { result ≡ outward_for form.now row space name }
{
    let Outer { scope, out } = scope_outward_with(
        form,
        known,
        names,
        numbers,
        scope_at(form, known, row),
        Wanted::Declaring { space, name },
    )?;
    meant(
        form,
        find_with(form, known, names, numbers, scope, space, Key::Name(name)),
        out,
    )
}

// The declaration at an OUTER's index in its outer scope, found with the tables of the form where they are lent.
pub fn through_outer_with(
    form: &[u8],
    known: &[u16],
    names: &[u16],
    numbers: &[u16],
    row: u16,
) -> Option<Meaning>
    requires { Known form.now known.now names.now numbers.now }
    ensures { result ≡ through_outer form.now row }
{
    let e = e_at(form, row);
    let Outer { scope, out } = scope_outward_with(
        form,
        known,
        names,
        numbers,
        scope_at(form, known, row),
        outer_wanted(e, x_at(form, row)),
    )?;
    meant(
        form,
        find_with(
            form,
            known,
            names,
            numbers,
            scope,
            b_at(form, row),
            index_key(e, y_at(form, row)),
        ),
        out,
    )
}

// The declaration that a REF or an OUTER means, found with the tables of the form where they are lent; a number counts in its own scope, and no
// alias is followed.
pub fn meaning_with(
    form: &[u8],
    known: &[u16],
    names: &[u16],
    numbers: &[u16],
    row: u16,
) -> Option<Meaning>
    requires { Known form.now known.now names.now numbers.now }
    ensures { result ≡ meaning_of form.now row }
{
    if code_at(form, row) == OUTER {
        return through_outer_with(form, known, names, numbers, row);
    }
    let space = space_sought(form, row);
    if is_outward(form, row) {
        return outward(form, known, names, numbers, row, space, x_at(form, row));
    }
    meant(
        form,
        find_with(
            form,
            known,
            names,
            numbers,
            scope_at(form, known, row),
            space,
            key_of(form, row),
        ),
        0,
    )
}

// The declaration at an OUTER's index in its outer scope.
pub fn through_outer(form: &[u8], row: u16) -> Option<Meaning>
    ensures { result ≡ through_outer form.now row }
{
    through_outer_with(form, &[], &[], &[], row)
}

// The declaration that a REF or an OUTER means; a number counts in its own scope, and no alias is followed.
pub fn meaning_of(form: &[u8], row: u16) -> Option<Meaning>
    ensures { result ≡ meaning_of form.now row }
{
    meaning_with(form, &[], &[], &[], row)
}

// What a reference means in the end: behind an inserted outer alias, the declaration that the alias's OUTER counts to.
pub fn final_meaning(form: &[u8], row: u16) -> Option<Meaning>
    ensures { result ≡ final_meaning form.now row }
{
    let meaning = meaning_of(form, row)?;
    let decl = meaning.row;
    if is_inserted_outer(form, decl) {
        through_outer(form, next(decl))
    } else {
        Some(meaning)
    }
}
