// The operands of references on the rows of a form: where each is looked for, and by what.
#![tactic(auto)]

ghost use Rattle.std.specs.Prelude.{◌≡◌};
ghost use Rattle.operands.specs.Operands.{space_sought, is_walked, outer_wanted, index_key, key_of, is_inserted_outer};

use codes::here_only;
use row_parts::{OUTER, b_at, code_at, e_at, field_of, is_inserted, next, x_at, y_at};
use rows::row::REF;
use scopes::{Key, Wanted};

// The space in which a REF's operand is looked up: with PATHs, that of the instance where they start.
#[tactic(auto, using(crate::proofs::Laws::operand_ways))]
pub fn space_sought(form: &[u8], row: u16) -> u8
    ensures { result ≡ space_sought form.now row }
{
    let space = b_at(form, row);
    if y_at(form, row) == 0 {
        space
    } else if space < 7 {
        6
    } else {
        10
    }
}

// Whether a name is walked: that of a REF without PATHs, in a field that is not here_only_lem.
pub fn is_walked(form: &[u8], row: u16) -> bool
    ensures { result ≡ is_walked form.now row }
{
    (code_at(form, row) == REF)
        & (y_at(form, row) == 0)
        & !here_only(b_at(form, field_of(form, row)))
}

// A REF's operand.
pub fn key_of(form: &[u8], row: u16) -> Key
    ensures { result ≡ key_of form.now row }
{
    let x = x_at(form, row);
    if e_at(form, row) == 0 {
        Key::Number(x)
    } else {
        Key::Name(x)
    }
}

// The outer scope of an OUTER.
pub fn outer_wanted(e: u32, x: u32) -> Wanted
    ensures { result ≡ outer_wanted e x }
{
    if (e == 1) | (e == 3) {
        Wanted::Named(x)
    } else {
        Wanted::Out(x)
    }
}

// Its index there.
pub fn index_key(e: u32, y: u32) -> Key
    ensures { result ≡ index_key e y }
{
    if e < 2 { Key::Number(y) } else { Key::Name(y) }
}

// Whether a DECL row is that of an inserted outer alias.
pub fn is_inserted_outer(form: &[u8], decl: u16) -> bool
    ensures { result ≡ is_inserted_outer form.now decl }
{
    is_inserted(form, decl) & (code_at(form, next(decl)) == OUTER)
}
