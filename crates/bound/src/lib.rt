// What a slot of a binding sheet is answered, on the rows of a resolved form.
//
// A resolved form has the REF rows of its input in their order, with their places, and those of inserted fields among them. An inserted
// field has one DECL, and its REF straight behind that. So the input's references at a place are the REF rows there that stand behind no
// inserted DECL, and nothing else need be known of the input.
#![tactic(auto)]

ghost use Rattle.std.specs.Prelude.{◌≡◌, ◌-◌};
ghost use Rattle.bound.specs.Bound.{is_reference, next_reference, reference_at, bound_at, binding_of};

use readings::final_meaning;
use row_parts::{code_at, is_inserted, rows_in, z_at};
use rows::row::REF;

// What a slot is bound to.
#[derive(Clone, Copy)]
pub enum Binding {
    // To a declaration of the slot's name.
    AsWritten,
    // To the declaration at that row; 0 if nothing is reached.
    Elsewhere(u16),
    NoReference,
    Several,
}

// The references at a place.
#[derive(Clone, Copy)]
pub enum Reference {
    Nothing,
    At(u16),
    Several,
}

// Whether a row is a reference at a place, in a field that is not inserted.
#[tactic(auto, using(crate::proofs::Ways::row_ways))]
fn is_reference(form: &[u8], row: u16, place: u32) -> bool
    ensures { result ≡ is_reference form.now row place }
{
    if code_at(form, row) == REF {
        if z_at(form, row) == place {
            return !is_inserted(form, row.saturating_sub(1));
        }
    }
    false
}

// The first such row from a row on; the number of rows, if there is none.
#[tactic(auto, using(crate::proofs::Ways::row_ways))]
fn next_reference(form: &[u8], place: u32, from: u16) -> u16
    ensures { result ≡ next_reference form.now place from }
{
    let rows = rows_in(form);
    for row in from..rows {
        if is_reference(form, row, place) {
            return row;
        }
    }
    from.max(rows)
}

// The reference at a place, if there is one and no more.
#[tactic(auto, using(crate::proofs::Ways::place_ways))]
pub fn reference_at(form: &[u8], place: u32) -> Reference
    ensures { result ≡ reference_at form.now place }
{
    let rows = rows_in(form);
    let row = next_reference(form, place, 0);
    if rows <= row {
        return Reference::Nothing;
    }
    if rows <= next_reference(form, place, row + 1) {
        return Reference::At(row);
    }
    Reference::Several
}

// What a reference is bound to: what it means in the end, which is a declaration of that name or not.
#[tactic(auto, using(crate::proofs::Ways::binding_ways))]
fn bound_at(form: &[u8], row: u16, name: u32) -> Binding
    ensures { result ≡ bound_at form.now row name }
{
    match final_meaning(form, row) {
        Some(reached) => {
            if reached.name == name {
                Binding::AsWritten
            } else {
                Binding::Elsewhere(reached.row)
            }
        }
        None => Binding::Elsewhere(0),
    }
}

// What a slot of that place and name is bound to.
#[tactic(auto, using(crate::proofs::Ways::binding_ways))]
pub fn binding_of(form: &[u8], place: u32, name: u32) -> Binding
    ensures { result ≡ binding_of form.now place name }
{
    match reference_at(form, place) {
        Reference::Nothing => Binding::NoReference,
        Reference::At(row) => bound_at(form, row, name),
        Reference::Several => Binding::Several,
    }
}
