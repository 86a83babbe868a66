// Which declaration a name of a member means, where the member lies inside a prelude's root: it is looked for in the member as in a
// form by itself, and behind all scopes of the member in the root of the prelude.
//
// Both forms are lent, and looked at by their rows alone. They are of version 1 or 2; any bytes will do.
#![tactic(auto)]

ghost use Rattle.std.specs.Prelude.{◌≡◌};
ghost use Rattle.meant.specs.Names.{in_member, in_root, walked_meant_t, has_scope, is_root_t, outer_wanted_t, scope_meant, meant_behind_t, index_meant_t, ref_meant_t, name_meant_t};
ghost use Rattle.meant.specs.Part.{part_of, row_part, chosen, meant_t};

use fixed::bytes_of;
use readings::{Meaning, Reading, meaning_of, reading_of};
use row_parts::{OUTER, b_at, code_at, e_at, x_at, y_at};
use rows::row::REF;
use scopes::{Found, Key, Outer, Wanted, find, scope_of, scope_outward};

// A declaration: out of which of the two forms, and its DECL row there.
#[derive(Clone, Copy)]
pub enum Declared {
    Member(u16),
    Prelude(u16),
}

// The first row of a form's root: the one behind its OPEN.
const ROOT: u16 = 1;

// ---- in one form

// What a name means that is looked for in the member alone.
fn in_member(meaning: Option<Meaning>) -> Option<Declared>
    ensures { result ≡ in_member meaning }
{
    let Meaning { row, .. } = meaning?;
    Some(Declared::Member(row))
}

// What a name means in the prelude's root.
fn in_root(prelude: &[u8], space: u8, name: u32) -> Option<Declared>
    ensures { result ≡ in_root prelude.now space name }
{
    let Found { row, .. } = find(prelude, ROOT, space, Key::Name(name))?;
    Some(Declared::Prelude(row))
}

// ---- references

// A walked name: the member's scopes around it, and then the prelude's root.
fn walked(prelude: &[u8], member: &[u8], row: u16) -> Option<Declared>
    ensures { result ≡ walked_meant_t prelude.now member.now row }
{
    match meaning_of(member, row) {
        Some(Meaning { row: decl, .. }) => Some(Declared::Member(decl)),
        None => in_root(prelude, b_at(member, row), x_at(member, row)),
    }
}

// A REF: a name that is not walked means what its own scope declares, and a number means nothing here.
fn ref_meant(prelude: &[u8], member: &[u8], row: u16) -> Option<Declared>
    ensures { result ≡ ref_meant_t prelude.now member.now row }
{
    match reading_of(member, row) {
        Reading::Outward => walked(prelude, member, row),
        Reading::LookedUp => in_member(meaning_of(member, row)),
        Reading::Counting => None,
    }
}

// ---- a named index of OUTER

// The outer scope that is asked for: by its name, where bit 0 of e says so, or by a count.
fn outer_wanted(e: u32, x: u32) -> Wanted
    ensures { result ≡ outer_wanted_t e x }
{
    if e % 2 == 1 {
        Wanted::Named(x)
    } else {
        Wanted::Out(x)
    }
}

// Whether there is such a scope of the member around a row.
fn has_scope(member: &[u8], row: u16, wanted: Wanted) -> bool
    ensures { result ≡ has_scope member.now row wanted }
{
    scope_outward(member, scope_of(member, row), wanted).is_some()
}

// Whether the scope behind all of the member's is the one asked for: the prelude's root has that name, or is just this many out.
fn is_root(prelude: &[u8], member: &[u8], row: u16, wanted: Wanted) -> bool
    ensures { result ≡ is_root_t prelude.now member.now row wanted }
{
    match wanted {
        Wanted::Out(count) => {
            if count == 0 {
                return false;
            }
            has_scope(member, row, Wanted::Out(count - 1))
        }
        Wanted::Named(name) => x_at(prelude, 0) == name,
        Wanted::Declaring { space: _, name: _ } => false,
    }
}

// A name that one scope of the member declares.
fn in_scope(member: &[u8], scope: u16, space: u8, name: u32) -> Option<Declared>
    ensures { result ≡ scope_meant member.now scope space name }
{
    let Found { row, .. } = find(member, scope, space, Key::Name(name))?;
    Some(Declared::Member(row))
}

// A named index where no scope of the member is the one asked for.
fn behind(prelude: &[u8], member: &[u8], row: u16, wanted: Wanted) -> Option<Declared>
    ensures { result ≡ meant_behind_t prelude.now member.now row wanted }
{
    if is_root(prelude, member, row, wanted) {
        return in_root(prelude, b_at(member, row), y_at(member, row));
    }
    None
}

// A named index: what the scope declares that is asked for.
fn index_meant(prelude: &[u8], member: &[u8], row: u16) -> Option<Declared>
    ensures { result ≡ index_meant_t prelude.now member.now row }
{
    let wanted = outer_wanted(e_at(member, row), x_at(member, row));
    match scope_outward(member, scope_of(member, row), wanted) {
        Some(Outer { scope, .. }) => in_scope(member, scope, b_at(member, row), y_at(member, row)),
        None => behind(prelude, member, row, wanted),
    }
}

// ---- any row

// What the name in a row means; rows without one mean nothing, and so does an OUTER whose index is a number.
fn name_meant(prelude: &[u8], member: &[u8], row: u16) -> Option<Declared>
    ensures { result ≡ name_meant_t prelude.now member.now row }
{
    let code = code_at(member, row);
    if code == OUTER {
        if e_at(member, row) < 2 {
            return None;
        }
        return index_meant(prelude, member, row);
    }
    if code == REF {
        return ref_meant(prelude, member, row);
    }
    None
}

// A form from where its rows stand eight bytes behind: all of version 1, and of version 2 from byte 8 on.
fn part_of(form: &[u8]) -> &[u8]
    ensures { result.now ≡ part_of form.now }
{
    if form.len() < 8 {
        return form;
    }
    if form[3] == 2 {
        return &form[8..];
    }
    form
}

// Which declaration the name in a row of the member means, and in which of the two forms it stands.
pub fn meant_at(prelude: &[u8], member: &[u8], row: u16) -> Option<Declared>
    ensures { result ≡ meant_t prelude.now member.now row }
{
    name_meant(part_of(prelude), part_of(member), row)
}

// ---- the row itself

// The sixteen bytes of a row; none where it is not there.
fn row_part(form: &[u8], row: u16) -> &[u8]
    ensures { result.now ≡ row_part form.now row }
{
    let part = part_of(form);
    let a = bytes_of(row as u32);
    let e = a + 16;
    if e <= part.len() {
        return &part[a..e];
    }
    &part[0..0]
}

// The DECL row that the name in a row of the member means: the caller's own sixteen bytes, out of the member's form or out of the
// prelude, or none.
pub fn meant<'a>(prelude: &'a [u8], member: &'a [u8], row: u16) -> &'a [u8]
    ensures { result.now ≡ chosen (meant_t prelude.now member.now row) prelude.now member.now }
{
    let Some(declared) = meant_at(prelude, member, row) else {
        return &member[0..0];
    };
    match declared {
        Declared::Member(decl) => row_part(member, decl),
        Declared::Prelude(decl) => row_part(prelude, decl),
    }
}
