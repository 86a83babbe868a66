// Condition 3 of checking a claimed output: every added field is an alias, its name new in its scope and space, its operands
// numbers.
#![tactic(auto)]

ghost use Rattle.std.specs.Prelude.{◌≡◌, false, ◌/◌, ◌<◌, [], length, take};
ghost use Rattle.kit.specs.Out.{◌&◌};
ghost use Rattle.index.specs.Indexed.{Holds};
ghost use Rattle.claim_rows.specs.Left.{rows_at};
ghost use Rattle.claim_aliases.specs.Aliases.{is_alias, alias_new_t, is_known, alias_breaks_t, alias_entered_t, alias_on_t, over_t, alias_at_t, alias_turn_t, HeldBy, laid_by, try_aliases_t};

use claim_rows::added::is_added;
use claim_scopes::entries::{enter, look_up};
use claim_scopes::open::{behind_row, here};
use fixed::FIRST_FRESH;
use names::{Scope, Slot};
use parts::{Parts, parts_at};
use rows::row::{DECL, FIELD, OUTER, REF};

// The most scopes that are open one in another, in any version.
pub const SCOPES: usize = 64;

// Where the rows are gone through: how many scopes are open and how many slots are used, and whether the row's field is
// added.
#[derive(Clone, Copy)]
struct Cursor {
    depth: usize,
    used: usize,
    added: bool,
}

// Whether a field of this code is an alias.
fn is_alias(code: u8) -> bool
    ensures { result ≡ is_alias code }
{
    (code == 9) | ((code == 10) | (code == 11))
}

// A name that no input has, counted from 1, so that it is found as an input's name is; 0 for any other.
fn counted(name: u32) -> u32
    ensures { result ≡ alias_new_t name }
{
    if FIRST_FRESH <= name {
        name - FIRST_FRESH + 1
    } else {
        0
    }
}

// Whether the name of a DECL was entered for its scope and space.
fn is_known(table: &[Slot], index: &[u16], used: usize, scope: usize, p: Parts) -> bool
    requires { Holds table.now index.now used }
    ensures { result ≡ is_known (take used table.now) scope p }
{
    look_up(table, index, used, scope, p.b, counted(p.x)).is_some()
}

// Whether a row breaks the condition: only one of an added field does.
fn breaks(added: bool, table: &[Slot], index: &[u16], used: usize, scope: usize, p: Parts) -> bool
    requires { Holds table.now index.now used }
    ensures { result ≡ alias_breaks_t added (take used table.now) scope p }
{
    if !added {
        return false;
    }
    if p.code == FIELD {
        return !is_alias(p.b);
    }
    if p.code == DECL {
        return is_known(table, index, used, scope, p);
    }
    ((p.code == REF) | (p.code == OUTER)) & (0 < p.e)
}

// Enters the name of an added field's DECL, and answers how many slots are used then.
fn enter_name(
    added: bool,
    table: &mut [Slot],
    index: &mut [u16],
    used: usize,
    scope: usize,
    p: Parts,
) -> usize
    requires { Holds table.old index.old used }
    ensures { ((result & table.new) ≡ alias_entered_t added table.old used scope p) × Holds table.new index.new result }
{
    if !added {
        return used;
    }
    if p.code != DECL {
        return used;
    }
    enter(table, index, used, scope, p.b, counted(p.x), 0)
}

// Behind a row that does not break the condition: its name is entered, and its scope is opened or closed.
fn go_on(
    p: Parts,
    i: usize,
    table: &mut [Slot],
    index: &mut [u16],
    scopes: &mut [Scope],
    c: Cursor,
) -> Cursor
    requires { Holds table.old index.old c.used }
    ensures { ((result & table.new & scopes.new) ≡ alias_on_t p i table.old scopes.old c) × Holds table.new index.new result.used }
{
    let scope = here(scopes, c.depth);
    let used = enter_name(c.added, table, index, c.used, scope, p);
    let depth = behind_row(scopes, c.depth, p, i);
    Cursor {
        depth,
        used,
        added: c.added,
    }
}

// What a row leads to, where it is known whether its field is added.
fn go_past(
    p: Parts,
    i: usize,
    table: &mut [Slot],
    index: &mut [u16],
    scopes: &mut [Scope],
    c: Cursor,
) -> Option<Cursor>
    requires { Holds table.old index.old c.used }
    ensures { ((result & table.new & scopes.new) ≡ over_t p i table.old scopes.old c) × HeldBy result table.new index.new }
{
    if breaks(c.added, table, index, c.used, here(scopes, c.depth), p) {
        return None;
    }
    Some(go_on(p, i, table, index, scopes, c))
}

// The cursor at row i: whether its field is added.
fn at_row(p: Parts, claim: &[u8], next: usize, c: Cursor) -> Cursor
    ensures { result ≡ alias_at_t p (rows_at claim.now next) c }
{
    Cursor {
        depth: c.depth,
        used: c.used,
        added: is_added(c.added, p.code, claim, next),
    }
}

// Goes over row i.
fn go_over(
    claim: &[u8],
    i: usize,
    table: &mut [Slot],
    index: &mut [u16],
    scopes: &mut [Scope],
    c: Cursor,
) -> Option<Cursor>
    requires { Holds table.old index.old c.used × (i < length claim.now / 16) }
    ensures { ((result & table.new & scopes.new) ≡ alias_turn_t (rows_at claim.now i) i table.old scopes.old c) × HeldBy result table.new index.new }
{
    let p = parts_at(claim, i);
    go_past(p, i, table, index, scopes, at_row(p, claim, i + 1, c))
}

// Tries condition 3 on the rows of a claim. The names of added fields are entered in the table as they come.
pub fn try_aliases(claim: &[u8], table: &mut [Slot], index: &mut [u16]) -> Result<(), usize>
    requires { Holds table.old index.old 0 }
    ensures { (result & table.new) ≡ laid_by (try_aliases_t (length table.old) 0 false [] [] (rows_at claim.now 0)) table.old }
{
    let n = claim.len() / 16;
    let mut scopes: [Scope; SCOPES] = [[0usize; 4]; SCOPES];
    let mut c = Cursor {
        depth: 0,
        used: 0,
        added: false,
    };
    let mut i = 0;
    while i < n {
        let Some(next) = go_over(claim, i, table, index, &mut scopes, c) else {
            return Err(i);
        };
        c = next;
        i += 1;
    }
    Ok(())
}
