// The added aliases of a claim, reached by their numbers. They have passed condition 3: each is a FIELD, one DECL, one operand
// of numbers, and of an export the EXPORT.
ghost use Rattle.std.specs.Prelude.{◌≡◌, take};
ghost use Rattle.index.specs.Indexed.{Holds};
ghost use Rattle.claim_reach.specs.Alias.{reach_counted_t, reached_t, reach_code_t, export_code, outer_at, export_at, through_outer_t, through_export_t};

use claim_scopes::entries::look_up;
use names::{Met, Slot};
use parts::parts_at;

// The codes of aliases: of an export, of a core export, of an item further out.
const EXPORT_ALIAS: u8 = 9;

const CORE_ALIAS: u8 = 10;

const OUTER_ALIAS: u8 = 11;

// The last of the spaces whose items are exports of core instances.
const LAST_CORE: u8 = 6;

// What is sought: a number of a space in the scope whose OPEN is this row, among the first `used` slots.
#[derive(Clone, Copy)]
pub struct Sought {
    pub used: usize,
    pub scope: usize,
    pub space: u8,
    pub number: u32,
}

// A number counted from 1, as aliases are entered; 0 for one that no declaration has.
fn counted(number: u32) -> u32
    ensures { result ≡ reach_counted_t number }
{
    if number < 65536 { number + 1 } else { 0 }
}

// The row of the DECL of the added alias that is reached.
fn reached(table: &[Slot], index: &[u16], s: Sought) -> Option<u32>
    requires { Holds table.now index.now s.used }
    ensures { result ≡ reached_t (take s.used table.now) s }
{
    look_up(
        table,
        index,
        s.used,
        s.scope % 65536 + 1,
        s.space,
        counted(s.number),
    )
}

// The code of the field whose only DECL is row i.
fn code_of(claim: &[u8], i: usize) -> u8
    ensures { result ≡ reach_code_t claim.now i }
{
    if i == 0 {
        return 0;
    }
    parts_at(claim, i - 1).b
}

// Document 01's code for an alias of an export of this space.
fn export_code(space: u8) -> u8
    ensures { result ≡ export_code space }
{
    if space <= LAST_CORE {
        CORE_ALIAS
    } else {
        EXPORT_ALIAS
    }
}

// How far out the alias whose DECL is that row leads, and the number there, if it is one of an outer item.
fn outer_at(claim: &[u8], row: u32) -> Option<Met>
    ensures { result ≡ outer_at claim.now row }
{
    let i = row as usize;
    if code_of(claim, i) != OUTER_ALIAS {
        return None;
    }
    let p = parts_at(claim, i + 1);
    Some(Met {
        out: p.x as usize,
        number: p.y,
    })
}

// The number of the instance of the alias whose DECL is that row, if it is one of this export.
fn export_at(claim: &[u8], row: u32, space: u8, name: u32) -> Option<u32>
    ensures { result ≡ export_at claim.now row space name }
{
    let i = row as usize;
    if code_of(claim, i) != export_code(space) {
        return None;
    }
    if parts_at(claim, i + 2).x != name {
        return None;
    }
    Some(parts_at(claim, i + 1).x)
}

// What is reached through one added outer alias: how far out, and the number there.
pub fn through_outer(claim: &[u8], table: &[Slot], index: &[u16], s: Sought) -> Option<Met>
    requires { Holds table.now index.now s.used }
    ensures { result ≡ through_outer_t (take s.used table.now) claim.now s }
{
    let row = reached(table, index, s)?;
    outer_at(claim, row)
}

// What is reached through one added alias of this export: the number of its instance.
pub fn through_export(
    claim: &[u8],
    table: &[Slot],
    index: &[u16],
    s: Sought,
    name: u32,
) -> Option<u32>
    requires { Holds table.now index.now s.used }
    ensures { result ≡ through_export_t (take s.used table.now) claim.now s name }
{
    let row = reached(table, index, s)?;
    export_at(claim, row, s.space, name)
}
