// Step B: each field's references in order; what is inserted before the field, and then its own DECLs, take their slots.
ghost use Rattle.std.specs.Prelude.{◌≡◌, ◌-◌, ◌/◌, ◌≤◌, length, Some};
ghost use Rattle.kit.specs.Out.{◌&◌};
ghost use Rattle.index.specs.Indexed.{Holds, Covers};
ghost use Rattle.plan.specs.Enter.{row_number};
ghost use Rattle.plan.specs.Serves.{Serves, Grown, GrownBy};
ghost use Rattle.plan.specs.Insertions.{bump_t, declare_t, insert_alias_t, plan_paths_t, late_here_t, late_out_t, met_t, plan_name_t, plan_ref_t, plan_operands_t, plan_decls_t, field_code_t, plan_insertions_t, plan_field_t, moved_t, plan_next_t, plan_fields_t, plan_scope_t};

use crate::enter::{declared, is_here, row_number};
use codes::{Spaces, has, here_only};
use fixed::{CORE_INSTANCE_WIDE, INSTANCE_WIDE};
use form::part::field_rows;
use index::{outward, push};
use late::{before_around, is_late, scope_around};
use names::{FIRST, Met, SPACE, Scope, Slot, alias_slot, numbered};
use refusal::{Refusal, Refused, Told};
use rows::row::{FIELD, Index, Row, code_at, decl_at, field_at, ref_or_open_at};
use std::num::wrapping_add_u32;

// The refusals of step B.
const NOT_EXPORTED: u32 = 7;

const NOT_OUTER: u32 = 8;

const NOT_EARLIER: u32 = 13;

// The code that no field has.
const NO_FIELD: u8 = 0;

// Core types cannot be exported, nor can core instances.
const CORE_TYPE: u32 = 4;

// How far step B of a scope has come.
#[derive(Clone, Copy)]
pub struct PlanState {
    // The row of the next field.
    pub at: usize,
    // How many names step A entered for the scope.
    pub entered: usize,
    // How many scopes are open around this one.
    pub depth: usize,
    // How many slots of the table of declarations are used.
    pub used: usize,
    // The next name for an inserted alias.
    pub fresh: u32,
    // The scope's first slot.
    pub first: usize,
    // How many slots stand before the field that holds the scope.
    pub before: usize,
    // Whether a name means only what an earlier field declares (rule set 1).
    pub early: bool,
}

// A REF row, and its number among the input's rows.
#[derive(Clone, Copy)]
pub struct Reference {
    pub space: u32,
    pub at: Index,
    pub paths: u32,
    pub z: u32,
    pub row: u32,
}

// The next number of a space. A form names no space that is not counted: the guard is never true on one.
fn bump(counts: &mut [u32], space: u32) -> u32
    ensures { (result & counts.new) ≡ bump_t counts.old space }
{
    let s = space as usize;
    if counts.len() <= s {
        return 0;
    }
    let number = counts[s];
    counts[s] = wrapping_add_u32(number, 1);
    number
}

// A slot gets its number and is entered.
fn declare(
    names: &mut [Slot],
    chains: &mut [u16],
    counts: &mut [u32],
    used: usize,
    slot: Slot,
) -> usize
    requires { Holds names.old chains.old used }
    ensures { ((result & names.new & counts.new) ≡ declare_t names.old counts.old used slot) × Holds names.new chains.new result × (used ≤ result) }
{
    let number = bump(counts, slot[SPACE]);
    push(names, chains, used, numbered(slot, number))
}

// An inserted alias takes the next fresh name. An outer one reaches `index` in the scope `out` scopes out.
fn insert(
    names: &mut [Slot],
    chains: &mut [u16],
    counts: &mut [u32],
    plan: PlanState,
    space: u32,
    row: u32,
    out: u32,
    index: u32,
) -> PlanState
    requires { Holds names.old chains.old plan.used }
    ensures { ((result & names.new & counts.new) ≡ insert_alias_t names.old counts.old plan space row out index) × Grown plan result names.new chains.new }
{
    let fresh = plan.fresh;
    let slot = alias_slot(space, fresh, row, out, index);
    let used = declare(names, chains, counts, plan.used, slot);
    PlanState {
        at: plan.at,
        entered: plan.entered,
        depth: plan.depth,
        used,
        fresh: wrapping_add_u32(fresh, 1),
        first: plan.first,
        before: plan.before,
        early: plan.early,
    }
}

// One alias for each PATH: all but the last are of instances.
fn plan_paths(
    names: &mut [Slot],
    chains: &mut [u16],
    counts: &mut [u32],
    plan: PlanState,
    space: u32,
    paths: u32,
    row: u32,
) -> PlanState
    requires { Holds names.old chains.old plan.used }
    ensures { ((result & names.new & counts.new) ≡ plan_paths_t names.old counts.old plan space row (paths - 1)) × Grown plan result names.new chains.new }
{
    let mut p = plan;
    let mut left = paths;
    while 1 < left {
        left -= 1;
        p = insert(names, chains, counts, p, INSTANCE_WIDE, row, 0, 0);
    }
    insert(names, chains, counts, p, space, row, 0, 0)
}

// Whether a name that the scope has is not of an earlier field: those have their slots by now.
fn is_late_here(names: &[Slot], chains: &[u16], plan: PlanState, space: u32, name: u32) -> bool
    requires { Covers names.now chains.now plan.used }
    ensures { result ≡ late_here_t names.now plan space name }
{
    if !plan.early {
        return false;
    }
    is_late(names, chains, plan.first, plan.used, plan.used, space, name)
}

// Whether a name that the scope `out` scopes out has does not stand there before the field that holds us.
fn is_late_out(
    names: &[Slot],
    chains: &[u16],
    scopes: &[Scope],
    plan: PlanState,
    out: usize,
    space: u32,
    name: u32,
) -> bool
    requires { Covers names.now chains.now plan.used }
    ensures { result ≡ late_out_t names.now scopes.now plan out space name }
{
    if !plan.early {
        return false;
    }
    let first = scope_around(scopes, plan.depth, out)[FIRST];
    let before = before_around(scopes, plan.depth, plan.before, out);
    is_late(names, chains, first, before, plan.used, space, name)
}

// An outer alias for a name that the scope `out` scopes out has as `number`.
fn plan_outer(
    names: &mut [Slot],
    chains: &mut [u16],
    scopes: &[Scope],
    counts: &mut [u32],
    plan: PlanState,
    r: Reference,
    name: u32,
    out: usize,
    number: u32,
) -> Result<PlanState, Refused>
    requires { Holds names.old chains.old plan.used }
    ensures { ((result & names.new & counts.new) ≡ met_t (Some (record { out = out; number = number })) names.old scopes.now counts.old plan r name) × GrownBy result plan names.new chains.new }
{
    if is_late_out(names, chains, scopes, plan, out, r.space, name) {
        return Err(Refused {
            refusal: Refusal {
                number: NOT_EARLIER,
                place: r.z,
            },
            told: Told { space: 0, first: 0 },
        });
    }
    if !has(Spaces::Four, (r.space % 256) as u8) {
        return Err(Refused {
            refusal: Refusal {
                number: NOT_OUTER,
                place: r.z,
            },
            told: Told {
                space: r.space,
                first: 0,
            },
        });
    }
    Ok(insert(
        names,
        chains,
        counts,
        plan,
        r.space,
        r.row,
        (out % 4294967296) as u32,
        number,
    ))
}

// A walked name: found here or nowhere, nothing yet; found further out, an outer alias. Found too late, it is refused, and no
// scope further out is asked.
fn plan_name(
    entered: &[Slot],
    known: &[u16],
    names: &mut [Slot],
    chains: &mut [u16],
    scopes: &[Scope],
    counts: &mut [u32],
    plan: PlanState,
    r: Reference,
    name: u32,
) -> Result<PlanState, Refused>
    requires { Serves names.old chains.old scopes.now plan × Covers entered.now known.now plan.entered }
    ensures { ((result & names.new & counts.new) ≡ plan_name_t entered.now names.old scopes.now counts.old plan r name) × GrownBy result plan names.new chains.new }
{
    if is_here(entered, known, plan.entered, r.space, name) {
        if is_late_here(names, chains, plan, r.space, name) {
            return Err(Refused {
                refusal: Refusal {
                    number: NOT_EARLIER,
                    place: r.z,
                },
                told: Told { space: 0, first: 0 },
            });
        }
        return Ok(plan);
    }
    match outward(names, chains, scopes, plan.depth, r.space, name) {
        None => Ok(plan),
        Some(Met { out, number }) => plan_outer(
            names, chains, scopes, counts, plan, r, name, out, number,
        ),
    }
}

// A REF: an alias for each of its PATHs; without PATHs, a number stays and a name is walked.
fn plan_ref(
    entered: &[Slot],
    known: &[u16],
    names: &mut [Slot],
    chains: &mut [u16],
    scopes: &[Scope],
    counts: &mut [u32],
    plan: PlanState,
    r: Reference,
) -> Result<PlanState, Refused>
    requires { Serves names.old chains.old scopes.now plan × Covers entered.now known.now plan.entered }
    ensures { ((result & names.new & counts.new) ≡ plan_ref_t entered.now names.old scopes.now counts.old plan r) × GrownBy result plan names.new chains.new }
{
    if 0 < r.paths {
        if r.space == CORE_TYPE {
            return Err(Refused {
                refusal: Refusal {
                    number: NOT_EXPORTED,
                    place: r.z,
                },
                told: Told { space: 0, first: 0 },
            });
        }
        if r.space == CORE_INSTANCE_WIDE {
            return Err(Refused {
                refusal: Refusal {
                    number: NOT_EXPORTED,
                    place: r.z,
                },
                told: Told { space: 0, first: 0 },
            });
        }
        return Ok(plan_paths(names, chains, counts, plan, r.space, r.paths, r.row));
    }
    let at = r.at;
    match at {
        Index::Number(_) => Ok(plan),
        Index::Name(name) => plan_name(
            entered, known, names, chains, scopes, counts, plan, r, name,
        ),
    }
}

// The REF in row i of the field that begins at row `from` of the input.
pub fn referring(space: u8, at: Index, paths: u32, z: u32, from: usize, i: usize) -> Reference
    ensures { result ≡ record { space = space; at = at; paths = paths; z = z; row = row_number from i } }
{
    Reference {
        space: space as u32,
        at,
        paths,
        z,
        row: row_number(from, i),
    }
}

// The same of a REF whose parts are given, in row i of the field that begins at row `from`.
fn plan_row(
    entered: &[Slot],
    known: &[u16],
    names: &mut [Slot],
    chains: &mut [u16],
    scopes: &[Scope],
    counts: &mut [u32],
    plan: PlanState,
    space: u8,
    at: Index,
    paths: u32,
    z: u32,
    from: usize,
    i: usize,
) -> Result<PlanState, Refused>
    requires { Serves names.old chains.old scopes.now plan × Covers entered.now known.now plan.entered }
    ensures { ((result & names.new & counts.new) ≡ plan_ref_t entered.now names.old scopes.now counts.old plan (record { space = space; at = at; paths = paths; z = z; row = row_number from i })) × GrownBy result plan names.new chains.new }
{
    plan_ref(
        entered,
        known,
        names,
        chains,
        scopes,
        counts,
        plan,
        referring(space, at, paths, z, from, i),
    )
}

// The references of one field, up to the scope that it may open.
fn plan_operands(
    field: &[u8],
    entered: &[Slot],
    known: &[u16],
    names: &mut [Slot],
    chains: &mut [u16],
    scopes: &[Scope],
    counts: &mut [u32],
    plan: PlanState,
) -> Result<PlanState, Refused>
    requires { Serves names.old chains.old scopes.now plan × Covers entered.now known.now plan.entered }
    ensures { ((result & names.new & counts.new) ≡ plan_operands_t field.now entered.now names.old scopes.now counts.old plan plan.at 1 (length field.now / 16 - 1)) × GrownBy result plan names.new chains.new }
{
    let n = field.len() / 16;
    let mut p = plan;
    let mut i = 1;
    while i < n {
        let k = i;
        i += 1;
        match ref_or_open_at(field, k) {
            Row::Ref {
                space,
                at,
                paths,
                z,
            } => {
                let planned = plan_row(
                    entered, known, names, chains, scopes, counts, p, space, at, paths, z, plan.at,
                    k,
                );
                match planned {
                    Ok(next) => {
                        // Part by part: copied whole, it takes the bytes behind its last part with it, and they are waited for.
                        p = PlanState {
                            at: next.at,
                            entered: next.entered,
                            depth: next.depth,
                            used: next.used,
                            fresh: next.fresh,
                            first: next.first,
                            before: next.before,
                            early: next.early,
                        };
                    }
                    Err(_) => return planned,
                }
            }
            Row::Open { kind: _, name: _ } => return Ok(p),
            _ => {}
        }
    }
    Ok(p)
}

// The DECLs of one field.
fn plan_decls(
    field: &[u8],
    names: &mut [Slot],
    chains: &mut [u16],
    counts: &mut [u32],
    at: usize,
    used: usize,
) -> usize
    requires { Holds names.old chains.old used }
    ensures { ((result & names.new & counts.new) ≡ plan_decls_t field.now names.old counts.old at used 1 (length field.now / 16 - 1)) × Holds names.new chains.new result × (used ≤ result) }
{
    let n = field.len() / 16;
    let mut count = used;
    let mut i = 1;
    while i < n {
        let Row::Decl { space, name, z: _ } = decl_at(field, i) else {
            return count;
        };
        count = declare(names, chains, counts, count, declared(space, name, at, i));
        i += 1;
    }
    count
}

// The code of a field. A field of a form begins with its FIELD row; for rows that do not, the code is 0, which no field has.
pub fn field_code(field: &[u8]) -> u8
    ensures { result ≡ field_code_t field.now }
{
    let Row::Field {
        code,
        builtin: _,
        z: _,
    } = field_at(field, 0)
    else {
        return NO_FIELD;
    };
    code
}

// What a field makes the scope insert.
fn plan_insertions(
    field: &[u8],
    entered: &[Slot],
    known: &[u16],
    names: &mut [Slot],
    chains: &mut [u16],
    scopes: &[Scope],
    counts: &mut [u32],
    plan: PlanState,
) -> Result<PlanState, Refused>
    requires { Serves names.old chains.old scopes.now plan × Covers entered.now known.now plan.entered }
    ensures { ((result & names.new & counts.new) ≡ plan_insertions_t field.now entered.now names.old scopes.now counts.old plan) × GrownBy result plan names.new chains.new }
{
    if here_only(field_code(field)) {
        return Ok(plan);
    }
    plan_operands(field, entered, known, names, chains, scopes, counts, plan)
}

// One field: its insertions, unless its operands are here-only, and then its DECLs.
fn plan_field(
    field: &[u8],
    entered: &[Slot],
    known: &[u16],
    names: &mut [Slot],
    chains: &mut [u16],
    scopes: &[Scope],
    counts: &mut [u32],
    plan: PlanState,
) -> Result<PlanState, Refused>
    requires { Serves names.old chains.old scopes.now plan × Covers entered.now known.now plan.entered }
    ensures { ((result & names.new & counts.new) ≡ plan_field_t field.now entered.now names.old scopes.now counts.old plan) × GrownBy result plan names.new chains.new }
{
    let planned = plan_insertions(field, entered, known, names, chains, scopes, counts, plan);
    match planned {
        Err(_) => planned,
        Ok(p) => {
            let mut next = p;
            next.used = plan_decls(field, names, chains, counts, p.at, p.used);
            Ok(next)
        }
    }
}

// The same plan at another row.
fn moved(plan: PlanState, at: usize) -> PlanState
    ensures { result ≡ moved_t plan at }
{
    PlanState {
        at,
        entered: plan.entered,
        depth: plan.depth,
        used: plan.used,
        fresh: plan.fresh,
        first: plan.first,
        before: plan.before,
        early: plan.early,
    }
}

// The field at the plan's row, and on to the next.
fn plan_next(
    rows: &[u8],
    ends: &[u32],
    entered: &[Slot],
    known: &[u16],
    names: &mut [Slot],
    chains: &mut [u16],
    scopes: &[Scope],
    counts: &mut [u32],
    plan: PlanState,
) -> Result<PlanState, Refused>
    requires { Serves names.old chains.old scopes.now plan × Covers entered.now known.now plan.entered }
    ensures { ((result & names.new & counts.new) ≡ plan_next_t rows.now ends.now entered.now names.old scopes.now counts.old plan) × GrownBy result plan names.new chains.new }
{
    let at = plan.at;
    let field = field_rows(rows, ends, at);
    let planned = plan_field(field, entered, known, names, chains, scopes, counts, plan);
    match planned {
        Ok(next) => { Ok(moved(next, row_number(at, field.len() / 16) as usize)) }
        Err(_) => planned,
    }
}

// The fields of a scope. It has no more fields than the form has rows, so on a form the CLOSE of the scope ends the loop.
fn plan_fields(
    rows: &[u8],
    ends: &[u32],
    entered: &[Slot],
    known: &[u16],
    names: &mut [Slot],
    chains: &mut [u16],
    scopes: &[Scope],
    counts: &mut [u32],
    plan: PlanState,
) -> Result<PlanState, Refused>
    requires { Serves names.old chains.old scopes.now plan × Covers entered.now known.now plan.entered }
    ensures { ((result & names.new & counts.new) ≡ plan_fields_t rows.now ends.now entered.now names.old scopes.now counts.old plan (length rows.now / 16)) × GrownBy result plan names.new chains.new }
{
    let mut p = plan;
    let mut turns = rows.len() / 16;
    while 0 < turns {
        turns -= 1;
        if code_at(rows, p.at) != FIELD {
            return Ok(p);
        }
        let planned = plan_next(rows, ends, entered, known, names, chains, scopes, counts, p);
        match planned {
            Ok(next) => {
                p = next;
            }
            Err(_) => return planned,
        }
    }
    Ok(p)
}

// The scope whose first field is at the plan's row.
pub fn plan_scope(
    rows: &[u8],
    ends: &[u32],
    entered: &[Slot],
    known: &[u16],
    names: &mut [Slot],
    chains: &mut [u16],
    scopes: &[Scope],
    plan: PlanState,
) -> Result<PlanState, Refused>
    requires { Serves names.old chains.old scopes.now plan × Covers entered.now known.now plan.entered }
    ensures { ((result & names.new) ≡ plan_scope_t rows.now ends.now entered.now names.old scopes.now plan) × GrownBy result plan names.new chains.new }
{
    let mut counts = [0u32; 13];
    plan_fields(
        rows,
        ends,
        entered,
        known,
        names,
        chains,
        scopes,
        &mut counts,
        plan,
    )
}
