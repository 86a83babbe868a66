// A scope goes through its fields, and a field may open a scope.
//
// Each scope is worked on in three steps. A name may mean a declaration of a later field, so all names of the scope are entered
// first (step A). An alias that is inserted before a field moves the numbers of all declarations behind it, so every insertion
// is planned, and every declaration gets its final number, before any number is written (step B). Only then are the fields
// written, with these numbers (step C); a scope that a field opens takes its own three steps when the field is reached, since
// its names may mean what the scopes around it declare, by their final numbers.
ghost use Rattle.std.specs.Prelude.{◌≡◌, ◌-◌, ◌/◌, ◌<◌, length};
ghost use Rattle.index.specs.Indexed.{Holds, Covers};
ghost use Rattle.kit.specs.Out.{◌&◌};
ghost use Rattle.rows.specs.RowAt.{row_at};
ghost use Rattle.names.specs.Table.{past_of};
ghost use Rattle.write.specs.WriteState.{begun_t, at_depth_t, after_scope_t};
ghost use Rattle.write.specs.Within.{Within, FreeBy};
ghost use Rattle.walk.specs.Open.{Served, Stacked, BegunBy, ScopeBy, FieldBy};
ghost use Rattle.walk.specs.Scopes.{write_inserted_t, write_fresh_t, write_head_t, begin_scope_t, open_name, start_in, field_walk_t, close_scope_t, fields_walk_t, scope_walk_t};

use codes::here_only;
use fixed::FIRST_FRESH;
use form::part::field_rows;
use index::leave;
use names::{NAME, Scope, Slot, innermost, scope_of, slot_at};
use plan::enter::{enter_fields, row_number};
use plan::insertions::{PlanState, field_code, plan_scope};
use put::copy_row;
use refusal::Refused;
use rows::row::{FIELD, OPEN, Row, code_at, ref_or_open_at};
use write::alias::{WriteState, write_aliases};
use write::own::write_own;

// A field's aliases, unless its operands are here-only, and then its own rows.
fn write_head(
    field: &[u8],
    entered: &mut [Slot],
    known: &mut [u16],
    names: &[Slot],
    chains: &[u16],
    scopes: &[Scope],
    out: &mut [u8],
    s: WriteState,
) -> Result<WriteState, Refused>
    requires { Within names.now chains.now scopes.now × Holds entered.old known.old 0 }
    ensures { ((result & entered.new & out.new) ≡ write_head_t field.now entered.old names.now scopes.now out.old s) × FreeBy result entered.new known.new }
{
    let t = write_fresh(field, names, chains, innermost(scopes, s.depth), out, s)?;
    write_own(field, entered, known, names, chains, scopes, out, t)
}

// What step B inserted before a field: nothing, unless the scope's next slot has a fresh name. The field's references are
// looked at only then.
fn write_fresh(
    field: &[u8],
    names: &[Slot],
    chains: &[u16],
    here: Scope,
    out: &mut [u8],
    s: WriteState,
) -> Result<WriteState, Refused>
    requires { Covers names.now chains.now (past_of here) }
    ensures { (result & out.new) ≡ write_fresh_t field.now names.now here out.old s }
{
    if slot_at(names, s.next)[NAME] < FIRST_FRESH {
        return Ok(s);
    }
    write_inserted(field, names, chains, here, out, s)
}

// What step B inserted before a field whose operands are not here-only.
fn write_inserted(
    field: &[u8],
    names: &[Slot],
    chains: &[u16],
    here: Scope,
    out: &mut [u8],
    s: WriteState,
) -> Result<WriteState, Refused>
    requires { Covers names.now chains.now (past_of here) }
    ensures { (result & out.new) ≡ write_inserted_t field.now names.now here out.old s }
{
    if here_only(field_code(field)) {
        return Ok(s);
    }
    write_aliases(field, names, chains, here, out, s)
}

// Steps A and B of the scope whose OPEN is the state's row.
fn begin(
    rows: &[u8],
    ends: &[u32],
    entered: &mut [Slot],
    known: &mut [u16],
    names: &mut [Slot],
    chains: &mut [u16],
    scopes: &[Scope],
    s: WriteState,
) -> Result<PlanState, Refused>
    requires { Served entered.old known.old names.old chains.old s.used × Stacked scopes.now s }
    ensures { ((result & entered.new & names.new) ≡ begin_scope_t rows.now ends.now entered.old names.old scopes.now s) × BegunBy result s entered.new known.new names.new chains.new }
{
    let first = row_number(s.at, 1) as usize;
    let count = enter_fields(rows, ends, entered, known, first)?;
    let plan = PlanState {
        at: first,
        entered: count,
        depth: s.depth,
        used: s.used,
        fresh: s.fresh,
        first: s.used,
        before: s.before,
        early: s.early,
    };
    let p = plan_scope(rows, ends, entered, known, names, chains, scopes, plan)?;
    leave(entered, known, 0, count);
    Ok(p)
}

// The name of the scope whose OPEN is row i; 0, which is no name, for a row of another kind, which is never asked about on a form.
fn scope_name(rows: &[u8], i: usize) -> usize
    ensures { result ≡ open_name (row_at rows.now i) }
{
    let Row::Open { kind: _, name } = ref_or_open_at(rows, i) else {
        return 0;
    };
    name as usize
}

// The state in which the walk over a form begins, with `used` slots in use and `depth` scopes open around it; all of those
// slots stand before the form. `early`: whether a name means only what an earlier field declares.
pub fn starting(used: usize, depth: usize, early: bool) -> WriteState
    ensures { (result ≡ start_in used depth early) × (result.used ≡ used) × (result.depth ≡ depth) }
{
    WriteState {
        at: 0,
        to: 0,
        used,
        fresh: FIRST_FRESH,
        depth,
        next: 0,
        alias: 0,
        seen: 0,
        before: used,
        early,
    }
}

// A scope that lies inside the first `depth` of the scopes: its steps A, B and C, in tables that are lent. The stack of
// scopes is left as it was; it has as many entries as scopes may be open at once.
#[cycle(field_walk_fields_walk_scope_walk)]
pub fn scope_walk(
    rows: &[u8],
    ends: &[u32],
    entered: &mut [Slot],
    known: &mut [u16],
    names: &mut [Slot],
    chains: &mut [u16],
    scopes: &mut [Scope],
    out: &mut [u8],
    s: WriteState,
) -> Result<WriteState, Refused>
    requires { Served entered.old known.old names.old chains.old s.used × Stacked scopes.old s }
    ensures { ((result & entered.new & names.new & out.new) ≡ scope_walk_t rows.now ends.now (length scopes.old - s.depth) entered.old names.old scopes.old out.old s) × ScopeBy result s entered.new known.new names.new chains.new scopes.old scopes.new }
{
    let depth = s.depth;
    // Never true on a form: it has no more scopes one in another than its limits allow, and the stack has room for as many.
    if scopes.len() <= depth {
        return Ok(s);
    }
    let p = begin(rows, ends, entered, known, names, chains, scopes, s)?;
    let kept = scopes[depth];
    scopes[depth] = scope_of(scope_name(rows, s.at), s.used, p.used, s.before);
    let to = copy_row(rows, s.at, out, s.to);
    let inside = WriteState {
        at: row_number(s.at, 1) as usize,
        to,
        used: p.used,
        fresh: p.fresh,
        depth: depth + 1,
        next: s.used,
        alias: s.used,
        seen: 0,
        before: s.used,
        early: s.early,
    };
    let t = fields_walk(
        rows, ends, entered, known, names, chains, scopes, out, inside,
    )?;
    scopes[depth] = kept;
    leave(names, chains, s.used, p.used);
    Ok(t)
}

// Step C of a scope, from its first field to its CLOSE. A scope has no more fields than the form has rows.
#[cycle(field_walk_fields_walk_scope_walk)]
fn fields_walk(
    rows: &[u8],
    ends: &[u32],
    entered: &mut [Slot],
    known: &mut [u16],
    names: &mut [Slot],
    chains: &mut [u16],
    scopes: &mut [Scope],
    out: &mut [u8],
    s: WriteState,
) -> Result<WriteState, Refused>
    requires { Served entered.old known.old names.old chains.old s.used × Stacked scopes.old s }
    ensures { ((result & entered.new & names.new & out.new) ≡ fields_walk_t rows.now ends.now (scope_walk_t rows.now ends.now (length scopes.old - s.depth)) entered.old names.old scopes.old out.old s s.depth (length rows.now / 16)) × ScopeBy result s entered.new known.new names.new chains.new scopes.old scopes.new }
{
    let depth = s.depth;
    let mut cur = s;
    let mut turns = rows.len() / 16;
    while 0 < turns {
        turns -= 1;
        if code_at(rows, cur.at) != FIELD {
            return Ok(closed(rows, out, cur));
        }
        let walked = field_walk(
            rows,
            ends,
            entered,
            known,
            names,
            chains,
            scopes,
            out,
            begun(cur, depth),
        );
        match walked {
            Ok(t) => {
                cur = t;
            }
            Err(_) => return walked,
        }
    }
    // Never reached on a form: the CLOSE of the scope ends the loop.
    Ok(cur)
}

// Step C of a field, and the scope that it may open.
#[cycle(field_walk_fields_walk_scope_walk)]
fn field_walk(
    rows: &[u8],
    ends: &[u32],
    entered: &mut [Slot],
    known: &mut [u16],
    names: &mut [Slot],
    chains: &mut [u16],
    scopes: &mut [Scope],
    out: &mut [u8],
    s: WriteState,
) -> Result<WriteState, Refused>
    requires { Served entered.old known.old names.old chains.old s.used × Stacked scopes.old s }
    ensures { ((result & entered.new & names.new & out.new) ≡ field_walk_t rows.now ends.now (scope_walk_t rows.now ends.now (length scopes.old - s.depth)) entered.old names.old scopes.old out.old s) × FieldBy result s entered.new known.new names.new chains.new scopes.old scopes.new }
{
    let walked = write_head(
        field_rows(rows, ends, s.at),
        entered,
        known,
        names,
        chains,
        scopes,
        out,
        s,
    );
    match walked {
        Err(_) => walked,
        Ok(t) => {
            if code_at(rows, t.at) != OPEN {
                return Ok(t);
            }
            let inside = scope_walk(
                rows,
                ends,
                entered,
                known,
                names,
                chains,
                scopes,
                out,
                at_depth(t, s.depth),
            );
            match inside {
                Err(_) => inside,
                Ok(u) => Ok(after_scope(t, u)),
            }
        }
    }
}

// A field begins where `depth` scopes are open: its inserted slots are the scope's next, and none of its cases was seen. The
// slots up to there stand before it.
fn begun(mut s: WriteState, depth: usize) -> WriteState
    ensures { (result ≡ begun_t s depth) × (result.depth ≡ depth) }
{
    s.depth = depth;
    s.alias = s.next;
    s.seen = 0;
    s.before = s.next;
    s
}

// The same state where `depth` scopes are open.
fn at_depth(mut s: WriteState, depth: usize) -> WriteState
    ensures { (result ≡ at_depth_t s depth) × (result.depth ≡ depth) }
{
    s.depth = depth;
    s
}

// The CLOSE of a scope.
fn closed(rows: &[u8], out: &mut [u8], mut s: WriteState) -> WriteState
    ensures { (result & out.new) ≡ close_scope_t rows.now out.old s }
{
    s.to = copy_row(rows, s.at, out, s.to);
    s.at = row_number(s.at, 1) as usize;
    s
}

// Where the scope inside a field has ended: its slots are free again.
fn after_scope(mut before: WriteState, inside: WriteState) -> WriteState
    ensures { result ≡ after_scope_t before inside }
{
    before.at = inside.at;
    before.to = inside.to;
    before.fresh = inside.fresh;
    before
}
