// Whether a spoilt form will be one once it is mended, told before anything is: its mended rows are made one at a time and read.
#![tactic(auto)]

ghost use Rattle.std.specs.Prelude.{◌≡◌, ◌+◌, ◌-◌, ◌/◌, ◌≤◌, ◌<◌, length};
ghost use Rattle.kit.specs.Out.{◌&◌};
ghost use Rattle.parts.specs.PartsAt.{parts_at};
ghost use Rattle.rows.specs.FromParts.{row_of};
ghost use Rattle.limits.specs.Held.{rules_of};
ghost use Rattle.codes.specs.Values.{Allows};
ghost use Rattle.wants.specs.States.{Right};
ghost use Rattle.read_row.specs.Machine.{outcome_of, position_of, read_step_t, in_root};
ghost use Rattle.reader.specs.Machine.{read_rows_t};
ghost use Rattle.reader.specs.ReadTo.{read_to};
ghost use Rattle.mend_form.specs.Kept.{kept_in};
ghost use Rattle.mend_form.specs.Filled.{mended_body_t};

use codes::allowed_rows;
use limits::{Limits, most_scopes};
use mend_form::{Kept, kept_in, row_of};
use read_row::{ReadState, WHOLE, root};
use reader::{BadRows, Progress, read_as, read_on};
use rows::row::{Row, row_to};
use wants::table;

// Reads the next row of the mended form.
fn read_next(
    rows: &[u8],
    kept: Kept,
    from: Progress,
    kinds: &mut [usize],
    table: &[[u8; 41]; 67],
    allowed: &[[u8; 26]; 4],
    limits: Limits,
) -> ReadState
    requires rows_in_bounds { (kept.rows ≤ length rows.now / 16) × (from.state.stage < 5) }
    requires right { Right table.now }
    requires allows { Allows allowed.now }
    ensures { (outcome_of result & kinds.new) ≡ read_step_t (rules_of limits.rules) (position_of from.state) kinds.old (row_of limits.names (parts_at (mended_body_t rows.now kept) from.next)) }
{
    let row = row_of(rows, kept, from.next);
    let state = from.state;
    let start = Progress { state, next: 0 };
    let read = read_on(
        &row,
        start,
        kinds,
        table,
        allowed,
        limits.names,
        limits.rules,
    );
    read.state
}

// The mended rows after the root's OPEN.
fn read_rows(
    rows: &[u8],
    kept: Kept,
    kinds: &mut [usize],
    table: &[[u8; 41]; 67],
    allowed: &[[u8; 26]; 4],
    limits: Limits,
) -> Result<(), BadRows>
    requires rows_in_bounds { (kept.rows ≤ length rows.now / 16) × (kept.rows + kept.scopes < 18446744073709551616) }
    requires right { Right table.now }
    requires allows { Allows allowed.now }
    ensures { result ≡ read_rows_t (rules_of limits.rules) limits.names (mended_body_t rows.now kept) 1 (kept.rows + kept.scopes - 1) in_root kinds.old }
{
    let n = kept.rows + kept.scopes;
    let mut s = root();
    let mut i = 1;
    while s.stage < WHOLE {
        if n <= i {
            return read_as(n, Progress { state: s, next: i });
        }
        let behind = i + 1;
        let from = Progress { state: s, next: i };
        s = read_next(rows, kept, from, kinds, table, allowed, limits);
        i = behind;
    }
    read_as(n, Progress { state: s, next: i })
}

// Whether the rows, once mended, are a form within the limits.
pub fn read_mended(rows: &[u8], limits: Limits) -> Result<(), BadRows>
    ensures { result ≡ read_to limits (mended_body_t rows.now (kept_in rows.now)) }
{
    let kept = kept_in(rows);
    let first = row_of(rows, kept, 0);
    let Row::Open { kind, name: _ } = row_to(&first, 0, limits.names) else {
        return Err(BadRows::Broken(0));
    };
    if kind != 0 {
        return Err(BadRows::Broken(0));
    }
    let scopes = most_scopes(limits);
    // No setting has none.
    if scopes == 0 {
        return Err(BadRows::Deep(0));
    }
    let mut kinds = [0usize; 255];
    let next = table();
    let allowed = allowed_rows();
    read_rows(rows, kept, &mut kinds[0..scopes], &next, &allowed, limits)
}
