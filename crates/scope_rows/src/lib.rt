// The scope of a row and the number of a declaration, found by going through the rows.
//
// A scope is known by its first row, the one behind its OPEN. The rows outside every OPEN have 0 for theirs.
#![tactic(auto)]

ghost use Rattle.std.specs.Prelude.{◌≡◌, ◌&&◌, ◌+◌, ◌-◌, ◌<◌, ◌≤◌, eqb};
ghost use Rattle.scope_rows.specs.Levels.{level_on, level_above, scope_of, declares, number_of};

use row_parts::{b_at, code_at, counted};
use rows::row::{CLOSE, DECL, OPEN};

// ---- levels

// How many scopes are open behind a row, of those that opened since the start.
#[tactic(auto, using(crate::proofs::LevelLaws::level_ways))]
pub fn level_behind(level: u32, code: u8) -> u32
    ensures { (result ≡ level_on level code) × (result ≤ level + 1) }
{
    if code == OPEN {
        counted(level, true)
    } else if code == CLOSE {
        level.saturating_sub(1)
    } else {
        level
    }
}

// The same, going up: how many of those that closed since are not yet opened.
#[tactic(auto, using(crate::proofs::LevelLaws::level_ways))]
fn level_above(level: u32, code: u8) -> u32
    requires { level < 4294967295 }
    ensures { (result ≡ level_above level code) × (result ≤ level + 1) }
{
    if code == CLOSE {
        level + 1
    } else if code == OPEN {
        level.saturating_sub(1)
    } else {
        level
    }
}

// Whether a row is the OPEN or the CLOSE of the scope itself.
pub fn is_bound(level: u32, code: u8, bound: u8) -> bool
    ensures { result ≡ (eqb level 0 && eqb code bound) }
{
    (level == 0) & (code == bound)
}

// ---- the scope of a row

// The innermost scope around a row; of an OPEN, the one around it.
#[tactic(auto, using(crate::proofs::LevelLaws::climb_ways))]
pub fn scope_of(form: &[u8], row: u16) -> u16
    ensures { (result ≡ scope_of form.now row) × (result ≤ row) }
{
    let mut level: u32 = 0;
    for above in (0..row).rev() {
        let code = code_at(form, above);
        if is_bound(level, code, OPEN) {
            return above + 1;
        }
        level = level_above(level, code);
    }
    0
}

// ---- the number of a declaration

// Whether a row declares something of a space, in the scope itself.
#[tactic(auto, using(crate::proofs::LevelLaws::level_ways))]
pub fn declares(form: &[u8], row: u16, level: u32, space: u8) -> bool
    ensures { result ≡ declares form.now row level space }
{
    (level == 0) & (code_at(form, row) == DECL) & (b_at(form, row) == space)
}

// The number of the declaration at a DECL row, among those of its space in its scope.
pub fn number_of(form: &[u8], decl: u16) -> u32
    ensures { result ≡ number_of form.now decl }
{
    let space = b_at(form, decl);
    let scope = scope_of(form, decl);
    let mut level: u32 = 0;
    let mut number: u32 = 0;
    for row in scope..decl {
        number = counted(number, declares(form, row, level, space));
        level = level_behind(level, code_at(form, row));
    }
    number
}
