// Which fields of a claim are added: those with a DECL whose name no input has.
ghost use Rattle.std.specs.Prelude.{◌≡◌};
ghost use Rattle.claim_rows.specs.Left.{rows_at};
ghost use Rattle.claim_rows.specs.Added.{any_fresh, is_added_t};

use fixed::FIRST_FRESH;
use parts::parts_at;
use rows::row::{CLOSE, DECL, FIELD};

// Whether one of the DECLs that stand from row `from` on has such a name.
#[tactic(auto, using(crate::proofs::Ways::freshes))]
fn any_fresh(rows: &[u8], from: usize) -> bool
    ensures { result ≡ any_fresh (rows_at rows.now from) }
{
    let n = rows.len() / 16;
    for i in from..n {
        let p = parts_at(rows, i);
        if p.code != DECL {
            return false;
        }
        if FIRST_FRESH <= p.x {
            return true;
        }
    }
    false
}

// Whether the field of a row of this code is added: a FIELD's DECLs tell, of which `next` is the first; a CLOSE is of none;
// other rows are as the row before.
pub fn is_added(before: bool, code: u8, rows: &[u8], next: usize) -> bool
    ensures { result ≡ is_added_t before code (rows_at rows.now next) }
{
    if code == FIELD {
        return any_fresh(rows, next);
    }
    if code == CLOSE {
        return false;
    }
    before
}
