// The rows of a form, read with guards: what lies past the end is 0, so that any bytes can be looked at. What is asked of single rows and of
// the header stands in crates below, and is passed on here; fields are here.
#![tactic(auto)]

ghost use Rattle.std.specs.Prelude.{◌≡◌};
ghost use Rattle.row_parts.specs.Parts.{field_of, is_typed, is_ascribed, inserted_in};

pub use fixed::FIRST_FRESH;
pub use row_bytes::{b_at, code_at, e_at, x_at, y_at, z_at};
pub use row_count::{has_header, is_whole, rows_in, rows_said};
pub use row_kinds::{counted, is_inserted, is_reference, next};
use rows::row::{FIELD, REF};
pub use rows::row::{CASE, EXPORT, OUTER, PATH};

// The FIELD row to which a row belongs: the last one up to it, or row 0.
#[tactic(auto, using(crate::proofs::PartLaws::field_ways))]
pub fn field_of(form: &[u8], row: u16) -> u16
    ensures { result ≡ field_of form.now row }
{
    for above in (0..row).rev() {
        if code_at(form, above + 1) == FIELD {
            return above + 1;
        }
    }
    0
}

// ---- exports with an ascribed type

// Whether a FIELD is that of one.
#[tactic(auto, using(crate::proofs::PartLaws::part_ways))]
fn is_typed(form: &[u8], field: u16) -> bool
    ensures { result ≡ is_typed form.now field }
{
    (b_at(form, field) == 22) & (e_at(form, field) == 1)
}

// Whether a reference is that of the ascribed type. Only in an export of a type are both references to the space that it declares, and
// then the first has no PATHs.
#[tactic(auto, using(crate::proofs::PartLaws::part_ways))]
pub fn is_ascribed(form: &[u8], row: u16) -> bool
    ensures { result ≡ is_ascribed form.now row }
{
    let field = field_of(form, row);
    let is_elsewhere = b_at(form, row) != b_at(form, next(field));
    is_typed(form, field) & (is_elsewhere | (code_at(form, next(row)) == REF))
}

// ---- inserted fields

// How many fields of a form are inserted: each has one DECL.
pub fn inserted_in(form: &[u8]) -> u32
    ensures { result ≡ inserted_in form.now }
{
    let rows = rows_in(form);
    let mut count: u32 = 0;
    for row in 0..rows {
        count = counted(count, is_inserted(form, row));
    }
    count
}
