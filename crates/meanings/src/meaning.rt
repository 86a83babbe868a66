// What a row means, found with the tables of its form.
ghost use Rattle.std.specs.Prelude.{◌≡◌, ◌<◌};
ghost use Rattle.row_parts.specs.Parts.{rows_in};
ghost use Rattle.scopes.specs.Tables.{Tabled};
ghost use Rattle.meanings.specs.Entries.{meant_by};

use readings::{Meaning, meaning_with};
use row_parts::{code_at, is_reference, x_at};
use rows::row::DECL;
use scopes::tables::number_at;

// The declaration that a row has or means.
pub(crate) fn meant_by(
    form: &[u8],
    known: &[u16],
    names: &[u16],
    numbers: &[u16],
    row: u16,
) -> Option<Meaning>
    requires { Tabled form.now known.now names.now numbers.now × (row < rows_in form.now) }
    ensures { result ≡ meant_by form.now row }
{
    if code_at(form, row) == DECL {
        return Some(Meaning {
            row,
            number: number_at(form, known, row) as u32,
            out: 0,
            name: x_at(form, row),
        });
    }
    if is_reference(form, row) {
        return meaning_with(form, known, names, numbers, row);
    }
    None
}
