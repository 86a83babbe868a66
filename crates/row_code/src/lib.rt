// The code of a row, without taking it apart.
#![tactic(auto)]

ghost use Rattle.std.specs.Prelude.{◌≡◌};
ghost use Rattle.row_code.specs.Code.{code_at};

// The code of the row at i, 0 where there is none.
pub fn code_at(rows: &[u8], i: usize) -> u8
    ensures { result ≡ code_at rows.now i }
{
    if rows.len() / 16 <= i {
        return 0;
    }
    rows[16 * i]
}
