// The mended form put in place of the spoilt one, a row at a time: a mended row is made of the old row alone.
ghost use Rattle.std.specs.Prelude.{◌≡◌, ◌+◌, ◌*◌, ◌-◌, ◌/◌, ◌≤◌, ◌<◌, length, take, drop, replicate};
ghost use Rattle.std.proofs.lemmas.List.Edits.{sets};
ghost use Rattle.kit.specs.Pick.{pick};
ghost use Rattle.mend_form.specs.Filled.{mended_body_t, row_in};
ghost use Rattle.mend.specs.Run.{new_t, in_place};

use copy::copy;
use limits::Limits;
use mend_form::{Kept, row_of};
use whole_form::header::put_header;

// Zeroes from byte `from` up to byte `end`.
#[tactic(auto, using(crate::proofs::InPlace::zero_put))]
fn zero(buffer: &mut [u8], from: usize, end: usize)
    requires { end ≤ length buffer.old }
    ensures { buffer.new ≡ sets buffer.old from (replicate (end - from) 0) }
{
    if from < end {
        buffer[from..end].fill(0);
    }
}

// Puts row i of the mended form in its place.
fn put_row(rows: &mut [u8], kept: Kept, i: usize)
    requires { 16 * i < 18446744073709551616 }
    ensures { rows.new ≡ sets rows.old (16 * i) (row_in rows.old kept i) }
{
    let row = row_of(rows, kept, i);
    copy(&row, rows, 16 * i);
}

// Mends the rows that stay, and puts the CLOSE rows behind them.
fn put_rows(rows: &mut [u8], kept: Kept)
    requires { 16 * (kept.rows + kept.scopes) ≤ length rows.old }
    ensures { rows.new ≡ sets rows.old 0 (mended_body_t rows.old kept) }
{
    let count = kept.rows + kept.scopes;
    for i in 0..count {
        put_row(rows, kept, i);
    }
}

// Puts the mended form in place of the first `long` bytes, and zeros where it is shorter.
pub(crate) fn put_form(buffer: &mut [u8], long: usize, limits: Limits, kept: Kept)
    requires { (6 + pick limits.wide 4 2 ≤ limits.header) × (long ≤ length buffer.old) × (limits.header + 16 * kept.rows ≤ long) × (limits.header + 16 * (kept.rows + kept.scopes) ≤ length buffer.old) }
    ensures { buffer.new ≡ in_place buffer.old long (new_t limits (take long buffer.old) kept) }
{
    let header = usize::from(limits.header);
    let count = kept.rows + kept.scopes;
    put_header(buffer, limits, count);
    put_rows(&mut buffer[header..], kept);
    zero(buffer, header + 16 * count, long);
}
