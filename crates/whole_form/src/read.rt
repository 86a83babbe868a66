// Whether bytes are a form by themselves, with no step taken: refusals 1, 2, 4 and 5.
ghost use Rattle.std.specs.Prelude.{◌≡◌, ◌≤◌, length};
ghost use Rattle.rules.specs.Versions.{as_claimed};
ghost use Rattle.read_form.specs.ReadForm.{read_form};
ghost use Rattle.limits.specs.Held.{setting_in, setting};
ghost use Rattle.reader.specs.ReadTo.{read_to};
ghost use Rattle.whole_form.specs.Whole.{form_of, refused_t, read_t, body_t};

use form::header::header_to;
use limits::{Limits, of_claim, of_input};
use reader::{BadRows, read_to};
use refusal::{BROKEN, DEEP, Refusal};

// A refusal whose number document 01 gives, and its place.
fn refused(number: u32, place: u32) -> Result<usize, Refusal>
    ensures { result ≡ refused_t number place }
{
    Err(Refusal { number, place })
}

// A byte as a number.
fn wide(byte: u8) -> usize
    ensures { result ≡ byte }
{
    byte as usize
}

// Whether this many rows are those of a form within the limits.
pub fn read_rows(rows: &[u8], limits: Limits, count: usize) -> Result<usize, Refusal>
    ensures { result ≡ read_t (read_to limits rows.now) count }
{
    match read_to(rows, limits) {
        Err(BadRows::Broken(row)) => refused(BROKEN, (row % 4294967296) as u32),
        Err(BadRows::Deep(row)) => refused(DEEP, (row % 4294967296) as u32),
        Ok(()) => Ok(count),
    }
}

// The same of the rows behind the header.
fn read_body(form: &[u8], limits: Limits, rows: usize) -> Result<usize, Refusal>
    requires { limits.header ≤ length form.now }
    ensures { result ≡ body_t limits rows form.now }
{
    let header = wide(limits.header);
    read_rows(&form[header..], limits, rows)
}

// Whether the bytes are a form of these limits, by which a row's number has four bytes.
fn read_held(form: &[u8], limits: Limits) -> Result<usize, Refusal>
    requires { limits.rows ≤ 4294967295 }
    ensures { result ≡ form_of (read_form (setting_in limits) form.now) }
{
    let rows = header_to(form, limits)?;
    read_body(form, limits, rows)
}

// Whether the bytes are an input of the setting at this place in the list of all.
pub fn read_input(form: &[u8], i: usize) -> Result<usize, Refusal>
    ensures { result ≡ form_of (read_form (setting i) form.now) }
{
    read_held(form, of_input(i))
}

// Whether the bytes are as an output of that setting may be: any name that fits a row, and four times the rows.
pub fn read_claim(form: &[u8], i: usize) -> Result<usize, Refusal>
    ensures { result ≡ form_of (read_form (as_claimed (setting i)) form.now) }
{
    read_held(form, of_claim(i))
}
