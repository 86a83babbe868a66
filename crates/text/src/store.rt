// A form's bytes: its rows and its header.
ghost use Rattle.std.specs.Prelude.{◌≡◌, ◌+◌, ◌≤◌, length};
ghost use Rattle.std.proofs.lemmas.List.Edits.{sets};
ghost use Rattle.rules.specs.Rows.{bytes};
ghost use Rattle.text.specs.Text.{start_bytes, row_bytes, header};

use parts::Parts;

// Writes a number into this many bytes, the lower first.
fn put_number(out: &mut [u8], at: usize, count: usize, number: u32)
    requires { at + count ≤ length out.old }
    ensures { out.new ≡ sets out.old at (bytes count number) }
{
    let mut left = number;
    let mut i = 0;
    while i < count {
        out[at + i] = (left % 256) as u8;
        left = left / 256;
        i += 1;
    }
}

// Writes the first three parts of a row from a place on.
fn put_start(out: &mut [u8], at: usize, code: u8, b: u8, e: u32)
    requires { at + 4 ≤ length out.old }
    ensures { out.new ≡ sets out.old at (start_bytes code b e) }
{
    put_number(out, at, 1, code as u32);
    put_number(out, at + 1, 1, b as u32);
    put_number(out, at + 2, 2, e);
}

// Writes a row's six parts from a place on.
pub(crate) fn put_parts(out: &mut [u8], at: usize, p: Parts)
    requires { at + 16 ≤ length out.old }
    ensures { out.new ≡ sets out.old at (row_bytes p) }
{
    put_start(out, at, p.code, p.b, p.e);
    put_number(out, at + 4, 4, p.x);
    put_number(out, at + 8, 4, p.y);
    put_number(out, at + 12, 4, p.z);
}

// Writes the header of a form of this many rows: WNT, version 1, and their count.
pub(crate) fn put_header(out: &mut [u8], rows: u32)
    requires { 8 ≤ length out.old }
    ensures { out.new ≡ sets out.old 0 (header rows) }
{
    put_number(out, 0, 4, 22302295);
    put_number(out, 4, 2, 0);
    put_number(out, 6, 2, rows);
}
