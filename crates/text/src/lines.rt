// What a line of text is.
ghost use Rattle.std.specs.Prelude.{◌≡◌, drop};
ghost use Rattle.text.specs.Lines.{is_blank_byte, is_blank, is_comment, is_apart, is_closed, has_bracket, sized, row_in, line_of};

use crate::numbers::number_behind;
use parts::Parts;

// What is wrong with a line, or with the text.
#[derive(Clone, Copy)]
pub enum Why {
    NoRow,
    Second,
    LargeCode,
    LargeB,
    LargeE,
    LargeX,
    LargeY,
    LargeZ,
    Many,
    Empty,
}

// Whether a byte is a blank, a tab or of the end of a line.
fn is_blank_byte(byte: u8) -> bool
    ensures { result ≡ is_blank_byte byte }
{
    (byte == b' ') | (byte == b'\t') | (byte == b'\n') | (byte == b'\r')
}

fn is_blank(line: &[u8]) -> bool
    ensures { result ≡ is_blank line.now }
{
    let mut i = 0;
    while i < line.len() {
        if is_blank_byte(line[i]) {
            i += 1;
        } else {
            return false;
        }
    }
    true
}

fn is_comment(line: &[u8]) -> bool
    ensures { result ≡ is_comment line.now }
{
    if line.len() == 0 {
        return false;
    }
    line[0] == b'#'
}

// Whether what stands from a place on is apart from what is before it.
fn is_apart(line: &[u8], at: usize) -> bool
    ensures { result ≡ is_apart (drop at line.now) }
{
    if line.len() <= at {
        return true;
    }
    is_blank_byte(line[at])
}

// Whether a row ends at a place.
fn is_closed(line: &[u8], at: usize) -> bool
    ensures { result ≡ is_closed (drop at line.now) }
{
    if line.len() <= at {
        return false;
    }
    if line[at] == b']' {
        is_apart(line, at + 1)
    } else {
        false
    }
}

// Whether a bracket opens from a place on.
fn has_bracket(line: &[u8], from: usize) -> bool
    ensures { result ≡ has_bracket (drop from line.now) }
{
    let mut i = from;
    while i < line.len() {
        if line[i] == b'[' {
            return true;
        }
        i += 1;
    }
    false
}

// A row of six numbers, if each fits its part.
fn sized_row(code: u64, b: u64, e: u64, x: u64, y: u64, z: u64) -> Result<Option<Parts>, Why>
    ensures { result ≡ sized code b e x y z }
{
    if 255 < code {
        return Err(Why::LargeCode);
    }
    if 255 < b {
        return Err(Why::LargeB);
    }
    if 65535 < e {
        return Err(Why::LargeE);
    }
    if 4294967295 < x {
        return Err(Why::LargeX);
    }
    if 4294967295 < y {
        return Err(Why::LargeY);
    }
    if 4294967295 < z {
        return Err(Why::LargeZ);
    }
    Ok(Some(Parts {
        code: code as u8,
        b: b as u8,
        e: e as u32,
        x: x as u32,
        y: y as u32,
        z: z as u32,
    }))
}

// A row, if the line is one.
fn row_in(line: &[u8]) -> Result<Option<Parts>, Why>
    ensures { result ≡ row_in line.now }
{
    let code = number_behind(line, 0, b'[');
    let b = number_behind(line, code.end, b' ');
    let e = number_behind(line, b.end, b' ');
    let x = number_behind(line, e.end, b' ');
    let y = number_behind(line, x.end, b' ');
    let z = number_behind(line, y.end, b' ');
    if is_closed(line, z.end) {
        if has_bracket(line, z.end) {
            Err(Why::Second)
        } else {
            sized_row(code.value, b.value, e.value, x.value, y.value, z.value)
        }
    } else {
        Err(Why::NoRow)
    }
}

pub(crate) fn line_of(line: &[u8]) -> Result<Option<Parts>, Why>
    ensures { result ≡ line_of line.now }
{
    if is_blank(line) {
        return Ok(None);
    }
    if is_comment(line) {
        return Ok(None);
    }
    row_in(line)
}
