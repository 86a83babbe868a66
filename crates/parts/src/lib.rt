// The six parts of a row, out of its sixteen bytes:
//     byte  0     1   2-3   4-7   8-11   12-15
//     part  code  b   e     x     y      z        the lower byte first
#![tactic(auto)]

ghost use Rattle.std.specs.Prelude.{◌≡◌, ◌+◌, ◌/◌, ◌≤◌, ◌<◌, length};
ghost use Rattle.parts.specs.PartsAt.{two, four, parts_in, parts_at};

// The six parts of a row.
#[derive(Clone, Copy)]
pub struct Parts {
    pub code: u8,
    pub b: u8,
    pub e: u32,
    pub x: u32,
    pub y: u32,
    pub z: u32,
}

// ---- numbers in bytes, the lower byte first

// A byte as a number.
fn wide(byte: u8) -> u32
    ensures { (result ≡ byte) × (result < 256) }
{
    byte as u32
}

// The number in the two bytes from a.
fn half(rows: &[u8], a: usize) -> u32
    requires { a + 2 ≤ length rows.now }
    ensures { result ≡ two rows.now a }
{
    wide(rows[a]) + wide(rows[a + 1]) * 256
}

// The number in the four bytes from a.
fn word(rows: &[u8], a: usize) -> u32
    requires { a + 4 ≤ length rows.now }
    ensures { result ≡ four rows.now a }
{
    wide(rows[a])
        + wide(rows[a + 1]) * 256
        + wide(rows[a + 2]) * 65536
        + wide(rows[a + 3]) * 16777216
}

// The six parts of the row at i, which is there.
fn parts_in(rows: &[u8], i: usize) -> Parts
    requires { i < length rows.now / 16 }
    ensures { result ≡ parts_in rows.now i }
{
    let a = 16 * i;
    Parts {
        code: rows[a],
        b: rows[a + 1],
        e: half(rows, a + 2),
        x: word(rows, a + 4),
        y: word(rows, a + 8),
        z: word(rows, a + 12),
    }
}

// The six parts of the row at i, all zero where there is none.
pub fn parts_at(rows: &[u8], i: usize) -> Parts
    ensures { result ≡ parts_at rows.now i }
{
    if rows.len() / 16 <= i {
        return Parts {
            code: 0,
            b: 0,
            e: 0,
            x: 0,
            y: 0,
            z: 0,
        };
    }
    parts_in(rows, i)
}
