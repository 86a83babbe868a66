// The words at the front of a vector, and where each stands.
ghost use Rattle.std.specs.Prelude.{◌+◌, ◌<◌, ◌≤◌};

pub type Head = [u8; 100];

// The function, the number that it is given, and the halves of its answer.
pub const FUNCTION: usize = 0;

pub const NUMBER: usize = 4;

const UPPER: usize = 8;

const LOWER: usize = 12;

// The lengths of the inputs.
pub const FIRST_INPUT: usize = 16;

pub const SECOND_INPUT: usize = 20;

pub const THIRD_INPUT: usize = 24;

// The three words of each buffer that is lent: its length, what is written, what is written or cleared.
pub const FIRST: usize = 28;

pub const SECOND: usize = 40;

pub const THIRD: usize = 52;

pub const FOURTH: usize = 64;

pub const FIFTH: usize = 76;

pub const SIXTH: usize = 88;

fn wide(b: u8) -> u64
    ensures { result < 256 }
{
    b as u64
}

// The word that begins at byte `a`.
pub fn word(head: &Head, a: usize) -> u64
    requires { a + 4 ≤ 100 }
    ensures { result < 4294967296 }
{
    wide(head[a])
        + wide(head[a + 1]) * 256
        + wide(head[a + 2]) * 65536
        + wide(head[a + 3]) * 16777216
}

// The number that begins at byte `a` of an input, 0 where there is none.
pub fn number_in(bytes: &[u8], a: usize) -> u32
    requires { a ≤ 32 }
{
    if a + 4 > bytes.len() {
        return 0;
    }
    let number = wide(bytes[a])
        + wide(bytes[a + 1]) * 256
        + wide(bytes[a + 2]) * 65536
        + wide(bytes[a + 3]) * 16777216;
    number as u32
}

// How much of a buffer is written, and how much written or cleared, by where its words begin.
pub fn written_at(head: &Head, at: usize) -> u64
    requires { at + 12 ≤ 100 }
    ensures { result < 4294967296 }
{
    word(head, at + 4)
}

pub fn cleared_at(head: &Head, at: usize) -> usize
    requires { at + 12 ≤ 100 }
{
    word(head, at + 8) as usize
}

// Whether this is the answer that the vector states.
pub fn is_answer(head: &Head, answer: u64) -> bool {
    answer == word(head, UPPER) * 4294967296 + word(head, LOWER)
}
