// The edges of what is drawn. A row is a line, whatever it says, so that where it stands goes by its number alone.
use row_parts::{code_at, rows_in};
use rows::row::{FIELD, OPEN};
use scopes::level_behind;

// How high a line is.
pub const LINE: u32 = 18;

// Where the first line begins, below the heading.
const TOP: u32 = 70;

// Where the outermost scope begins, and how much further right each scope inside another.
const LEFT: u16 = 46;

const STEP: u16 = 16;

// More scopes than a form has open; what lies deeper stands no further right.
const DEEPEST: u8 = 40;

// How much room there is for words in the innermost scope, besides names, and how wide a letter is.
const WORDS: u16 = 380;

const LETTER: u16 = 7;

// The longest name for which there is room.
const LONGEST: u8 = 60;

// How far apart the lanes of arcs are.
const LANE: u32 = 12;

// So far below the upper edge of a row's line.
pub fn line_at(row: u16, offset: u8) -> u32 {
    TOP + LINE * u32::from(row) + u32::from(offset)
}

fn depth_of(level: u32) -> u8 {
    if level < 40 { level as u8 } else { DEEPEST }
}

// The left edge of a scope that is opened behind this many open ones.
pub fn left_of(level: u32) -> u32 {
    u32::from(LEFT + STEP * u16::from(depth_of(level)))
}

// How far inside its scope a row stands: what a field holds stands in it.
fn inset_of(code: u8) -> u8 {
    if (code == OPEN) | (code == FIELD) {
        10
    } else {
        26
    }
}

// So far to the right of where a row begins.
pub fn row_at(code: u8, level: u32, offset: u8) -> u32 {
    let left = u32::from(LEFT + STEP * u16::from(depth_of(level)));
    left + u32::from(inset_of(code)) + u32::from(offset)
}

// The right edge of the scopes, by how many are open at most, and how long names are.
pub fn right_of(level: u32, longest: u8) -> u16 {
    LEFT + STEP * u16::from(depth_of(level)) + WORDS + LETTER * u16::from(longest)
}

// So far to the right of where a lane is, behind that edge.
pub fn lane_at(right: u16, lane: u16, offset: u8) -> u32 {
    u32::from(right) + LANE * u32::from(lane) + u32::from(offset)
}

// How far it is from one edge to another.
pub fn gap(from: u32, to: u32) -> u32 {
    to.saturating_sub(from)
}

// The most scopes that are open behind a row.
pub fn deepest(form: &[u8]) -> u32 {
    let rows = rows_in(form);
    let mut most: u32 = 0;
    let mut level: u32 = 0;
    for row in 0..rows {
        level = level_behind(level, code_at(form, row));
        most = most.max(level);
    }
    most
}

// The length of a line with one byte more.
fn with_byte(count: u8, byte: u8) -> u8 {
    if byte == b'\n' {
        0
    } else if count < LONGEST {
        count + 1
    } else {
        count
    }
}

// The length of a file's longest line, as far as there is room.
pub fn longest_line(text: &[u8]) -> u8 {
    let mut most: u8 = 0;
    let mut count: u8 = 0;
    for byte in text {
        count = with_byte(count, *byte);
        most = most.max(count);
    }
    most
}
