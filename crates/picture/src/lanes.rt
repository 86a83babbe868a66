// The lane of the arcs to each declaration. Arcs to one declaration share a lane, arcs that overlap have lanes of their own, and short
// ones are nearest to the rows.
ghost use Rattle.std.specs.Prelude.{◌≡◌, ◌&&◌};
ghost use Rattle.picture.specs.Lanes.{overlap};

use crate::arcs::{MOST, entry_of};

// The rows from which and up to which arcs reach.
#[derive(Clone, Copy)]
pub struct Span {
    pub first: u16,
    pub last: u16,
}

fn span_of(first: &[u16; MOST], last: &[u16; MOST], decl: u16) -> Span {
    Span {
        first: entry_of(first, decl),
        last: entry_of(last, decl),
    }
}

// Whether two spans have a row in common.
pub fn overlap(one: Span, other: Span) -> bool
    ensures { result ≡ overlap one other }
{
    (one.first <= other.last) & (other.first <= one.last)
}

// How many rows further down a span ends than it begins; 0 for that of no arcs.
pub fn length_of(span: Span) -> u16 {
    span.last.saturating_sub(span.first)
}

// Marks a lane as taken, by a number that no other marking has.
fn take(taken: &mut [u16; MOST], lane: u16, mark: u16) {
    taken[usize::from(lane) % MOST] = mark;
}

// Marks the lanes of the arcs that overlap a span. Lane 0 is that of what has none yet.
fn take_overlapping(
    rows: u16,
    first: &[u16; MOST],
    last: &[u16; MOST],
    lanes: &[u16; MOST],
    taken: &mut [u16; MOST],
    span: Span,
    mark: u16,
) {
    for decl in 0..rows {
        if overlap(span, span_of(first, last, decl)) {
            take(taken, entry_of(lanes, decl), mark);
        }
    }
}

// The first lane, from 1 on, that is not taken.
fn free_lane(taken: &[u16; MOST], mark: u16) -> u16 {
    for lane in 1..4095 {
        if entry_of(taken, lane) != mark {
            return lane;
        }
    }
    4095
}

// Gives lanes to the declarations whose arcs have that length.
fn give_lanes(
    rows: u16,
    length: u16,
    first: &[u16; MOST],
    last: &[u16; MOST],
    lanes: &mut [u16; MOST],
    taken: &mut [u16; MOST],
) {
    for decl in 0..rows {
        let span = span_of(first, last, decl);
        if length_of(span) == length {
            take_overlapping(rows, first, last, lanes, taken, span, decl + 1);
            lanes[usize::from(decl) % MOST] = free_lane(taken, decl + 1);
        }
    }
}

// Gives a lane to each declaration to which arcs lead.
pub fn note_lanes(rows: u16, first: &[u16; MOST], last: &[u16; MOST], lanes: &mut [u16; MOST]) {
    let mut taken = [0u16; MOST];
    for length in 1..rows {
        give_lanes(rows, length, first, last, lanes, &mut taken);
    }
}

// The last lane.
pub fn last_lane(rows: u16, lanes: &[u16; MOST]) -> u16 {
    let mut most: u16 = 0;
    for decl in 0..rows {
        most = most.max(entry_of(lanes, decl));
    }
    most
}
