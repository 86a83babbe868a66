// The arcs from references to what they mean. Those to one declaration run in one lane.
use crate::numbers::has_moved;
use crate::svg::{write, write_unit};
use meanings::entries::Entry;
use meanings::meaning_at;
use picture::arcs::{MOST, entry_of};
use picture::places::{lane_at, line_at};
use readings::Meaning;
use row_parts::rows_in;
use words::Talk;

// Whether what a reference means stands in a scope further out.
fn leads_out(meaning: Option<Meaning>) -> bool {
    match meaning {
        Some(Meaning { out, .. }) => 0 < out,
        None => false,
    }
}

// The class of an arc: of a number that has moved, to a scope further out, or within the scope.
fn arc_class(form: &[u8], entries: &[Entry], row: u16, is_moved: bool) -> u8 {
    if is_moved {
        b't'
    } else if leads_out(meaning_at(form, entries, row)) {
        b'c'
    } else {
        b'a'
    }
}

// The bends of an arc in its lane: `out` is where the lane is reached, below or above the reference's line, and `back` where it is left.
fn write_lane(talk: Talk<'_>, right: u16, lane: u16, out: u32, back: u32) {
    write_unit(talk, b" ", lane_at(right, lane, 14));
    write_unit(talk, b" ", out);
    write_unit(talk, b"V", back);
    write_unit(talk, b"Q", lane_at(right, lane, 14));
    write(talk, b" ");
}

fn draw_arc(talk: Talk<'_>, row: u16, target: u16, lane: u16, class: u8, right: u16) {
    let x = lane_at(right, lane, 14);
    let bend = lane_at(right, lane, 8);
    let from = line_at(row, 16);
    let to = line_at(target, 9);
    write(talk, b"<path class=\"");
    write(talk, &[class]);
    write_unit(talk, b"\" d=\"M", u32::from(right));
    write_unit(talk, b" ", from);
    write_unit(talk, b"H", bend);
    write_unit(talk, b"Q", x);
    write_unit(talk, b" ", from);
    if row < target {
        write_lane(talk, right, lane, line_at(row, 22), line_at(target, 3));
    } else {
        write_lane(talk, right, lane, line_at(row, 10), line_at(target, 15));
    }
    write_unit(talk, b"", to);
    write_unit(talk, b" ", bend);
    write_unit(talk, b" ", to);
    write_unit(talk, b"H", lane_at(right, 0, 2));
    write(talk, b"\" marker-end=\"url(#e");
    write(talk, &[class]);
    write(talk, b")\"/>\n");
}

// Draws the arcs of a form. `targets` has for each row what it means, by its entry, `lanes` the lane of the arcs to it, `list` this many numbers that have moved.
pub(crate) fn draw_arcs(
    talk: Talk<'_>,
    form: &[u8],
    entries: &[Entry],
    targets: &[u16; MOST],
    lanes: &[u16; MOST],
    list: &[u8],
    count: u32,
    right: u16,
) {
    let rows = rows_in(form);
    for row in 0..rows {
        let target = entry_of(targets, row);
        if target != row {
            let is_moved = has_moved(form, row, target, list, count);
            let class = arc_class(form, entries, row, is_moved);
            draw_arc(talk, row, target, entry_of(lanes, target), class, right);
        }
    }
}
