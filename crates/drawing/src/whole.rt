// The whole picture of a form.
use crate::arcs::draw_arcs;
use crate::boxes::draw_scopes;
use crate::lines::draw_rows;
use crate::svg::{begin, begin_text, end_text, write};
use meanings::entries::Entry;
use meanings::note_meanings;
use picture::arcs::{MOST, note_spans, note_targets};
use picture::lanes::{last_lane, note_lanes};
use picture::places::{deepest, lane_at, line_at, longest_line, right_of};
use row_parts::{has_header, rows_in, rows_said};
use words::Talk;
use words::row_words::say_header;

fn write_legend(talk: Talk<'_>) {
    begin_text(talk, b"l", 46, 36);
    write(
        talk,
        b"Green declares, blue refers. An arc leads to what is meant: blue in the same scope, orange to one further out.",
    );
    end_text(talk);
    begin_text(talk, b"l", 46, 50);
    write(
        talk,
        b"On orange ground: inserted. Red: means nothing. Red and thick: a number that moves when the form is resolved.",
    );
    end_text(talk);
}

// Where the arcs to each declaration run.
fn lanes_of(rows: u16, targets: &[u16; MOST]) -> [u16; MOST] {
    let mut first = [0u16; MOST];
    let mut last = [0u16; MOST];
    let mut lanes = [0u16; MOST];
    note_spans(rows, targets, &mut first, &mut last);
    note_lanes(rows, &first, &last, &mut lanes);
    lanes
}

// Draws a form; `list` has this many numbers that have moved, and `least` is how wide the heading is. The heading and the end are to follow.
pub fn draw(talk: Talk<'_>, names: &[u8], form: &[u8], list: &[u8], count: u32, least: u32) {
    let rows = rows_in(form);
    let right = right_of(deepest(form), longest_line(names));
    let mut entries: [Entry; MOST] = [[0; 4]; MOST];
    let mut targets = [0u16; MOST];
    note_meanings(form, &mut entries);
    note_targets(form, &entries, &mut targets);
    let lanes = lanes_of(rows, &targets);
    let width = lane_at(right, last_lane(rows, &lanes), 40);
    begin(talk, width.max(least), line_at(rows, 20));
    write_legend(talk);
    draw_scopes(talk, form, right);
    draw_rows(talk, names, form, &entries, &targets, list, count, right);
    draw_arcs(talk, form, &entries, &targets, &lanes, list, count, right);
}

pub fn begin_heading(talk: Talk<'_>) {
    begin_text(talk, b"h", 46, 20);
}

// Ends the heading and the picture.
pub fn end(talk: Talk<'_>) {
    end_text(talk);
    write(talk, b"</svg>\n");
}

// How many rows there are.
pub fn write_rows(talk: Talk<'_>, form: &[u8]) {
    say_header(
        talk,
        u32::from(rows_in(form)),
        has_header(form),
        rows_said(form),
    );
}
