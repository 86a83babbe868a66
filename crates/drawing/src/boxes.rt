// The scopes as boxes, the outer ones first.
use crate::svg::{write, write_unit};
use picture::lanes::{Span, length_of};
use picture::places::{LINE, gap, left_of, line_at};
use row_parts::{code_at, next, rows_in};
use rows::row::{CLOSE, OPEN};
use scope_rows::is_bound;
use scopes::level_behind;
use words::Talk;

// The row that ends the scope which an OPEN begins, or the last of all.
fn end_of(form: &[u8], open: u16) -> u16 {
    let rows = rows_in(form);
    let mut level: u32 = 0;
    let mut last = open;
    for row in next(open)..rows {
        let code = code_at(form, row);
        last = row;
        if is_bound(level, code, CLOSE) {
            return row;
        }
        level = level_behind(level, code);
    }
    last
}

fn draw_scope(talk: Talk<'_>, form: &[u8], open: u16, level: u32, right: u16) {
    let left = left_of(level);
    let lines = length_of(Span {
        first: open,
        last: end_of(form, open),
    });
    write_unit(talk, b"<rect class=\"b s", level % 4);
    write_unit(talk, b"\" x=\"", left);
    write_unit(talk, b"\" y=\"", line_at(open, 1));
    write_unit(talk, b"\" width=\"", gap(left, u32::from(right)));
    write_unit(talk, b"\" height=\"", LINE * u32::from(lines) + 14);
    write(talk, b"\" rx=\"5\"/>\n");
}

// Draws the scopes of a form, whose boxes all end at the right edge.
pub(crate) fn draw_scopes(talk: Talk<'_>, form: &[u8], right: u16) {
    let rows = rows_in(form);
    let mut level: u32 = 0;
    for row in 0..rows {
        let code = code_at(form, row);
        if code == OPEN {
            draw_scope(talk, form, row, level, right);
        }
        level = level_behind(level, code);
    }
}
