// A text of rows, which can be edited, turned into the form that it spells: each line is a row, `[code b e x y z]`, or a comment, or
// blank.
#![tactic(auto)]

pub mod lines;
mod numbers;
mod store;

ghost use Rattle.std.specs.Prelude.{◌≡◌, ◌+◌, ◌<◌, ◌≤◌, length, drop};
ghost use Rattle.kit.specs.Out.{◌&◌};
ghost use Rattle.text.specs.Lines.{line_length};
ghost use Rattle.text.specs.Text.{most_rows, ended, parsed};

use crate::lines::{Why, line_of};
use crate::store::{put_header, put_parts};
use fixed::{HEADER, bytes_of};

// The most rows that a form has: those of the longest output.
pub const MOST: u32 = 4092;

// The first line that is wrong, and why.
#[derive(Clone, Copy)]
pub struct Wrong {
    pub line: usize,
    pub why: Why,
}

// How many rows a form in this many bytes can have.
fn most_rows(length: usize) -> u32
    ensures { (result ≡ most_rows length) × (result ≤ 4092) }
{
    if length < HEADER {
        return 0;
    }
    let rows = (length - HEADER) / 16;
    if rows < 4092 { rows as u32 } else { MOST }
}

// The place behind the line that begins at a place.
fn behind_line(text: &[u8], from: usize) -> usize
    requires { from < length text.now }
    ensures { (result ≡ from + line_length (drop from text.now)) × (from < result) × (result ≤ length text.now) }
{
    let mut end = from;
    while end < text.len() {
        if text[end] == b'\n' {
            return end + 1;
        }
        end += 1;
    }
    end
}

// What is answered where the text ends.
fn end_text(out: &mut [u8], line: usize, rows: u32) -> Result<u32, Wrong>
    requires { rows ≤ most_rows (length out.old) }
    ensures { (result & out.new) ≡ ended line rows out.old }
{
    if rows == 0 {
        return Err(Wrong {
            line,
            why: Why::Empty,
        });
    }
    put_header(out, rows);
    Ok(rows)
}

// Turns a text into the form that its lines make. After a wrong line the rows before it are in `out`, and no header.
pub fn parse(text: &[u8], out: &mut [u8]) -> Result<u32, Wrong>
    ensures { (result & out.new) ≡ parsed text.now out.old }
{
    let most = most_rows(out.len());
    let mut from = 0;
    let mut line = 0;
    let mut rows: u32 = 0;
    while from < text.len() {
        let end = behind_line(text, from);
        line += 1;
        match line_of(&text[from..end]) {
            Ok(None) => {}
            Err(why) => return Err(Wrong { line, why }),
            Ok(Some(parts)) => {
                if most <= rows {
                    return Err(Wrong {
                        line,
                        why: Why::Many,
                    });
                }
                put_parts(out, bytes_of(rows), parts);
                rows += 1;
            }
        }
        from = end;
    }
    end_text(out, line, rows)
}
