// The header of a form written: `WNT`, the version, the rule set, the row count, and zeros.
ghost use Rattle.std.specs.Prelude.{◌≡◌, ◌%◌, ◌≤◌, ◌<◌, length, get_or};
ghost use Rattle.std.proofs.lemmas.List.Edits.{sets};
ghost use Rattle.kit.specs.Pick.{pick};
ghost use Rattle.rules.specs.Answer.{header_bytes};
ghost use Rattle.limits.specs.Held.{setting_in, setting};

use form::header::behind_count;
use limits::{Limits, of_input};

// A byte as a number.
fn wide(byte: u8) -> usize
    ensures { result ≡ byte }
{
    byte as usize
}

// How many bytes a header has, by its setting's place in the list of all.
pub fn header_at(i: usize) -> usize
    ensures { result ≡ (setting i).version.header }
{
    let limits = of_input(i);
    wide(limits.header)
}

// A byte of a row count that only a long header has.
fn upper(long: bool, count: usize) -> u8
    ensures { result ≡ pick long (count % 256) 0 }
{
    if long { (count % 256) as u8 } else { 0 }
}

// The byte at i of the first six: the letters, the version and the rule set.
fn mark_byte(limits: Limits, rows: usize, i: usize) -> u8
    requires { i < 6 }
    ensures { result ≡ get_or (header_bytes (setting_in limits) rows) i 0 }
{
    match i {
        0 => b'W',
        1 => b'N',
        2 => b'T',
        3 => limits.version,
        5 => limits.rules,
        _ => 0,
    }
}

// The byte at i behind them: the row count, and zeros.
fn count_byte(limits: Limits, rows: usize, i: usize) -> u8
    requires { 6 ≤ i }
    ensures { result ≡ get_or (header_bytes (setting_in limits) rows) i 0 }
{
    match i {
        6 => (rows % 256) as u8,
        7 => (rows / 256 % 256) as u8,
        8 => upper(limits.wide, rows / 65536),
        9 => upper(limits.wide, rows / 16777216),
        _ => 0,
    }
}

// The byte at i of the header, 0 behind it.
fn header_byte(limits: Limits, rows: usize, i: usize) -> u8
    ensures { result ≡ get_or (header_bytes (setting_in limits) rows) i 0 }
{
    if i < 6 {
        mark_byte(limits, rows, i)
    } else {
        count_byte(limits, rows, i)
    }
}

// How many bytes the header has: as many as the limits say, and enough for the row count.
fn header_size(limits: Limits, rows: usize) -> usize
    ensures { result ≡ length (header_bytes (setting_in limits) rows) }
{
    let header = wide(limits.header);
    let behind = behind_count(limits.wide);
    if header < behind { behind } else { header }
}

// Writes the header of a form of these limits that has this many rows, as far as there is room for it.
pub fn put_header(out: &mut [u8], limits: Limits, rows: usize)
    ensures { out.new ≡ sets out.old 0 (header_bytes (setting_in limits) rows) }
{
    let size = header_size(limits, rows);
    let mut i = 0;
    while i < size {
        if out.len() <= i {
            return;
        }
        out[i] = header_byte(limits, rows, i);
        i += 1;
    }
}
