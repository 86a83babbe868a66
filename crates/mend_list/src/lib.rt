// The list of changes: each with its byte offset, how many bytes stood there and how many stand there now, and the bytes before.
// It is taken from the old bytes and the mended rows, which are made one at a time. What lies past the end of the list's buffer
// is counted and not stored, so that a buffer too small tells how long the list is.
#![tactic(auto)]

ghost use Rattle.std.specs.Prelude.{◌≡◌, [], ◌∷◌, ◌++◌, ◌+◌, ◌*◌, ◌-◌, ◌/◌, ◌%◌, ◌≤◌, ◌<◌, length, take, drop, set, replicate};
ghost use Rattle.std.proofs.lemmas.List.Edits.{sets};
ghost use Rattle.kit.specs.Out.{◌&◌};
ghost use Rattle.rules.specs.Rows.{bytes};
ghost use Rattle.rules.specs.Answer.{same_numbers};
ghost use Rattle.kit.specs.Pick.{pick};
ghost use Rattle.mending.specs.Mend.{change_bytes};
ghost use Rattle.mend_form.specs.Filled.{row_in};
ghost use Rattle.mend_list.specs.Listed.{change, noted, piece_changes, width_t, row_changes, rows_changes, header_of_t, head_changes, rest_changes, all_changes, changes_in, none};

use form::header::behind_count;
use limits::Limits;
use mend_form::{Kept, kept_in, row_of};
use stores::put_word;
use whole_form::header::put_header;

// How many bytes and how many changes there are.
#[derive(Clone, Copy)]
pub struct Listed {
    pub size: usize,
    pub count: u32,
}

// ---- stores

// A store, where there is such a byte.
fn put_byte(list: &mut [u8], i: usize, byte: u8)
    ensures { list.new ≡ set list.old i byte }
{
    if list.len() <= i {
        return;
    }
    list[i] = byte;
}

// The n bytes of `old` from `from` on.
fn put_bytes(list: &mut [u8], to: usize, old: &[u8], from: usize, n: usize)
    requires { (to + n < 18446744073709551616) × (from + n ≤ length old.now) }
    ensures { list.new ≡ sets list.old to (take n (drop from old.now)) }
{
    for k in 0..n {
        put_byte(list, to + k, old[from + k]);
    }
}

// A number of zeros.
fn put_zeros(list: &mut [u8], to: usize, n: usize)
    requires { to + n < 18446744073709551616 }
    ensures { list.new ≡ sets list.old to (replicate n 0) }
{
    for k in 0..n {
        put_byte(list, to + k, 0);
    }
}

// ---- a change

// The three words of a change.
fn put_words(list: &mut [u8], i: usize, at: usize, n: usize, m: usize)
    requires { i + 12 < 18446744073709551616 }
    ensures { list.new ≡ sets list.old i (bytes 4 at ++ (bytes 4 n ++ bytes 4 m)) }
{
    put_word(list, i, at);
    put_word(list, i + 4, n);
    put_word(list, i + 8, m);
}

// A change at byte `at`: n bytes stood there, and m stand there now.
fn put_change(list: &mut [u8], i: usize, old: &[u8], at: usize, n: usize, m: usize) -> usize
    requires { (i + n + 16 < 18446744073709551616) × (at + n ≤ length old.now) }
    ensures { (list.new ≡ sets list.old i (change_bytes (change old.now at n m))) × (result ≡ i + length (change_bytes (change old.now at n m))) × (result < i + n + 16) }
{
    let pad = (4 - n % 4) % 4;
    put_words(list, i, at, n, m);
    put_bytes(list, i + 12, old, at, n);
    put_zeros(list, i + 12 + n, pad);
    i + 12 + n + pad
}

// ---- pieces

// Whether the n bytes of `old` from `at` on are the n bytes of `new` from `to` on.
fn is_same(old: &[u8], new: &[u8], at: usize, to: usize, n: usize) -> bool
    requires { (at + n ≤ length old.now) × (to + n ≤ length new.now) }
    ensures { result ≡ same_numbers (take n (drop at old.now)) (take n (drop to new.now)) }
{
    old[at..at + n] == new[to..to + n]
}

// Lists a change at byte `at`, where n bytes stood and m stand now, behind those so far.
fn list_change(old: &[u8], at: usize, n: usize, m: usize, list: &mut [u8], s: Listed) -> Listed
    requires { (at + n ≤ length old.now) × (s.size + n + 16 < 18446744073709551616) × (s.count + 1 < 4294967296) }
    ensures list_after { (result & list.new) ≡ noted s list.old (change old.now at n m ∷ []) }
    ensures size_bound { (result.size ≤ s.size + n + 16) × (result.count ≤ s.count + 1) }
{
    let size = put_change(list, s.size, old, at, n, m);
    Listed {
        size,
        count: s.count + 1,
    }
}

// Lists the n bytes from `at` on, if they do not stay: they become the n bytes of `new` from `to` on.
fn list_piece(
    old: &[u8],
    new: &[u8],
    at: usize,
    to: usize,
    n: usize,
    list: &mut [u8],
    s: Listed,
) -> Listed
    requires { (at + n ≤ length old.now) × (to + n ≤ length new.now) × (s.size + n + 16 < 18446744073709551616) × (s.count + 1 < 4294967296) }
    ensures list_after { (result & list.new) ≡ noted s list.old (piece_changes old.now new.now at to n) }
    ensures size_bound { (result.size ≤ s.size + n + 16) × (result.count ≤ s.count + 1) }
{
    if is_same(old, new, at, to, n) {
        return s;
    }
    list_change(old, at, n, n, list, s)
}

// ---- rows

// How many bytes the part has that begins at byte j of a row, 0 where none does.
fn width(j: usize) -> usize
    requires { j < 16 }
    ensures { (result ≡ width_t j) × (result ≤ 4) × (j + result ≤ 16) }
{
    match j {
        0 => 1,
        1 => 1,
        2 => 2,
        4 => 4,
        8 => 4,
        12 => 4,
        _ => 0,
    }
}

// Lists the parts of the row that begins at byte a and becomes `new`.
fn list_row(old: &[u8], new: &[u8], a: usize, list: &mut [u8], s: Listed) -> Listed
    requires { (a + 16 ≤ length old.now) × (16 ≤ length new.now) × (s.size + 320 < 9223372036854775808) × (s.count + 16 < 2147483648) }
    ensures list_after { (result & list.new) ≡ noted s list.old (row_changes old.now new.now a 0 16) }
    ensures size_bound { (result.size ≤ s.size + 320) × (result.count ≤ s.count + 16) }
{
    let mut t = s;
    for j in 0..16 {
        t = list_piece(old, new, a + j, j, width(j), list, t);
    }
    t
}

// Lists the parts of row i, behind a header of this many bytes.
fn list_mended(
    old: &[u8],
    header: usize,
    kept: Kept,
    i: usize,
    list: &mut [u8],
    s: Listed,
) -> Listed
    requires { (header + 16 * (i + 1) ≤ length old.now) × (s.size + 320 < 9223372036854775808) × (s.count + 16 < 2147483648) }
    ensures list_after { (result & list.new) ≡ noted s list.old (row_changes old.now (row_in (drop header old.now) kept i) (header + 16 * i) 0 16) }
    ensures size_bound { (result.size ≤ s.size + 320) × (result.count ≤ s.count + 16) }
{
    let row = row_of(&old[header..], kept, i);
    list_row(old, &row, header + 16 * i, list, s)
}

// Lists the parts of the rows that stay.
fn list_rows(old: &[u8], header: usize, kept: Kept, list: &mut [u8], s: Listed) -> Listed
    requires { (header + 16 * kept.rows ≤ length old.now) × (kept.rows ≤ 16383) × (s.size ≤ 96) × (s.count ≤ 3) }
    ensures list_after { (result & list.new) ≡ noted s list.old (rows_changes header old.now kept 0 kept.rows) }
    ensures size_bound { (result.size ≤ s.size + 320 * kept.rows) × (result.count ≤ s.count + 16 * kept.rows) }
{
    let mut t = s;
    for i in 0..kept.rows {
        t = list_mended(old, header, kept, i, list, t);
    }
    t
}

// ---- the whole form

// The header of a form of this many rows, in as many bytes as the longest has.
fn header_of(limits: Limits, count: usize) -> [u8; 16]
    ensures { result ≡ header_of_t limits count }
{
    let mut head = [0u8; 16];
    put_header(&mut head, limits, count);
    head
}

// Lists byte 5, the row count, and the zeros behind it.
fn list_header(old: &[u8], limits: Limits, new: &[u8], list: &mut [u8]) -> Listed
    requires { (limits.header ≤ length old.now) × (6 + pick limits.wide 4 2 ≤ limits.header) × (limits.header ≤ 16) × (16 ≤ length new.now) }
    ensures list_after { (result & list.new) ≡ noted none list.old (head_changes limits old.now new.now) }
    ensures size_bound { (result.size ≤ 96) × (result.count ≤ 3) }
{
    let nothing = Listed { size: 0, count: 0 };
    let behind = behind_count(limits.wide);
    let one = list_piece(old, new, 5, 5, 1, list, nothing);
    let two = list_piece(old, new, 6, 6, behind - 6, list, one);
    list_piece(
        old,
        new,
        behind,
        behind,
        usize::from(limits.header) - behind,
        list,
        two,
    )
}

// Lists that all from byte a on becomes m bytes. It stays where it has as many: none, as in a form that ends with its root's CLOSE.
fn list_rest(old: &[u8], a: usize, m: usize, list: &mut [u8], s: Listed) -> Listed
    requires { (a ≤ length old.now) × (s.size ≤ 5300000) × (s.count ≤ 300000) }
    ensures { (result & list.new) ≡ noted s list.old (rest_changes old.now a m) }
{
    let n = old.len() - a;
    if n == m {
        return s;
    }
    list_change(old, a, n, m, list, s)
}

// Lists what becomes of a form of which these rows stay.
fn list_all(old: &[u8], limits: Limits, kept: Kept, list: &mut [u8]) -> Listed
    requires { (6 + pick limits.wide 4 2 ≤ limits.header) × (limits.header ≤ 16) × (limits.header + 16 * kept.rows ≤ length old.now) × (kept.rows ≤ 16383) × (kept.scopes ≤ length old.now / 16) }
    ensures { (result & list.new) ≡ noted none list.old (all_changes limits old.now kept) }
{
    let head = header_of(limits, kept.rows + kept.scopes);
    let one = list_header(old, limits, &head, list);
    let header = usize::from(limits.header);
    let two = list_rows(old, header, kept, list, one);
    list_rest(old, header + 16 * kept.rows, 16 * kept.scopes, list, two)
}

// Lists what becomes of a spoilt form of these limits that is mended; nothing, where it has no such header, or more rows stay
// than a form may have.
pub fn list_changes(old: &[u8], limits: Limits, list: &mut [u8]) -> Listed
    ensures { (result & list.new) ≡ noted none list.old (changes_in limits old.now) }
{
    let header = usize::from(limits.header);
    if header < behind_count(limits.wide) {
        return Listed { size: 0, count: 0 };
    }
    if 16 < header {
        return Listed { size: 0, count: 0 };
    }
    if old.len() < header {
        return Listed { size: 0, count: 0 };
    }
    let kept = kept_in(&old[header..]);
    if 16383 < kept.rows {
        return Listed { size: 0, count: 0 };
    }
    list_all(old, limits, kept, list)
}
