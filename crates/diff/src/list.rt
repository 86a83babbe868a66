// The entries of a list: how many bytes they take, and their bytes. An entry is five numbers of four bytes, the lower byte
// first (the kind; the first row and the count in the left; the same in the right), then the right's rows.
ghost use Rattle.std.specs.Prelude.{◌≡◌, ◌+◌, ◌*◌, ◌-◌, ◌/◌, ◌≤◌, length};
ghost use Rattle.std.proofs.lemmas.List.Edits.{sets};
ghost use Rattle.kit.specs.Pick.{pick};
ghost use Rattle.diff.specs.Written.{size_t, two_t, entry_t, left_t, right_entry, right_t, lone_t, code_t, pair_t};

use copy::copy;
use matched::fields::field_end;
use parts::parts_at;
use stores::put_word;

// ---- how many bytes

// The bytes of an entry: its numbers, and its rows where it carries them.
fn entry_size(rows: usize, carried: bool) -> usize
    requires { rows ≤ 65536 }
    ensures { (result ≡ 20 + pick carried (16 * rows) 0) × (result ≤ 20 + 16 * rows) }
{
    if carried { 20 + 16 * rows } else { 20 }
}

// The bytes of the entries of the fields from one row up to another.
pub(crate) fn fields_size(rows: &[u8], from: usize, to: usize, carried: bool) -> usize
    requires { length rows.now ≤ 1048576 }
    ensures { (result ≡ size_t rows.now carried to from (length rows.now / 16)) × (result ≤ 2359296) }
{
    let mut size = 0;
    let mut i = from;
    while i < to {
        let end = field_end(rows, i);
        if end <= i {
            return size;
        }
        size += entry_size(end - i, carried);
        i = end;
    }
    size
}

// ---- their bytes

// Writes two numbers.
fn put_two(list: &mut [u8], a: usize, v: usize, w: usize)
    requires { a + 8 ≤ length list.old }
    ensures { list.new ≡ sets list.old a (two_t v w) }
{
    put_word(list, a, v);
    put_word(list, a + 4, w);
}

// Writes the five numbers of an entry: the rows of the left from i, m of them, and those of the right from j, n of them.
pub(crate) fn put_entry(
    list: &mut [u8],
    at: usize,
    kind: usize,
    i: usize,
    m: usize,
    j: usize,
    n: usize,
)
    requires { at + 20 ≤ length list.old }
    ensures { list.new ≡ sets list.old at (entry_t kind i m j n) }
{
    put_word(list, at, kind);
    put_two(list, at + 4, i, m);
    put_two(list, at + 12, j, n);
}

// Writes an entry for each field of the left from one row up to another; in the right they are missing before row j.
pub(crate) fn put_left(
    left: &[u8],
    from: usize,
    to: usize,
    j: usize,
    list: &mut [u8],
    at: usize,
) -> usize
    requires { at + length (left_t left.now j to from) ≤ length list.old }
    ensures { (list.new ≡ sets list.old at (left_t left.now j to from)) × (result ≡ at + length (left_t left.now j to from)) }
{
    let mut behind = at;
    let mut i = from;
    while i < to {
        let end = field_end(left, i);
        if end <= i {
            return behind;
        }
        put_entry(list, behind, 2, i, end - i, j, 0);
        behind += 20;
        i = end;
    }
    behind
}

// Writes the entry of one field of the right, which ends there, and its rows; in the left it is missing before row i.
fn put_field(right: &[u8], j: usize, end: usize, i: usize, list: &mut [u8], at: usize) -> usize
    requires { (j ≤ end) × (end ≤ length right.now / 16) × (at + 20 + (16 * end - 16 * j) ≤ length list.old) }
    ensures { (list.new ≡ sets list.old at (right_entry right.now i j end)) × (result ≡ at + length (right_entry right.now i j end)) }
{
    put_entry(list, at, 3, i, 0, j, end - j);
    let a = 16 * j;
    let b = 16 * end;
    copy(&right[a..b], list, at + 20);
    at + 20 + (b - a)
}

// Writes an entry for each field of the right from one row up to another; in the left they are missing before row i.
pub(crate) fn put_right(
    right: &[u8],
    from: usize,
    to: usize,
    i: usize,
    list: &mut [u8],
    at: usize,
) -> usize
    requires { at + length (right_t right.now i to from) ≤ length list.old }
    ensures { (list.new ≡ sets list.old at (right_t right.now i to from)) × (result ≡ at + length (right_t right.now i to from)) }
{
    let mut behind = at;
    let mut j = from;
    while j < to {
        let end = field_end(right, j);
        if end <= j {
            return behind;
        }
        behind = put_field(right, j, end, i, list, behind);
        j = end;
    }
    behind
}

// ---- a lone field

// Whether from this row up to that there is one field and no more.
fn is_lone(rows: &[u8], from: usize, to: usize) -> bool
    ensures { result ≡ lone_t rows.now from to }
{
    if to <= from {
        return false;
    }
    field_end(rows, from) == to
}

// b of the row at i: in a FIELD its code.
fn field_code(rows: &[u8], i: usize) -> u8
    ensures { result ≡ code_t rows.now i }
{
    let p = parts_at(rows, i);
    p.b
}

// Whether from this row on a lone field of one code is left of each.
pub(crate) fn is_pair(left: &[u8], right: &[u8], from: usize, end: usize, other: usize) -> bool
    ensures { result ≡ pair_t left.now right.now from end other }
{
    if !is_lone(left, from, end) {
        return false;
    }
    if !is_lone(right, from, other) {
        return false;
    }
    field_code(left, from) == field_code(right, from)
}
