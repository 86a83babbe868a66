// The whole comparison of two forms: the refusals, then the list.
ghost use Rattle.std.specs.Prelude.{◌≡◌, ◌+◌, ◌*◌, ◌-◌, ◌/◌, ◌≤◌, length, drop};
ghost use Rattle.std.proofs.Math.Option.{some};
ghost use Rattle.std.proofs.lemmas.List.Edits.{sets};
ghost use Rattle.kit.specs.Out.{◌&◌};
ghost use Rattle.kit.specs.Pick.{pick};
ghost use Rattle.rules.specs.Versions.{all};
ghost use Rattle.rules.specs.Answer.{map_answer, setting_of};
ghost use Rattle.comparing.specs.Compare.{listed, list_output};
ghost use Rattle.matched.specs.Counted.{choice_of};
ghost use Rattle.limits.specs.Held.{setting};
ghost use Rattle.diff.specs.Meaning.{meaning, bytes_of, Says};
ghost use Rattle.diff.specs.Run.{refusing, opening, pair_bytes, rest_bytes, rest_of, both_bytes, list_rows_t};

use crate::list::{fields_size, is_pair, put_entry, put_left, put_right};
use copy::copy;
use matched::fields::{Rest, middle};
use matched::row::same_row;
use refusal::{ROOM, Refusal};
use whole_form::asked::claim_of;
use whole_form::header::header_at;
use whole_form::read::read_claim;

// A refusal at place 0 whose number document 01 gives.
fn refused(number: u32) -> Result<u32, Refusal>
    ensures { result ≡ refusing number 0 }
{
    Err(Refusal { number, place: 0 })
}

// ---- how long the list is

// The bytes of the list for what is left.
fn rest_size(left: &[u8], right: &[u8], from: usize, end: usize, other: usize) -> usize
    requires { (length left.now ≤ 1048576) × (length right.now ≤ 1048576) }
    ensures { (result ≡ length (rest_bytes left.now right.now from end other)) × (result ≤ 4718592) }
{
    let rights = fields_size(right, from, other, true);
    if is_pair(left, right, from, end, other) {
        return rights;
    }
    fields_size(left, from, end, false) + rights
}

// ---- the list written

// Writes the differing pair, whose rows begin at `from` in both.
fn put_pair(right: &[u8], from: usize, end: usize, other: usize, list: &mut [u8], at: usize)
    requires { (from ≤ end) × (from ≤ other) × (other ≤ length right.now / 16) × (at + 20 + (16 * other - 16 * from) ≤ length list.old) }
    ensures { list.new ≡ sets list.old at (pair_bytes right.now from end other) }
{
    put_entry(list, at, 4, from, end - from, from, other - from);
    let a = 16 * from;
    let b = 16 * other;
    copy(&right[a..b], list, at + 20);
}

// Writes the list for what is left.
fn put_rest(left: &[u8], right: &[u8], rest: Rest, list: &mut [u8], at: usize)
    requires { at + length (rest_of left.now right.now rest) ≤ length list.old }
    ensures { list.new ≡ sets list.old at (rest_of left.now right.now rest) }
{
    let from = rest.from;
    let end = rest.left;
    let other = rest.right;
    if is_pair(left, right, from, end, other) {
        put_pair(right, from, end, other, list, at);
        return;
    }
    let behind = put_left(left, from, end, from, list, at);
    put_right(right, from, other, end, list, behind);
}

// Writes the entry of the roots' OPEN rows.
fn put_opening(right: &[u8], list: &mut [u8])
    requires { (16 ≤ length right.now) × (36 ≤ length list.old) }
    ensures { list.new ≡ sets list.old 0 (opening right.now) }
{
    put_entry(list, 0, 1, 0, 1, 0, 1);
    copy(&right[0..16], list, 20);
}

// The bytes of that entry: none where they are the same.
fn open_size(same: bool) -> usize
    ensures { (result ≡ pick same 0 36) × (result ≤ 36) }
{
    if same { 0 } else { 36 }
}

// Writes the whole list.
fn put_list(left: &[u8], right: &[u8], same: bool, rest: Rest, list: &mut [u8])
    requires { (16 ≤ length right.now) × (length (both_bytes left.now right.now same rest) ≤ length list.old) }
    ensures { list.new ≡ sets list.old 0 (both_bytes left.now right.now same rest) }
{
    if same {
        put_rest(left, right, rest, list, 0);
        return;
    }
    put_opening(right, list);
    put_rest(left, right, rest, list, 36);
}

// The list for two forms whose rows these are.
fn list_rows(left: &[u8], right: &[u8], choice: u32, list: &mut [u8]) -> Result<u32, Refusal>
    requires { (length left.now ≤ 1048576) × (length right.now ≤ 1048576) × (16 ≤ length right.now) }
    ensures { (result & list.new) ≡ list_rows_t (choice_of choice) left.now right.now list.old }
{
    let same = same_row(left, 0, right, 0, choice);
    let rest = middle(left, right, choice);
    let size = open_size(same) + rest_size(left, right, rest.from, rest.left, rest.right);
    if list.len() < size {
        return refused(ROOM);
    }
    put_list(left, right, same, rest, list);
    Ok(size as u32)
}

// The list for two forms with headers of this many bytes.
fn list_forms(
    left: &[u8],
    right: &[u8],
    header: usize,
    choice: u32,
    list: &mut [u8],
) -> Result<u32, Refusal>
    requires { (header ≤ length left.now) × (length left.now ≤ header + 1048576) × (header + 16 ≤ length right.now) × (length right.now ≤ header + 1048576) }
    ensures { (result & list.new) ≡ list_rows_t (choice_of choice) (drop header left.now) (drop header right.now) list.old }
{
    list_rows(&left[header..], &right[header..], choice, list)
}

// Compares two forms as outputs of the setting at this place, which the left's header asks for.
fn compare_as(
    left: &[u8],
    right: &[u8],
    i: usize,
    choice: u32,
    list: &mut [u8],
) -> Result<u32, Refusal>
    requires { setting_of all left.now ≡ some (setting i) }
    ensures { Says (listed all (choice_of choice) left.now right.now (length list.old)) list.old result list.new }
{
    read_claim(left, i)?;
    read_claim(right, i)?;
    list_forms(left, right, header_at(i), choice, list)
}

// Compares two resolved forms: `list` then holds what differs. Bit 0 of the choice ignores places, bit 1 which fresh name it
// is. After a refusal nothing is written.
pub fn compare(left: &[u8], right: &[u8], choice: u32, list: &mut [u8]) -> Result<u32, Refusal>
    ensures { (meaning result ≡ map_answer bytes_of (listed all (choice_of choice) left.now right.now (length list.old))) × (list.new ≡ list_output all (choice_of choice) left.now right.now list.old) }
{
    let asked = claim_of(left)?;
    compare_as(left, right, asked.setting, choice, list)
}
