// The whole run on a buffer: the mended rows are made one at a time to be listed and read, and come into it once nothing can be
// refused any more.
ghost use Rattle.std.specs.Prelude.{◌≡◌, ◌&&◌, ◌+◌, ◌*◌, ◌-◌, ◌/◌, ◌≤◌, ◌<◌, eqb, length, take, drop, get_or};
ghost use Rattle.kit.specs.Out.{◌&◌};
ghost use Rattle.kit.specs.Pick.{pick};
ghost use Rattle.rules.specs.Versions.{all};
ghost use Rattle.limits.specs.Held.{limits_of, setting};
ghost use Rattle.reader.specs.ReadTo.{read_to};
ghost use Rattle.mending.specs.Mend.{list_bytes, mend_buffer, buffer_after, list_after};
ghost use Rattle.mend_form.specs.Kept.{kept_in};
ghost use Rattle.mend_form.specs.Filled.{mended_body_t};
ghost use Rattle.mend_list.specs.Listed.{changes_in};
ghost use Rattle.mend.specs.Meaning.{meaning, ruled};
ghost use Rattle.mend.specs.Run.{refused_t, letters_t, asks_t, place_t, write_t, read_then, room_t, to_t, made_t};

use crate::place::put_form;
use form_bytes::{begins_as, byte_at};
use limits::{Limits, of_input};
use mend_form::{Kept, kept_in};
use mend_list::list_changes;
use mend_read::read_mended;
use reader::BadRows;
use refusal::{BROKEN, DEEP, NOT_A_FORM, ROOM, ROW_COUNT, Refusal};

// How many settings there are.
const SETTINGS: usize = 3;

// A refusal whose number document 01 gives, and its place.
fn refused(number: u32, place: u32) -> Result<u32, Refusal>
    ensures { result ≡ refused_t number place }
{
    Err(Refusal { number, place })
}

// ---- the setting

// Whether a form begins with the letters and this version, and a zero.
fn has_letters(form: &[u8], version: u8) -> bool
    ensures { result ≡ letters_t form.now version }
{
    begins_as(form, version) & (byte_at(form, 4) == 0)
}

// Whether a form begins as one of these limits does. Byte 5 of version 1 is mended, and so is not asked.
fn asks_for(form: &[u8], limits: Limits) -> bool
    ensures { result ≡ asks_t limits form.now }
{
    if form.len() < 8 {
        return false;
    }
    if form.len() < usize::from(limits.header) {
        return false;
    }
    has_letters(form, limits.version) & ((limits.version == 1) | (form[5] == limits.rules))
}

// The place in the list of all settings of the one that a form begins as; behind them where there is none.
fn setting_for(form: &[u8]) -> usize
    ensures { result ≡ place_t form.now }
{
    if asks_for(form, of_input(0)) {
        return 0;
    }
    if asks_for(form, of_input(1)) {
        return 1;
    }
    if asks_for(form, of_input(2)) {
        return 2;
    }
    SETTINGS
}

// ---- the run

// The rows that stay.
fn kept_of(old: &[u8], limits: Limits) -> Kept
    requires { limits.header ≤ length old.now }
    ensures { (result ≡ kept_in (drop limits.header old.now)) × (result.rows + result.scopes < 18446744073709551616) }
{
    let header = usize::from(limits.header);
    kept_in(&old[header..])
}

// What the rows are, once they are mended.
fn read_of(old: &[u8], limits: Limits) -> Result<(), BadRows>
    requires { limits.header ≤ length old.now }
    ensures { result ≡ read_to limits (mended_body_t (drop limits.header old.now) (kept_in (drop limits.header old.now))) }
{
    let header = usize::from(limits.header);
    read_mended(&old[header..], limits)
}

// How many bytes the list has.
fn list_size(old: &[u8], limits: Limits) -> usize
    ensures { result ≡ length (list_bytes (changes_in limits old.now)) }
{
    let mut none = [0u8; 1];
    let done = list_changes(old, limits, &mut none);
    done.size
}

// Whether a mended form of this many bytes, and its list, have room.
fn has_room(old: &[u8], limits: Limits, size: usize, room: usize, space: usize) -> bool
    ensures { result ≡ room_t limits old.now size room space }
{
    if room < size {
        return false;
    }
    list_size(old, limits) <= space
}

// Writes the list and the form.
fn write(
    buffer: &mut [u8],
    long: usize,
    list: &mut [u8],
    limits: Limits,
    kept: Kept,
) -> Result<u32, Refusal>
    requires { (6 + pick limits.wide 4 2 ≤ limits.header) × (long ≤ length buffer.old) × (limits.header + 16 * kept.rows ≤ long) × (limits.header + 16 * (kept.rows + kept.scopes) ≤ length buffer.old) }
    ensures { (result & buffer.new & list.new) ≡ write_t limits buffer.old long list.old kept }
{
    let done = list_changes(&buffer[..long], limits, list);
    put_form(buffer, long, limits, kept);
    Ok(done.count)
}

// Refusals 4 and 5 for a mended form that has room; then it is written.
fn read_and_write(
    buffer: &mut [u8],
    long: usize,
    list: &mut [u8],
    limits: Limits,
    kept: Kept,
) -> Result<u32, Refusal>
    requires wide_bound { (6 + pick limits.wide 4 2 ≤ limits.header) × (long ≤ length buffer.old) × (limits.header + 16 * kept.rows ≤ long) × (limits.header + 16 * (kept.rows + kept.scopes) ≤ length buffer.old) }
    requires kept_value { kept ≡ kept_in (drop limits.header (take long buffer.old)) }
    ensures { (result & buffer.new & list.new) ≡ read_then (read_to limits (mended_body_t (drop limits.header (take long buffer.old)) kept)) limits buffer.old long list.old kept }
{
    match read_of(&buffer[..long], limits) {
        Err(BadRows::Broken(row)) => refused(BROKEN, (row % 4294967296) as u32),
        Err(BadRows::Deep(row)) => refused(DEEP, (row % 4294967296) as u32),
        Ok(()) => write(buffer, long, list, limits, kept),
    }
}

// Refusals 3 to 5 for a form of which these rows stay; then it is written.
fn mend_to(
    buffer: &mut [u8],
    long: usize,
    list: &mut [u8],
    limits: Limits,
    kept: Kept,
) -> Result<u32, Refusal>
    requires wide_bound { (6 + pick limits.wide 4 2 ≤ limits.header) × (long ≤ length buffer.old) × (limits.header + 16 * kept.rows ≤ long) × (kept.rows + kept.scopes ≤ 16383) }
    requires kept_value { kept ≡ kept_in (drop limits.header (take long buffer.old)) }
    ensures { (result & buffer.new & list.new) ≡ to_t limits buffer.old long list.old kept }
{
    let room = buffer.len();
    let space = list.len();
    let size = usize::from(limits.header) + 16 * (kept.rows + kept.scopes);
    if !has_room(&buffer[..long], limits, size, room, space) {
        return refused(ROOM, 0);
    }
    read_and_write(buffer, long, list, limits, kept)
}

// Mends a form that begins as one of these limits does. One with no row, or more than a form may have, is refusal 2.
fn mend_marked(
    buffer: &mut [u8],
    long: usize,
    list: &mut [u8],
    limits: Limits,
) -> Result<u32, Refusal>
    requires { (6 + pick limits.wide 4 2 ≤ limits.header) × (limits.rows ≤ 16383) × (long ≤ length buffer.old) × (limits.header ≤ long) }
    ensures { (result & buffer.new & list.new) ≡ made_t limits buffer.old long list.old }
{
    let kept = kept_of(&buffer[..long], limits);
    let rows = kept.rows + kept.scopes;
    if rows == 0 {
        return refused(ROW_COUNT, 0);
    }
    if limits.rows < rows {
        return refused(ROW_COUNT, 0);
    }
    mend_to(buffer, long, list, limits, kept)
}

// Mends the form in the first `long` bytes of `buffer`; the rest of it is room for added rows. A refusal changes nothing.
pub fn mend(buffer: &mut [u8], long: usize, list: &mut [u8]) -> Result<u32, Refusal>
    ensures result_value { meaning result ≡ ruled (mend_buffer all buffer.old long (length list.old)) }
    ensures buffer_after { buffer.new ≡ buffer_after (mend_buffer all buffer.old long (length list.old)) long buffer.old }
    ensures list_after { list.new ≡ list_after (mend_buffer all buffer.old long (length list.old)) list.old }
{
    if buffer.len() < long {
        return refused(ROW_COUNT, 0);
    }
    let i = setting_for(&buffer[..long]);
    if SETTINGS <= i {
        return refused(NOT_A_FORM, 0);
    }
    mend_marked(buffer, long, list, of_input(i))
}
