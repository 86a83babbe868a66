// The whole run on a form: refusals 1 to 5, then its names are entered, and its rows written with numbers for names.
ghost use Rattle.std.specs.Prelude.{◌≡◌, ◌*◌, ◌/◌, ◌≤◌, ◌<◌, length, take};
ghost use Rattle.kit.specs.Out.{◌&◌};
ghost use Rattle.rules.specs.Versions.{base};
ghost use Rattle.rules.specs.Answer.{map_answer};
ghost use Rattle.renaming.specs.Anonymous.{anonymous, anonymous_output, over, key_after};
ghost use Rattle.anonymise.specs.Meaning.{meaning};
ghost use Rattle.anonymise.specs.Seen.{seen_in, Knows};
ghost use Rattle.anonymise.specs.Renamed.{key_of, row_written, rows_written};
ghost use Rattle.anonymise.specs.Run.{fault_of_header, fault_of_rows, all_written, fill_names_t, run_t};

use crate::numbers::{enter_row, input_row, renamed_row};
use fixed::HEADER;
use form::header::{BadHeader, header_of};
use names::{Slot, slot_at};
use put::put_row;
use reader::{BadRows, read};

#[derive(Clone, Copy)]
pub enum Fault {
    Header,
    RowCount,
    Room,
    // The row that breaks the form.
    Broken(u32),
    // The OPEN of one scope too many.
    Deep(u32),
}

impl From<BadHeader> for Fault {
    ghost from_gives = { λ bad fault. fault ≡ fault_of_header bad };

    fn from(bad: BadHeader) -> Fault {
        match bad {
            BadHeader::Wrong => Fault::Header,
            BadHeader::Count => Fault::RowCount,
        }
    }
}

// A row's number as the answer has it, in four bytes.
impl From<BadRows> for Fault {
    ghost from_gives = { λ bad fault. fault ≡ fault_of_rows bad };

    fn from(bad: BadRows) -> Fault {
        match bad {
            BadRows::Broken(row) => Fault::Broken((row % 4294967296) as u32),
            BadRows::Deep(row) => Fault::Deep((row % 4294967296) as u32),
        }
    }
}

// Enters the names of all rows, and answers how many there are.
#[tactic(auto, using(crate::proofs::Rows::ways))]
fn enter_rows(rows: &[u8], table: &mut [Slot], index: &mut [u16]) -> usize
    requires { Knows table.old index.old 0 × (2 * (length rows.now / 16) ≤ length table.old) }
    ensures { Knows table.new index.new result × (seen_in table.new result ≡ key_of rows.now) }
{
    let n = rows.len() / 16;
    let mut used = 0;
    for i in 0..n {
        used = enter_row(rows, i, table, index, used);
    }
    used
}

// Writes the row at i to its own place, with numbers for its names.
fn write_row(rows: &[u8], i: usize, table: &[Slot], index: &[u16], used: usize, out: &mut [u8])
    requires { Knows table.now index.now used }
    ensures { out.new ≡ row_written (seen_in table.now used) rows.now i out.old }
{
    put_row(out, i, renamed_row(table, index, used, input_row(rows, i)));
}

// Writes all rows so.
#[tactic(auto, using(crate::proofs::Rows::ways))]
fn write_rows(rows: &[u8], table: &[Slot], index: &[u16], used: usize, out: &mut [u8])
    requires { Knows table.now index.now used }
    ensures { out.new ≡ rows_written (seen_in table.now used) rows.now 0 (length rows.now / 16) out.old }
{
    let n = rows.len() / 16;
    for i in 0..n {
        write_row(rows, i, table, index, used, out);
    }
}

// Copies the names in the table to the key, as many as it takes.
#[tactic(auto, using(crate::proofs::Rows::ways))]
fn copy_key(table: &[Slot], used: usize, key: &mut [u32])
    requires { used ≤ length table.now }
    ensures { key.new ≡ over (seen_in table.now used) key.old }
{
    for i in 0..used {
        if key.len() <= i {
            return;
        }
        key[i] = slot_at(table, i)[1];
    }
}

// Copies the header.
fn copy_header(form: &[u8], out: &mut [u8])
    requires { (8 ≤ length form.now) × (8 ≤ length out.old) }
    ensures { out.new ≡ over (take 8 form.now) out.old }
{
    out[..HEADER].copy_from_slice(&form[..HEADER]);
}

// Writes the rows with numbers for names, and the key; answers how many names there are. The tables start empty.
fn write_form(rows: &[u8], out: &mut [u8], key: &mut [u32]) -> usize
    requires { length rows.now / 16 ≤ 1023 }
    ensures { (result ≡ length (key_of rows.now)) × (result < 65536) × (out.new ≡ all_written rows.now out.old) × (key.new ≡ over (key_of rows.now) key.old) }
{
    let mut table: [Slot; 2048] = [[0u32; 6]; 2048];
    let mut index = [0u16; 3072];
    let used = enter_rows(rows, &mut table, &mut index);
    write_rows(rows, &table, &index, used, out);
    copy_key(&table, used, key);
    used
}

// Fills the part of the output that is as long as the form.
fn fill(form: &[u8], front: &mut [u8], key: &mut [u32]) -> Result<u32, Fault>
    requires { (8 ≤ length form.now) × (length form.now ≤ 16376) × (length front.old ≡ length form.now) }
    ensures { (result & front.new & key.new) ≡ fill_names_t form.now front.old key.old }
{
    let names = write_form(&form[HEADER..], &mut front[HEADER..], key);
    copy_header(form, front);
    Ok(names as u32)
}

// The run on a form whose header was right. Only as much of the output is lent on as the form is long, so what lies beyond
// stays as it was.
fn run(form: &[u8], out: &mut [u8], key: &mut [u32]) -> Result<u32, Fault>
    requires { (8 ≤ length form.now) × (length form.now ≤ 16376) }
    ensures { (result & out.new & key.new) ≡ run_t form.now out.old key.old }
{
    let size = form.len();
    if out.len() < size {
        return Err(Fault::Room);
    }
    read(&form[HEADER..])?;
    fill(form, &mut out[..size], key)
}

// Writes the form with 1, 2, 3, and so on for its names, in the order in which they first stand, and into `key` the name
// that became 1, 2, 3, and so on, as many as it takes. After a refusal nothing is written.
pub fn anonymise(form: &[u8], out: &mut [u8], key: &mut [u32]) -> Result<u32, Fault>
    ensures { (meaning result ≡ map_answer length (anonymous base form.now (length out.old))) × (out.new ≡ anonymous_output base form.now out.old) × (key.new ≡ key_after (anonymous base form.now (length out.old)) key.old) }
{
    header_of(form)?;
    run(form, out, key)
}
