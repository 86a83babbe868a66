// The second pass and the third: every declaration is entered under its number, and then the name that each OUTER counts to is
// looked up. The table and its index are lent by whoever has them.
ghost use Rattle.std.specs.Prelude.{◌≡◌, [], ◌≤◌, length, take};
ghost use Rattle.std.proofs.lemmas.List.Edits.{sets};
ghost use Rattle.kit.specs.Out.{◌&◌};
ghost use Rattle.index.specs.Indexed.{Holds};
ghost use Rattle.claim_numbers.specs.Enter.{laid_by};
ghost use Rattle.back_notes.specs.Note.{noted_at};
ghost use Rattle.back_notes.specs.Names.{key_t, entered_t, slots_t, name_of_t, named_t, name_row_t, named_from, names_t};

use crate::note::{Note, note_at, put_note};
use claim_scopes::entries::{enter, look_up};
use names::Slot;
use parts::{Parts, parts_at};
use rows::row::{DECL, OUTER};

// ---- entered under numbers

// Enters a DECL with this note under its number, counted from 1.
fn enter_row(p: Parts, n: Note, table: &mut [Slot], index: &mut [u16], used: usize) -> usize
    requires { Holds table.old index.old used }
    ensures { ((result & table.new) ≡ entered_t p n table.old used) × Holds table.new index.new result }
{
    if p.code != DECL {
        return used;
    }
    let number = n[0];
    let scope = n[1] as usize;
    enter(table, index, used, scope, p.b, number % 65536 + 1, p.x)
}

// Enters the names of all declarations, and answers how many slots are used then.
fn enter_names(rows: &[u8], noted: &[Note], table: &mut [Slot], index: &mut [u16]) -> usize
    requires { Holds table.old index.old 0 }
    ensures { ((result & table.new) ≡ laid_by (slots_t (length table.old) [] (noted_at rows.now noted.now 0)) table.old) × Holds table.new index.new result }
{
    let n = rows.len() / 16;
    let mut used = 0;
    for i in 0..n {
        used = enter_row(parts_at(rows, i), note_at(noted, i), table, index, used);
    }
    used
}

// ---- looked up

// What a number is entered under; 0, under which nothing is, for one that no form can have.
fn key(number: u32) -> u32
    ensures { result ≡ key_t number }
{
    if number < 65535 { number + 1 } else { 0 }
}

// The name of what an OUTER with this note counts to, 0 where there is nothing.
fn name_of(p: Parts, n: Note, table: &[Slot], index: &[u16], used: usize) -> u32
    requires { Holds table.now index.now used }
    ensures { result ≡ name_of_t (take used table.now) p n }
{
    let scope = n[1] as usize;
    look_up(table, index, used, scope, p.b, key(p.y)).unwrap_or(0)
}

// Notes the name of row i, if it is an OUTER.
fn name_row(p: Parts, i: usize, noted: &mut [Note], table: &[Slot], index: &[u16], used: usize)
    requires { Holds table.now index.now used }
    ensures { noted.new ≡ name_row_t (take used table.now) p i noted.old }
{
    if p.code != OUTER {
        return;
    }
    let n = note_at(noted, i);
    let name = name_of(p, n, table, index, used);
    put_note(noted, i, [name, n[1]]);
}

// Notes the names that the OUTERs count to.
fn note_names(rows: &[u8], noted: &mut [Note], table: &[Slot], index: &[u16], used: usize)
    requires { Holds table.now index.now used }
    ensures { noted.new ≡ named_from (take used table.now) rows.now noted.old }
{
    let n = rows.len() / 16;
    for i in 0..n {
        name_row(parts_at(rows, i), i, noted, table, index, used);
    }
}

// Notes the names that the OUTERs of a numbered form count to. In the table the names of all declarations are entered.
pub fn name_rows(rows: &[u8], noted: &mut [Note], table: &mut [Slot], index: &mut [u16])
    requires { Holds table.old index.old 0 }
    ensures { noted.new ≡ names_t (length table.old) rows.now noted.old }
{
    let used = enter_names(rows, noted, table, index);
    note_names(rows, noted, table, index, used);
}
