// The slots of a binding sheet: whether the bytes are a sheet, and the answers to its slots.
#![tactic(auto)]

ghost use Rattle.std.specs.Prelude.{◌≡◌, [], ◌∷◌, ◌+◌, ◌*◌, ◌/◌, ◌<◌, ◌≤◌, length, take, drop};
ghost use Rattle.std.proofs.lemmas.List.Edits.{sets};
ghost use Rattle.kit.specs.Out.{◌&◌};
ghost use Rattle.rules.specs.Rows.{value, bytes};
ghost use Rattle.binding.specs.Sheet.{sound_sheet, all_named, slots};
ghost use Rattle.slots.specs.Slots.{ruled, pair_bytes, noted, answered};

use bound::{Binding, binding_of};
use stores::put_word;

// The bytes of a slot, and of the longest sheet.
pub const SLOT: usize = 12;

const LONGEST: usize = 2400;

// The bytes of an answer.
pub const ANSWER: usize = 8;

// The number in the four bytes from a place on.
#[tactic(auto, using(crate::proofs::Ways::sound_ways))]
fn word_at(sheet: &[u8], at: usize) -> u32
    requires { at + 4 ≤ length sheet.now }
    ensures { result ≡ value (take 4 (drop at sheet.now)) }
{
    u32::from(sheet[at])
        + u32::from(sheet[at + 1]) * 256
        + u32::from(sheet[at + 2]) * 65536
        + u32::from(sheet[at + 3]) * 16777216
}

// Whether every slot has a name.
#[tactic(auto, using(crate::proofs::Ways::sound_ways))]
fn all_named(sheet: &[u8]) -> bool
    ensures { result ≡ all_named (slots sheet.now) }
{
    let count = sheet.len() / SLOT;
    for n in 0..count {
        if word_at(sheet, SLOT * n + 8) == 0 {
            return false;
        }
    }
    true
}

// Whether bytes are a sheet: whole slots, at most 200, each with a name.
#[tactic(auto, using(crate::proofs::Ways::sound_ways))]
pub fn is_sound(sheet: &[u8]) -> bool
    ensures { result ≡ sound_sheet sheet.now }
{
    if sheet.len() % SLOT == 0 {
        if sheet.len() <= LONGEST {
            return all_named(sheet);
        }
    }
    false
}

// Writes an answer: its kind, and the row or 0.
#[tactic(auto, using(crate::proofs::Ways::put_ways))]
fn put_pair(answers: &mut [u8], n: usize, kind: usize, row: usize)
    requires { 8 * n + 8 < 18446744073709551616 }
    ensures { answers.new ≡ sets answers.old (8 * n) (pair_bytes kind row) }
{
    let at = ANSWER * n;
    put_word(answers, at, kind);
    put_word(answers, at + 4, row);
}

// Writes the n-th answer, and counts it if it is not that the slot is bound as written.
#[tactic(auto, using(crate::proofs::Ways::put_ways))]
fn put(binding: Binding, answers: &mut [u8], n: usize, failing: usize) -> usize
    requires { (8 * n + 8 < 18446744073709551616) × (failing ≤ n) }
    ensures answers_after { (result & answers.new) ≡ noted n failing answers.old (ruled binding ∷ []) }
    ensures upper_bound { result ≤ failing + 1 }
{
    match binding {
        Binding::AsWritten => {
            put_pair(answers, n, 0, 0);
            failing
        }
        Binding::Elsewhere(row) => {
            put_pair(answers, n, 1, row as usize);
            failing + 1
        }
        Binding::NoReference => {
            put_pair(answers, n, 2, 0);
            failing + 1
        }
        Binding::Several => {
            put_pair(answers, n, 3, 0);
            failing + 1
        }
    }
}

// Writes an answer for each slot of a sheet on the rows of a resolved form, behind a header of eight bytes, and says how many slots are
// not bound as written. What lies past the end of `answers` is not stored.
pub fn answer_slots(form: &[u8], sheet: &[u8], answers: &mut [u8]) -> usize
    ensures answers_after { (result & answers.new) ≡ answered form.now sheet.now answers.old }
    ensures upper_bound { result ≤ length sheet.now / 12 }
{
    let count = sheet.len() / SLOT;
    let mut failing = 0;
    for n in 0..count {
        let place = word_at(sheet, SLOT * n + 4);
        let name = word_at(sheet, SLOT * n + 8);
        failing = put(binding_of(form, place, name), answers, n, failing);
    }
    failing
}
