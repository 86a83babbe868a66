// The calls that are lent numbers, or a table and its index.
use crate::area_tests::{
    FILLED_LINK, FILLED_NUMBER, Numbers, Slots, is_emptied, links_in, numbers_in, slots_in,
};
use crate::buffers::{FILLING, is_left};
use crate::head;
use crate::head::{Head, is_answer, word, written_at};
use ferhevok::claims::wnt_check;
use ferhevok::fewer::wnt_share;
use ferhevok::told::wnt_resolve_told;

fn wide(number: u32) -> u64 {
    number as u64
}

// Whether the front of these is what a vector has written there; a word that it does not have is the filling.
fn are_told(written: &Head, told: &Numbers) -> bool {
    (wide(told[0]) == word(written, 0))
        & (wide(told[1]) == word(written, 4))
        & (wide(told[2]) == word(written, 8))
}

// Reads the numbers that are told, and answers whether these are they.
fn is_told(head: &Head, told: &Numbers) -> bool {
    let mut written = [FILLING; 100];
    let long = io::count(written_at(head, head::SECOND) as isize, &written);
    io::read_full(0, &mut written[..long]);
    are_told(&written, told)
}

pub fn resolve_told(head: &Head, form: &[u8]) -> bool {
    let mut out = [FILLING; 65536];
    let mut told = [FILLED_NUMBER; 32800];
    let room = io::count(word(head, head::FIRST) as isize, &out);
    let numbers = numbers_in(word(head, head::SECOND), &told);
    let answer = wnt_resolve_told(form, &mut out[..room], &mut told[..numbers]);
    is_left(head, head::FIRST, &out) & is_told(head, &told) & is_answer(head, answer)
}

pub fn check(head: &Head, form: &[u8], claim: &[u8]) -> bool {
    let mut table: Slots = [[FILLED_NUMBER; 6]; 32800];
    let mut index = [FILLED_LINK; 32800];
    let slots = slots_in(word(head, head::FIRST), &table);
    let links = links_in(word(head, head::SECOND), &index);
    let answer = wnt_check(form, claim, &mut table[..slots], &mut index[..links]);
    is_answer(head, answer) & is_emptied(head, head::FIRST, &table, &index)
}

pub fn share(head: &Head, form: &[u8]) -> bool {
    let mut out = [FILLING; 65536];
    let mut table: Slots = [[FILLED_NUMBER; 6]; 32800];
    let mut index = [FILLED_LINK; 32800];
    let room = io::count(word(head, head::FIRST) as isize, &out);
    let slots = slots_in(word(head, head::SECOND), &table);
    let links = links_in(word(head, head::THIRD), &index);
    let answer = wnt_share(
        form,
        &mut out[..room],
        &mut table[..slots],
        &mut index[..links],
    );
    is_left(head, head::FIRST, &out)
        & is_answer(head, answer)
        & is_emptied(head, head::SECOND, &table, &index)
}
