// The call that is lent the five areas of the steps, for forms of both versions.
use crate::area_tests::{
    FILLED_LINK, FILLED_NUMBER, Slots, are_emptied, links_in, numbers_in, slots_in,
};
use crate::buffers::{FILLING, is_left};
use crate::head;
use crate::head::{Head, is_answer, word};
use ferhevok::lent::wnt_resolve_with;

pub fn resolve_with(head: &Head, form: &[u8]) -> bool {
    let mut out = [FILLING; 65536];
    let mut entered: Slots = [[FILLED_NUMBER; 6]; 32800];
    let mut names: Slots = [[FILLED_NUMBER; 6]; 32800];
    let mut known = [FILLED_LINK; 32800];
    let mut chains = [FILLED_LINK; 32800];
    let mut ends = [FILLED_NUMBER; 32800];
    let room = io::count(word(head, head::FIRST) as isize, &out);
    let one = slots_in(word(head, head::SECOND), &entered);
    let two = slots_in(word(head, head::THIRD), &names);
    let three = links_in(word(head, head::FOURTH), &known);
    let four = links_in(word(head, head::FIFTH), &chains);
    let five = numbers_in(word(head, head::SIXTH), &ends);
    let answer = wnt_resolve_with(
        form,
        &mut out[..room],
        &mut entered[..one],
        &mut names[..two],
        &mut known[..three],
        &mut chains[..four],
        &mut ends[..five],
    );
    let emptied = are_emptied(head, head::SECOND, &entered, &names, &known, &chains, &ends);
    is_left(head, head::FIRST, &out) & is_answer(head, answer) & emptied
}
