// Each function is called as its vector says, and held to what the vector states.
use crate::area_tests::numbers_in;
use crate::buffers::{FILLING, is_left};
use crate::head;
use crate::head::{Head, is_answer, number_in, word};
use crate::lent::{check, resolve_told, share};
use crate::steps::resolve_with;
use ferhevok::back::wnt_unresolve;
use ferhevok::bindings::wnt_sheet;
use ferhevok::builds::wnt_compare;
use ferhevok::in_place::wnt_mend;
use ferhevok::members::{wnt_batch, wnt_meant, wnt_member};
use ferhevok::moves::wnt_moved;
use ferhevok::versions::wnt_convert;
use ferhevok::wnt_resolve;

// Calls a function that is lent one buffer.
fn call_with_one(head: &Head, first: &[u8], second: &[u8], out: &mut [u8]) -> u64 {
    let number = word(head, head::NUMBER) as u32;
    match word(head, head::FUNCTION) {
        0 => wnt_resolve(first, out),
        3 => wnt_convert(first, number, out),
        _ => wnt_compare(first, second, number, out),
    }
}

fn with_one(head: &Head, first: &[u8], second: &[u8]) -> bool {
    let mut out = [FILLING; 65536];
    let room = io::count(word(head, head::FIRST) as isize, &out);
    let answer = call_with_one(head, first, second, &mut out[..room]);
    is_left(head, head::FIRST, &out) & is_answer(head, answer)
}

// Copies the form to the front of the buffer in which it is mended.
fn put(form: &[u8], buffer: &mut [u8]) {
    let mut i = 0;
    while i < form.len() && i < buffer.len() {
        buffer[i] = form[i];
        i += 1;
    }
}

fn put_and_mend(form: &[u8], buffer: &mut [u8], long: usize, list: &mut [u8]) -> u64 {
    put(form, buffer);
    wnt_mend(buffer, long, list)
}

// Calls a function that is lent two.
fn call_with_two(
    head: &Head,
    first: &[u8],
    second: &[u8],
    third: &[u8],
    out: &mut [u8],
    other: &mut [u8],
) -> u64 {
    match word(head, head::FUNCTION) {
        5 => wnt_sheet(first, second, third, out, other),
        9 => put_and_mend(first, out, word(head, head::NUMBER) as usize, other),
        _ => wnt_member(first, second, out, other),
    }
}

fn with_two(head: &Head, first: &[u8], second: &[u8], third: &[u8]) -> bool {
    let mut out = [FILLING; 65536];
    let mut other = [FILLING; 65536];
    let room = io::count(word(head, head::FIRST) as isize, &out);
    let space = io::count(word(head, head::SECOND) as isize, &other);
    let answer = call_with_two(
        head,
        first,
        second,
        third,
        &mut out[..room],
        &mut other[..space],
    );
    is_left(head, head::FIRST, &out) & is_left(head, head::SECOND, &other) & is_answer(head, answer)
}

// The lengths of members that an input states, one more than there may be.
fn lengths_in(stated: &[u8]) -> [u32; 9] {
    [
        number_in(stated, 0),
        number_in(stated, 4),
        number_in(stated, 8),
        number_in(stated, 12),
        number_in(stated, 16),
        number_in(stated, 20),
        number_in(stated, 24),
        number_in(stated, 28),
        number_in(stated, 32),
    ]
}

fn call_batch(
    prelude: &[u8],
    members: &[u8],
    stated: &[u8],
    out: &mut [u8],
    other: &mut [u8],
    last: &mut [u8],
) -> u64 {
    let lengths = lengths_in(stated);
    let count = numbers_in((stated.len() / 4) as u64, &lengths);
    wnt_batch(prelude, members, &lengths[..count], out, other, last)
}

// Calls a function that is lent three.
fn call_with_three(
    head: &Head,
    first: &[u8],
    second: &[u8],
    third: &[u8],
    out: &mut [u8],
    other: &mut [u8],
    last: &mut [u8],
) -> u64 {
    match word(head, head::FUNCTION) {
        4 => wnt_moved(first, out, other, last),
        8 => wnt_unresolve(first, out, other, last),
        _ => call_batch(first, second, third, out, other, last),
    }
}

fn with_three(head: &Head, first: &[u8], second: &[u8], third: &[u8]) -> bool {
    let mut out = [FILLING; 65536];
    let mut other = [FILLING; 65536];
    let mut last = [FILLING; 65536];
    let one = io::count(word(head, head::FIRST) as isize, &out);
    let two = io::count(word(head, head::SECOND) as isize, &other);
    let three = io::count(word(head, head::THIRD) as isize, &last);
    let answer = call_with_three(
        head,
        first,
        second,
        third,
        &mut out[..one],
        &mut other[..two],
        &mut last[..three],
    );
    is_left(head, head::FIRST, &out)
        & is_left(head, head::SECOND, &other)
        & is_left(head, head::THIRD, &last)
        & is_answer(head, answer)
}

// Calls the function of the vector on its inputs.
fn call(head: &Head, first: &[u8], second: &[u8], third: &[u8]) -> bool {
    match word(head, head::FUNCTION) {
        0 | 3 | 7 => with_one(head, first, second),
        5 | 9 | 10 => with_two(head, first, second, third),
        4 | 8 | 13 => with_three(head, first, second, third),
        1 => resolve_told(head, first),
        2 => resolve_with(head, first),
        6 => check(head, first, second),
        12 => share(head, first),
        11 => is_answer(
            head,
            wnt_meant(first, second, word(head, head::NUMBER) as u32),
        ),
        _ => false,
    }
}

// Reads the inputs into these buffers, and calls the function on them.
fn read_and_call(head: &Head, first: &mut [u8], second: &mut [u8], third: &mut [u8]) -> bool {
    io::read_full(0, first);
    io::read_full(0, second);
    io::read_full(0, third);
    call(head, first, second, third)
}

// Whether all comes out as the vector states.
pub fn is_as_stated(head: &Head) -> bool {
    let mut first = [0u8; 65536];
    let mut second = [0u8; 65536];
    let mut third = [0u8; 65536];
    let one = io::count(word(head, head::FIRST_INPUT) as isize, &first);
    let two = io::count(word(head, head::SECOND_INPUT) as isize, &second);
    let three = io::count(word(head, head::THIRD_INPUT) as isize, &third);
    read_and_call(
        head,
        &mut first[..one],
        &mut second[..two],
        &mut third[..three],
    )
}
