// The same as objects of JSON: first what the sheet comes to, then its slots.
use crate::answers::{answer_part, slot_part};
use bound::{Reference, reference_at};
use files::host::Host;
use json_parts::{say_count, say_null};
use readings::final_meaning;
use view_json::{say_meaning, say_word};
use words::say;

// What the sheet comes to: how many slots it has, how many of them fail, and the refusal's number and place, or 0 and 0.
pub(crate) fn tell_whole(
    host: Host<'_>,
    answer: &[u8],
    count: usize,
    failing: usize,
    number: u32,
    place: u32,
) {
    say(host.out(), answer);
    say_count(host.out(), b",\"slots\":", (count % 65536) as u32);
    say_count(host.out(), b",\"failing\":", (failing % 65536) as u32);
    say_count(host.out(), b",\"number\":", number);
    say_count(host.out(), b",\"place\":", place);
    say(host.out(), b"}\n");
}

fn tell_kind(host: Host<'_>, kind: u32) {
    match kind {
        0 => say(host.out(), b",\"answer\":\"bound as written\""),
        1 => say(host.out(), b",\"answer\":\"bound elsewhere\""),
        2 => say(host.out(), b",\"answer\":\"no reference\""),
        _ => say(host.out(), b",\"answer\":\"several references\""),
    }
}

// What the one reference at a place reaches.
fn tell_reached(host: Host<'_>, form: &[u8], place: u32) {
    match reference_at(form, place) {
        Reference::At(row) => say_meaning(
            host.out(),
            b",\"reached\":",
            form,
            final_meaning(form, row),
        ),
        Reference::Nothing | Reference::Several => say_null(host.out(), b",\"reached\":"),
    }
}

fn tell_slot(host: Host<'_>, names: &[u8], form: &[u8], sheet: &[u8], answers: &[u8], slot: u32) {
    let place = slot_part(sheet, slot, 4);
    let name = slot_part(sheet, slot, 8);
    say_count(host.out(), b"{\"family\":", slot_part(sheet, slot, 0));
    say_count(host.out(), b",\"place\":", place);
    say_count(host.out(), b",\"name\":", name);
    say_word(host.out(), names, name, false);
    tell_kind(host, answer_part(answers, slot, 0));
    tell_reached(host, form, place);
    say(host.out(), b"}\n");
}

// Writes an object for each of this many slots.
pub(crate) fn tell_slots(
    host: Host<'_>,
    names: &[u8],
    form: &[u8],
    sheet: &[u8],
    answers: &[u8],
    count: usize,
) {
    for slot in 0..count {
        tell_slot(host, names, form, sheet, answers, (slot % 65536) as u32);
    }
}
