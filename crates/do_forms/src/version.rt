// The command convert: a form of one version written as one of another.
use check::same;
use command::arguments::{behind, has_words, wrong_count};
use command::forms::talk_beside;
use command::status::{DONE, FAILED, NO, said};
use command::topic::{Task, say_topic};
use convert::run::convert;
use files::host::{Host, arg};
use files::path_parts::front;
use files::standard::error_noted;
use files::write::save;
use fixed::{HEADER_NARROW, LONG_HEADER_NARROW, bytes_with};
use refusal::Refusal;
use texts::load::{load_text, text_part};
use words::refusals::{say_meaning, say_where};
use words::{Talk, say, say_number};

fn version_of(word: &[u8]) -> Option<u32> {
    if same(word, b"1") {
        Some(1)
    } else if same(word, b"2") {
        Some(2)
    } else {
        None
    }
}

// How many bytes a header of a version has.
fn header_of(version: u32) -> u8 {
    if version == 1 {
        HEADER_NARROW
    } else {
        LONG_HEADER_NARROW
    }
}

fn say_why(talk: Talk<'_>, number: u32) {
    match number {
        1 => say(
            talk,
            b"this is no form of version 1 or 2, or it has a rule set that the version asked for has not",
        ),
        2 => say(
            talk,
            b"the row count is 0 or above what a version allows, or the length does not fit it",
        ),
        5 => say(
            talk,
            b"a scope is opened while as many are open as a version allows",
        ),
        _ => say_meaning(talk, number, 0, 0),
    }
}

fn refuse(host: Host<'_>, path: &[u8], refusal: Refusal) -> u8 {
    let before = error_noted(host);
    let talk = host.to(talk_beside(path));
    say_where(talk, refusal.number, refusal.place);
    say_why(talk, refusal.number);
    say(talk, b"\n");
    said(host, NO, before)
}

fn save_form(host: Host<'_>, form: &[u8], path: &[u8], version: u32, rows: u32) -> u8 {
    if !save(host, path, form) {
        return FAILED;
    }
    let before = error_noted(host);
    let talk = host.to(talk_beside(path));
    say_number(talk, rows);
    say(talk, b" rows written, as a form of version ");
    say_number(talk, version);
    say(talk, b"\n");
    said(host, DONE, before)
}

// The output has room for the longest form.
fn convert_form(host: Host<'_>, form: &[u8], version: u32, path: &[u8]) -> u8 {
    let mut out = [0u8; 262160];
    match convert(form, version, &mut out) {
        Ok(rows) => {
            save_form(
                host,
                front(&out, bytes_with(header_of(version), rows)),
                path,
                version,
                rows,
            )
        }
        Err(refusal) => refuse(host, path, refusal),
    }
}

fn convert_paths(host: Host<'_>, from: &[u8], version: u32, to: &[u8]) -> u8 {
    let mut buffer = [0u8; 524289];
    let Some(length) = load_text(host, from, &mut buffer) else {
        return FAILED;
    };
    convert_form(host, text_part(&buffer, length), version, to)
}

fn version_in(host: Host<'_>, i: usize) -> Option<u32> {
    let mut word = [0u8; 16];
    let length = arg(host, i, &mut word);
    version_of(&word[..length])
}

fn convert_to(host: Host<'_>, first: u8, version: u32) -> u8 {
    let mut from = io::buffer();
    let from_length = arg(host, behind(first, 1), &mut from);
    let mut to = io::buffer();
    let to_length = arg(host, behind(first, 3), &mut to);
    convert_paths(host, &from[..from_length], version, &to[..to_length])
}

fn run_convert(host: Host<'_>, first: u8) -> u8 {
    if !has_words(host, first, 4) {
        wrong_count(host, b"wnt convert FORM VERSION OUT");
        return FAILED;
    }
    match version_in(host, behind(first, 2)) {
        Some(version) => convert_to(host, first, version),
        None => {
            say(host.err(), b"A version is 1 or 2.\n");
            FAILED
        }
    }
}

pub fn convert_command(host: Host<'_>, task: Task, first: u8) -> u8 {
    match task {
        Task::Run => run_convert(host, first),
        Task::Help => say_topic(
            host,
            b"convert FORM VERSION OUT",
            b"Writes the form, whose version is 1 or 2, to OUT as one of VERSION, a file whole or not at\nall: the same rows behind another header. A form of version 2 can be too long or too deep for\nversion 1, and is refused then.\n",
            b"converted, and written",
            b"refused",
            b"convert driver.wnt 2 driver-2.wnt",
        ),
    }
}
