// The command anonymise: a form whose names become 1, 2, 3, and so on, and the key to them.
use anonymise::run::{Fault, anonymise};
use command::arguments::{behind, has_words, wrong_count};
use command::forms::{part, talk_beside};
use command::status::{DONE, FAILED, said};
use command::topic::{Task, say_topic};
use files::host::{Host, arg};
use files::read::load;
use files::standard::error_noted;
use files::write::save;
use known::file::refuse_form;
use refusal::{BROKEN, DEEP, NOT_A_FORM, ROOM, ROW_COUNT, Refusal};
use words::names::say_operand;
use words::{Talk, say};

// How many names the key has room for: more than a form can have.
const NAMES: usize = 2048;

// A line of the key: a name of the form, and the name that it has now.
fn say_pair(talk: Talk<'_>, old: u32, new: u32) {
    say_operand(talk, b"", true, old);
    say(talk, b" is now ");
    say_operand(talk, b"", true, new);
    say(talk, b"\n");
}

// The key, a line a name.
fn say_key(talk: Talk<'_>, key: &[u32; 2048], names: u32) {
    for i in 0..names {
        let at = i as usize;
        if NAMES <= at {
            return;
        }
        say_pair(talk, key[at], i + 1);
    }
}

fn save_anonymous(host: Host<'_>, form: &[u8], path: &[u8], key: &[u32; 2048], names: u32) -> u8 {
    if save(host, path, form) {
        let before = error_noted(host);
        say_key(host.to(talk_beside(path)), key, names);
        said(host, DONE, before)
    } else {
        FAILED
    }
}

fn refuse(host: Host<'_>, form: &[u8], path: &[u8], number: u32, place: u32) -> u8 {
    refuse_form(host, form, path, Refusal { number, place })
}

fn anonymise_form(host: Host<'_>, form: &[u8], path: &[u8]) -> u8 {
    let mut buffer = io::large_buffer();
    let mut key = [0u32; 2048];
    match anonymise(form, &mut buffer, &mut key) {
        Ok(names) => save_anonymous(host, part(&buffer, form.len()), path, &key, names),
        Err(Fault::Header) => refuse(host, form, path, NOT_A_FORM, 0),
        Err(Fault::RowCount) => refuse(host, form, path, ROW_COUNT, 0),
        Err(Fault::Room) => refuse(host, form, path, ROOM, 0),
        Err(Fault::Broken(row)) => refuse(host, form, path, BROKEN, row),
        Err(Fault::Deep(row)) => refuse(host, form, path, DEEP, row),
    }
}

// Writes the form in a file into another file with its new names.
fn anonymise_paths(host: Host<'_>, from: &[u8], to: &[u8]) -> u8 {
    let mut buffer = io::large_buffer();
    let Some(length) = load(host, from, &mut buffer) else {
        return FAILED;
    };
    anonymise_form(host, part(&buffer, length), to)
}

fn run_anonymise(host: Host<'_>, first: u8) -> u8 {
    if !has_words(host, first, 3) {
        wrong_count(host, b"wnt anonymise FORM OUT");
        return FAILED;
    }
    let mut from = io::buffer();
    let from_length = arg(host, behind(first, 1), &mut from);
    let mut to = io::buffer();
    let to_length = arg(host, behind(first, 2), &mut to);
    anonymise_paths(host, &from[..from_length], &to[..to_length])
}

pub fn anonymise_command(host: Host<'_>, task: Task, first: u8) -> u8 {
    match task {
        Task::Run => run_anonymise(host, first),
        Task::Help => say_topic(
            host,
            b"anonymise FORM OUT",
            b"Writes the form to OUT with 1, 2, 3, .. for its names, in the order in which they first\nstand, a file whole or not at all, and prints the key: the old name and the new one, a line\na name. The resolver answers the new form as it does the old one.\n",
            b"written",
            b"it is no form",
            b"anonymise driver.wnt anonymous.wnt",
        ),
    }
}
