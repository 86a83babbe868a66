// The command mend: a spoilt form mended, and each change in words.
use changes::say_changes;
use command::arguments::{behind, has_words, wrong_count};
use command::forms::{part, talk_beside};
use command::status::{DONE, FAILED, said};
use command::topic::{Task, say_topic};
use files::host::{Host, arg};
use files::read::load;
use files::standard::error_noted;
use files::write::save;
use fixed::bytes_of;
use known::file::refuse_form;
use mend::run::mend;
use refusal::{NOT_A_FORM, Refusal};
use row_parts::rows_said;
use words::{Talk, say};

fn say_mended(talk: Talk<'_>, form: &[u8], list: &[u8], changes: u32) {
    if changes == 0 {
        say(talk, b"this form is sound\n");
    } else {
        say_changes(talk, list, changes, form);
    }
}

fn save_mended(host: Host<'_>, form: &[u8], path: &[u8], list: &[u8], changes: u32) -> u8 {
    if save(host, path, form) {
        let before = error_noted(host);
        say_mended(host.to(talk_beside(path)), form, list, changes);
        said(host, DONE, before)
    } else {
        FAILED
    }
}

// Whether a form says version 2, of which the program takes none.
fn is_second(buffer: &[u8; 65536]) -> bool {
    buffer[3] == 2
}

// Mends the form in the first bytes of a buffer, this many. The list has room for every change that such a form can need.
fn mend_loaded(host: Host<'_>, mut buffer: [u8; 65536], length: usize, path: &[u8]) -> u8 {
    if is_second(&buffer) {
        let refusal = Refusal {
            number: NOT_A_FORM,
            place: 0,
        };
        return refuse_form(host, part(&buffer, length), path, refusal);
    }
    let mut list = [0u8; 163840];
    match mend(&mut buffer, length, &mut list) {
        Ok(changes) => {
            let rows = rows_said(&buffer);
            save_mended(host, part(&buffer, bytes_of(rows)), path, &list, changes)
        }
        Err(refusal) => refuse_form(host, part(&buffer, length), path, refusal),
    }
}

// Mends the form in a file into another file.
fn mend_paths(host: Host<'_>, from: &[u8], to: &[u8]) -> u8 {
    let mut buffer = io::large_buffer();
    let Some(length) = load(host, from, &mut buffer) else {
        return FAILED;
    };
    mend_loaded(host, buffer, length, to)
}

fn run_mend(host: Host<'_>, first: u8) -> u8 {
    if !has_words(host, first, 3) {
        wrong_count(host, b"wnt mend IN OUT");
        return FAILED;
    }
    let mut from = io::buffer();
    let from_length = arg(host, behind(first, 1), &mut from);
    let mut to = io::buffer();
    let to_length = arg(host, behind(first, 2), &mut to);
    mend_paths(host, &from[..from_length], &to[..to_length])
}

pub fn mend_command(host: Host<'_>, task: Task, first: u8) -> u8 {
    match task {
        Task::Run => run_mend(host, first),
        Task::Help => say_topic(
            host,
            b"mend IN OUT",
            b"Mends a form that an editor has spoilt and writes it to OUT, a file whole or not at all: a\npart row is dropped, rows behind the root's CLOSE are cut, missing CLOSE rows are added, the\nrow count is set, and what must be zero is zeroed. Prints each change with its row and part.\nA sound form is written as it is. What is no form even so is refused, and not written. Forms of\nversion 2 are refused too: of those the library takes care (wnt_mend).\n",
            b"mended or sound, and written",
            b"refused",
            b"mend spoilt.wnt mended.wnt",
        ),
    }
}
