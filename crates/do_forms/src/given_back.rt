// The command unresolve: an input given back for a resolved form.
use command::arguments::{behind, has_words, wrong_count};
use command::forms::{part, talk_beside};
use command::status::{DONE, FAILED, NO, said};
use command::topic::{Task, say_topic};
use files::host::{Host, arg};
use files::read::load;
use files::standard::error_noted;
use files::write::save;
use fixed::bytes_of;
use known::version::{is_second, say_second};
use unresolve::run::unresolve;
use words::{say, say_number};

fn save_input(host: Host<'_>, form: &[u8], rows: u32, path: &[u8]) -> u8 {
    if save(host, path, form) {
        let before = error_noted(host);
        let talk = host.to(talk_beside(path));
        say(talk, b"given back: an input of ");
        say_number(talk, rows);
        say(talk, b" rows\n");
        said(host, DONE, before)
    } else {
        FAILED
    }
}

// The buffers have room for every input, so that there is one refusal.
fn refuse(host: Host<'_>, form: &[u8], path: &[u8]) -> u8 {
    let before = error_noted(host);
    let talk = host.to(talk_beside(path));
    say(talk, b"refused 14: ");
    if is_second(form) {
        say_second(talk);
    } else {
        say(talk, b"no input has these bytes as its output\n");
    }
    said(host, NO, before)
}

fn unresolve_form(host: Host<'_>, form: &[u8], path: &[u8]) -> u8 {
    let mut out = io::large_buffer();
    let mut restored = io::large_buffer();
    let mut again = io::large_buffer();
    match unresolve(form, &mut out, &mut restored, &mut again) {
        Ok(rows) => save_input(host, part(&out, bytes_of(rows)), rows, path),
        Err(_) => refuse(host, form, path),
    }
}

// Gives an input for the resolved form in a file, into another file.
fn unresolve_paths(host: Host<'_>, from: &[u8], to: &[u8]) -> u8 {
    let mut buffer = io::large_buffer();
    let Some(length) = load(host, from, &mut buffer) else {
        return FAILED;
    };
    unresolve_form(host, part(&buffer, length), to)
}

fn run_unresolve(host: Host<'_>, first: u8) -> u8 {
    if !has_words(host, first, 3) {
        wrong_count(host, b"wnt unresolve RESOLVED OUT");
        return FAILED;
    }
    let mut from = io::buffer();
    let from_length = arg(host, behind(first, 1), &mut from);
    let mut to = io::buffer();
    let to_length = arg(host, behind(first, 2), &mut to);
    unresolve_paths(host, &from[..from_length], &to[..to_length])
}

pub fn unresolve_command(host: Host<'_>, task: Task, first: u8) -> u8 {
    match task {
        Task::Run => run_unresolve(host, first),
        Task::Help => say_topic(
            host,
            b"unresolve RESOLVED OUT",
            b"Writes to OUT an input whose resolved form RESOLVED is, a file whole or not at all: inserted\naliases are left out, and the references that they served are names and paths again. Resolved\nonce more it gives the very bytes of RESOLVED. A form that no input resolves to is refused,\nand not written.\n",
            b"given back, and written",
            b"refused: it is no input's resolved form",
            b"unresolve resolved.wnt names.wnt",
        ),
    }
}
