// The command moved: the written numbers that inserted aliases have moved, in words.
#![tactic(auto)]

mod entries;

use command::arguments::{behind, has_words, wrong_count};
use command::forms::part;
use command::status::{DONE, FAILED, NO, said};
use command::topic::{Task, say_topic};
use entries::{say_apart, say_moved, tell_apart, tell_moved};
use files::host::{Host, arg};
use files::read::load;
use files::standard::error_noted;
use known::file::say_told;
use moved::run::moved as list_moved;
use moved_list::Listed;
use options::given::{JSON, NAMES, Options, has, read_options};
use options::names::load_names;
use refusal::Refused;
use resolver::run::resolve;
use view_json::tell_form;
use words::say;

// Of both lists, with this many entries: a line for each, or one for there being none.
fn say_lists(
    host: Host<'_>,
    names: &[u8],
    form: &[u8],
    out: &[u8],
    moved: &[u8],
    apart: &[u8],
    listed: Listed,
) -> u8 {
    if (listed.moved == 0) & (listed.apart == 0) {
        say(
            host.out(),
            b"no number has moved: each means what it meant as it was written\n",
        );
        return DONE;
    }
    say_moved(host.out(), names, form, out, moved, listed.moved);
    say_apart(host.out(), apart, listed.apart);
    NO
}

// The same as objects of JSON.
fn tell_lists(host: Host<'_>, form: &[u8], moved: &[u8], apart: &[u8], listed: Listed) -> u8 {
    tell_form(host.out(), form, 0, 0);
    tell_moved(host.out(), form, moved, listed.moved);
    tell_apart(host.out(), apart, listed.apart);
    if (listed.moved == 0) & (listed.apart == 0) {
        DONE
    } else {
        NO
    }
}

// A form for which there are no lists: the resolver says why, and what it tells.
fn refuse(host: Host<'_>, form: &[u8], is_json: bool) -> u8 {
    let mut out = io::large_buffer();
    match resolve(form, &mut out) {
        Ok(_) => FAILED,
        Err(Refused { refusal, told }) => {
            if is_json {
                tell_form(host.out(), form, refusal.number, refusal.place);
            } else {
                say_told(host.out(), form, refusal, told);
            }
            NO
        }
    }
}

// The lists have room for every form that is not refused.
fn say_of_form(host: Host<'_>, names: &[u8], form: &[u8], is_json: bool) -> u8 {
    let mut out = io::large_buffer();
    let mut moved = [0u8; 16384];
    let mut apart = [0u8; 12288];
    match list_moved(form, &mut out, &mut moved, &mut apart) {
        Ok(listed) => {
            if is_json {
                tell_lists(host, form, &moved, &apart, listed)
            } else {
                say_lists(host, names, form, &out, &moved, &apart, listed)
            }
        }
        Err(_) => refuse(host, form, is_json),
    }
}

fn say_of_path(host: Host<'_>, names: &[u8], path: &[u8], is_json: bool) -> u8 {
    let mut buffer = io::large_buffer();
    let Some(length) = load(host, path, &mut buffer) else {
        return FAILED;
    };
    let before = error_noted(host);
    said(
        host,
        say_of_form(host, names, part(&buffer, length), is_json),
        before,
    )
}

fn say_with(host: Host<'_>, options: Options) -> u8 {
    let mut names = io::large_buffer();
    let mut path = io::buffer();
    let Some(count) = load_names(host, options, &mut names) else {
        return FAILED;
    };
    let length = arg(host, behind(options.first, 1), &mut path);
    say_of_path(
        host,
        part(&names, count),
        &path[..length],
        has(options.set, JSON),
    )
}

fn moved_with(host: Host<'_>, options: Options) -> u8 {
    if !has_words(host, options.first, 2) {
        wrong_count(host, b"wnt moved [--names FILE] [--json] FORM");
        return FAILED;
    }
    say_with(host, options)
}

fn run_moved(host: Host<'_>, first: u8) -> u8 {
    let Some(given) = read_options(host, first, NAMES | JSON) else {
        return FAILED;
    };
    moved_with(host, given)
}

pub fn moved_command(host: Host<'_>, task: Task, first: u8) -> u8 {
    match task {
        Task::Run => run_moved(host, first),
        Task::Help => say_topic(
            host,
            b"moved [--names FILE] [--json] FORM",
            b"Prints a line for each written number of the input FORM that means another declaration once\nthe form is resolved, since inserted aliases come before what it meant: the place, what the\nnumber meant (a row of FORM) and what it gets (a row of the resolved form). Then one for each\nnumber that counts to no declaration. Writes no file. With --names the words of FILE stand for\nnames; with --json each line is an object.\n",
            b"no number has moved, and each counts to a declaration",
            b"a number is printed, or the form is refused",
            b"moved driver.wnt",
        ),
    }
}
