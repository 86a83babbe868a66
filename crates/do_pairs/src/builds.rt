// The command diff: what differs between two forms, in words.
mod entries;

use crate::builds::entries::{say_entries, tell_entries};
use command::arguments::{behind, has_words, wrong_count};
use command::forms::part;
use command::status::{DONE, FAILED, NO, said};
use command::topic::{Task, say_topic};
use diff::run::compare;
use files::host::{Host, arg};
use files::path_parts::front;
use files::read::load;
use files::standard::error_noted;
use known::version::{is_second, say_second};
use options::given::{FRESH, JSON, NAMES, Options, PLACES, has, read_options};
use options::names::load_names;
use refusal::{NOT_A_FORM, Refusal};
use words::refusals::{say_meaning, say_where};
use words::say;

// ---- trouble

fn say_why(host: Host<'_>, number: u32, is_left: bool) {
    match number {
        1 => {
            if is_left {
                say(
                    host.err(),
                    b"this is no form: it does not begin with WNT and a version that is known",
                );
            } else {
                say(host.err(), b"its header is not that of the other form");
            }
        }
        2 => say(
            host.err(),
            b"the row count is 0 or above what a resolved form can have, or the length does not fit it",
        ),
        _ => say_meaning(host.err(), number, 0, 0),
    }
}

// Says why a file cannot be compared.
fn say_trouble(host: Host<'_>, path: &[u8], refusal: Refusal, is_left: bool) {
    say(host.err(), path);
    say(host.err(), b": ");
    say_where(host.err(), refusal.number, refusal.place);
    say_why(host, refusal.number, is_left);
    say(host.err(), b"\n");
}

// Forms of version 2 could be compared, but their rows would not be shown as they are.
fn refuse_second(host: Host<'_>, path: &[u8]) -> u8 {
    say(host.err(), path);
    say(host.err(), b": ");
    say_where(host.err(), NOT_A_FORM, 0);
    say_second(host.err());
    FAILED
}

// Whether the left is refused by itself: then it is the left that is refused.
fn is_refused(left: &[u8]) -> bool {
    let mut none = [0u8; 1];
    compare(left, left, 0, &mut none).is_err()
}

// ---- the answer

fn say_equal(host: Host<'_>, set: u8) {
    say(host.out(), b"equal");
    if has(set, PLACES) {
        say(host.out(), b", places aside");
    }
    if has(set, FRESH) {
        say(host.out(), b", fresh names aside");
    }
    say(host.out(), b"\n");
}

// In words, or as objects of JSON; if nothing differs there is no object.
fn say_listed(host: Host<'_>, names: &[u8], left: &[u8], right: &[u8], list: &[u8], set: u8) -> u8 {
    let before = error_noted(host);
    if list.len() == 0 {
        if !has(set, JSON) {
            say_equal(host, set);
        }
        return said(host, DONE, before);
    }
    if has(set, JSON) {
        tell_entries(host.out(), list);
    } else {
        say_entries(host.out(), names, left, right, list);
    }
    said(host, NO, before)
}

// The bits of the choice are those of the options. The list has room for what can differ between two forms.
fn compare_forms(
    host: Host<'_>,
    names: &[u8],
    left: &[u8],
    right: &[u8],
    left_path: &[u8],
    right_path: &[u8],
    set: u8,
) -> u8 {
    let mut list = [0u8; 229376];
    match compare(left, right, set as u32, &mut list) {
        Ok(bytes) => { say_listed(host, names, left, right, front(&list, bytes as usize), set) }
        Err(refusal) => {
            if is_refused(left) {
                say_trouble(host, left_path, refusal, true);
            } else {
                say_trouble(host, right_path, refusal, false);
            }
            FAILED
        }
    }
}

// The same of forms of version 1.
fn compare_first(
    host: Host<'_>,
    names: &[u8],
    left: &[u8],
    right: &[u8],
    left_path: &[u8],
    right_path: &[u8],
    set: u8,
) -> u8 {
    if is_second(left) {
        refuse_second(host, left_path)
    } else if is_second(right) {
        refuse_second(host, right_path)
    } else {
        compare_forms(host, names, left, right, left_path, right_path, set)
    }
}

fn compare_paths(host: Host<'_>, names: &[u8], left_path: &[u8], right_path: &[u8], set: u8) -> u8 {
    let mut left = io::large_buffer();
    let mut right = io::large_buffer();
    let Some(one) = load(host, left_path, &mut left) else {
        return FAILED;
    };
    let Some(other) = load(host, right_path, &mut right) else {
        return FAILED;
    };
    compare_first(
        host,
        names,
        part(&left, one),
        part(&right, other),
        left_path,
        right_path,
        set,
    )
}

fn compare_named(host: Host<'_>, options: Options, names: &[u8]) -> u8 {
    let mut left = io::buffer();
    let left_length = arg(host, behind(options.first, 1), &mut left);
    let mut right = io::buffer();
    let right_length = arg(host, behind(options.first, 2), &mut right);
    compare_paths(
        host,
        names,
        &left[..left_length],
        &right[..right_length],
        options.set,
    )
}

fn diff_with(host: Host<'_>, options: Options) -> u8 {
    if !has_words(host, options.first, 3) {
        wrong_count(
            host,
            b"wnt diff [--places] [--fresh] [--names FILE] [--json] LEFT RIGHT",
        );
        return FAILED;
    }
    let mut names = io::large_buffer();
    let Some(count) = load_names(host, options, &mut names) else {
        return FAILED;
    };
    compare_named(host, options, part(&names, count))
}

fn run_diff(host: Host<'_>, first: u8) -> u8 {
    let Some(given) = read_options(host, first, PLACES | FRESH | NAMES | JSON) else {
        return FAILED;
    };
    diff_with(host, given)
}

pub fn diff_command(host: Host<'_>, task: Task, first: u8) -> u8 {
    match task {
        Task::Run => run_diff(host, first),
        Task::Help => say_topic(
            host,
            b"diff [--places] [--fresh] [--names FILE] [--json] LEFT RIGHT",
            b"Compares two forms, inputs or resolved ones, field by field of the root, and prints the rows\nof both sides where they differ. With --places it does not count where places differ, with\n--fresh which inserted name it is. With --names the words of FILE stand for names; with --json\neach line is an object.\n",
            b"equal",
            b"different",
            b"diff old.wnt new.wnt",
        ),
    }
}
