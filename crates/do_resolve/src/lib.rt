// The commands resolve and check: a form resolved into a file, and forms of which it is said whether they are accepted.
#![tactic(auto)]

pub mod batch;

use command::arguments::{behind, has_words, wrong_count};
use command::forms::{part, talk_beside};
use command::status::{DONE, FAILED, NO, said, worse};
use command::topic::{Task, say_topic};
use files::host::{Host, arg, arg_count};
use files::read::load;
use files::standard::error_noted;
use files::write::save;
use fixed::bytes_of;
use json_parts::say_string;
use known::file::{refuse_told, say_told};
use moved::run::moved as list_moved;
use moved_list::list_numbers;
use names::Slot;
use options::given::{JSON, Options, SHARED, has, read_options};
use refusal::Refused;
use resolver::run::resolve;
use share::share;
use view::accepted::say_accepted;
use view_json::{say_answer, say_size};
use words::{Talk, say, say_number};

// ---- resolve

// The warning that a written number counts to something else now.
fn say_moved(talk: Talk<'_>, moved: u32) {
    if 0 < moved {
        say(talk, b"written numbers that mean another declaration now: ");
        say_number(talk, moved);
        say(talk, b" (wnt moved says which)\n");
    }
}

fn save_form(host: Host<'_>, form: &[u8], path: &[u8], moved: u32) -> u8 {
    if save(host, path, form) {
        let before = error_noted(host);
        let talk = host.to(talk_beside(path));
        say_accepted(talk, form);
        say_moved(talk, moved);
        said(host, DONE, before)
    } else {
        FAILED
    }
}

// What sharing comes to: aliases that are not there, and written numbers that count to something else now.
fn save_shared(host: Host<'_>, form: &[u8], path: &[u8], moved: u32, spared: u32) -> u8 {
    if save(host, path, form) {
        let before = error_noted(host);
        let talk = host.to(talk_beside(path));
        say_accepted(talk, form);
        say(talk, b"aliases spared: ");
        say_number(talk, spared);
        say(talk, b"\n");
        say_moved(talk, moved);
        said(host, DONE, before)
    } else {
        FAILED
    }
}

// How many written numbers of an accepted form mean another declaration in its output. The two lists have room for every form.
fn moved_in(form: &[u8]) -> u32 {
    let mut buffer = io::large_buffer();
    let mut moved = [0u8; 16384];
    let mut apart = [0u8; 12288];
    match list_moved(form, &mut buffer, &mut moved, &mut apart) {
        Ok(listed) => listed.moved,
        Err(_) => 0,
    }
}

fn resolve_form(host: Host<'_>, form: &[u8], path: &[u8]) -> u8 {
    let mut buffer = io::large_buffer();
    match resolve(form, &mut buffer) {
        Ok(rows) => save_form(host, part(&buffer, bytes_of(rows)), path, moved_in(form)),
        Err(Refused { refusal, told }) => refuse_told(host, form, path, refusal, told),
    }
}

// How many written numbers of a form mean another declaration in this output of it.
fn moved_to(form: &[u8], out: &[u8]) -> u32 {
    let mut moved = [0u8; 16384];
    let mut apart = [0u8; 12288];
    list_numbers(form, out, &mut moved, &mut apart).moved
}

// How many aliases fewer this many rows have than the resolver's own output: an alias is three rows.
fn spared_in(form: &[u8], rows: u32) -> u32 {
    let mut buffer = io::large_buffer();
    let Ok(own) = resolve(form, &mut buffer) else {
        return 0;
    };
    if rows < own { (own - rows) / 3 } else { 0 }
}

fn share_form(host: Host<'_>, form: &[u8], path: &[u8]) -> u8 {
    let mut buffer = io::large_buffer();
    let mut table: [Slot; 2046] = [[0u32; 6]; 2046];
    let mut index = [0u16; 3070];
    match share(form, &mut buffer, &mut table, &mut index) {
        Ok(rows) => {
            let out = part(&buffer, bytes_of(rows));
            save_shared(host, out, path, moved_to(form, out), spared_in(form, rows))
        }
        Err(Refused { refusal, told }) => refuse_told(host, form, path, refusal, told),
    }
}

// Resolves the form in a file into another file.
fn resolve_paths(host: Host<'_>, from: &[u8], to: &[u8], is_shared: bool) -> u8 {
    let mut buffer = io::large_buffer();
    let Some(length) = load(host, from, &mut buffer) else {
        return FAILED;
    };
    if is_shared {
        share_form(host, part(&buffer, length), to)
    } else {
        resolve_form(host, part(&buffer, length), to)
    }
}

fn resolve_with(host: Host<'_>, options: Options) -> u8 {
    let first = options.first;
    if !has_words(host, first, 3) {
        wrong_count(host, b"wnt resolve [--shared] IN OUT");
        return FAILED;
    }
    let mut from = io::buffer();
    let from_length = arg(host, behind(first, 1), &mut from);
    let mut to = io::buffer();
    let to_length = arg(host, behind(first, 2), &mut to);
    resolve_paths(
        host,
        &from[..from_length],
        &to[..to_length],
        has(options.set, SHARED),
    )
}

fn run_resolve(host: Host<'_>, first: u8) -> u8 {
    let Some(given) = read_options(host, first, SHARED) else {
        return FAILED;
    };
    resolve_with(host, given)
}

pub fn resolve_command(host: Host<'_>, task: Task, first: u8) -> u8 {
    match task {
        Task::Run => run_resolve(host, first),
        Task::Help => say_topic(
            host,
            b"resolve [--shared] IN OUT",
            b"Resolves the form IN, writes the resolved form to OUT, and says how many rows and inserted\naliases it has, and how many written numbers mean another declaration now, if any do. A file\nOUT is written whole or not at all. A form that is refused is not written: the refusal is\nprinted, with its number, its place and what it means. With --shared references in one scope to\nthe same outer declaration share an alias, and how many aliases that spares is said.\n",
            b"accepted, and written",
            b"refused",
            b"resolve driver.wnt resolved.wnt",
        ),
    }
}

// ---- check

fn check_form(host: Host<'_>, form: &[u8]) -> u8 {
    let mut buffer = io::large_buffer();
    match resolve(form, &mut buffer) {
        Ok(rows) => {
            say_accepted(host.out(), part(&buffer, bytes_of(rows)));
            DONE
        }
        Err(Refused { refusal, told }) => {
            say_told(host.out(), form, refusal, told);
            NO
        }
    }
}

fn check_named(host: Host<'_>, path: &[u8], form: &[u8]) -> u8 {
    let before = error_noted(host);
    say(host.out(), path);
    say(host.out(), b": ");
    said(host, check_form(host, form), before)
}

// The rows and inserted fields are those of the resolved form, if there is one, else of the form as it is.
fn tell_checked(host: Host<'_>, number: u32, place: u32, form: &[u8]) {
    say_answer(host.out(), number, place);
    say_size(host.out(), form);
    say(host.out(), b"}\n");
}

// The same as an object of JSON.
fn tell_form(host: Host<'_>, form: &[u8]) -> u8 {
    let mut buffer = io::large_buffer();
    match resolve(form, &mut buffer) {
        Ok(rows) => {
            tell_checked(host, 0, 0, part(&buffer, bytes_of(rows)));
            DONE
        }
        Err(Refused { refusal, .. }) => {
            tell_checked(host, refusal.number, refusal.place, form);
            NO
        }
    }
}

fn tell_named(host: Host<'_>, path: &[u8], form: &[u8]) -> u8 {
    let before = error_noted(host);
    say_string(host.out(), b"{\"file\":", path);
    said(host, tell_form(host, form), before)
}

// Says whether the form in a file is accepted.
fn check_path(host: Host<'_>, path: &[u8], is_json: bool) -> u8 {
    let mut buffer = io::large_buffer();
    let Some(length) = load(host, path, &mut buffer) else {
        return FAILED;
    };
    if is_json {
        tell_named(host, path, part(&buffer, length))
    } else {
        check_named(host, path, part(&buffer, length))
    }
}

fn check_argument(host: Host<'_>, i: usize, is_json: bool) -> u8 {
    let mut path = io::buffer();
    let length = arg(host, i, &mut path);
    check_path(host, &path[..length], is_json)
}

fn check_from(host: Host<'_>, from: usize, is_json: bool) -> u8 {
    let count = arg_count(host);
    let mut status = DONE;
    for i in from..count {
        status = worse(status, check_argument(host, i, is_json));
    }
    status
}

// Checks each form, and answers the worst of what they came to.
fn check_with(host: Host<'_>, options: Options) -> u8 {
    if has_words(host, options.first, 1) {
        wrong_count(host, b"wnt check [--json] FORM..");
        return FAILED;
    }
    check_from(host, behind(options.first, 1), has(options.set, JSON))
}

fn run_check(host: Host<'_>, first: u8) -> u8 {
    let Some(given) = read_options(host, first, JSON) else {
        return FAILED;
    };
    check_with(host, given)
}

pub fn check_command(host: Host<'_>, task: Task, first: u8) -> u8 {
    match task {
        Task::Run => run_check(host, first),
        Task::Help => say_topic(
            host,
            b"check [--json] FORM..",
            b"Says of each form whether it is accepted or refused, a line each, and writes no file. The\nexit status is the worst of the forms. With --json each line is an object.\n",
            b"all are accepted",
            b"one is refused",
            b"check driver.wnt other.wnt",
        ),
    }
}
