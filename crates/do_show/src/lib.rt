// The commands show and explain: a form in words, and what the references with one place mean.
#![tactic(auto)]

mod asked;
mod digits;
pub mod draw;
mod told;

use command::arguments::{behind, has_words, wrong_count};
use command::forms::part;
use command::status::{DONE, FAILED, NO, said};
use command::topic::{Task, say_topic};
use digits::number_in;
use files::host::{Host, arg};
use files::read::load;
use files::standard::error_noted;
use known::file::{Known, say_refused, what_is};
use options::given::{JSON, NAMES, Options, has, read_options};
use options::names::load_names;
use refusal::{Refusal, Refused};
use resolver::run::resolve;
use told::tell;
use view::accepted::{is_resolved, say_resolved};
use view::explain::explain;
use view::show::show;
use words::say;

fn say_asked(host: Host<'_>, form: &[u8], names: &[u8], asked: Option<u32>) -> u8 {
    match asked {
        None => {
            show(host.out(), names, form);
            DONE
        }
        Some(place) => {
            if explain(host.out(), names, form, place) {
                DONE
            } else {
                NO
            }
        }
    }
}

// What is asked of a file that the resolver refuses: first what it is.
fn say_of_refused(
    host: Host<'_>,
    form: &[u8],
    names: &[u8],
    asked: Option<u32>,
    refusal: Refusal,
) -> u8 {
    match what_is(refusal.number, is_resolved(form)) {
        Known::NoForm => {
            say_refused(host.out(), form, refusal);
            NO
        }
        Known::Whole => say_asked(host, form, names, asked),
        Known::Resolved => {
            say_resolved(host.out(), form);
            say_asked(host, form, names, asked)
        }
        Known::Broken => {
            say_refused(host.out(), form, refusal);
            say_asked(host, form, names, asked);
            NO
        }
    }
}

fn say_of_form(host: Host<'_>, form: &[u8], names: &[u8], asked: Option<u32>) -> u8 {
    let mut buffer = io::large_buffer();
    match resolve(form, &mut buffer) {
        Ok(_) => say_asked(host, form, names, asked),
        Err(Refused { refusal, .. }) => say_of_refused(host, form, names, asked, refusal),
    }
}

// The same as objects of JSON.
fn tell_of_form(host: Host<'_>, form: &[u8], names: &[u8], asked: Option<u32>) -> u8 {
    let mut buffer = io::large_buffer();
    match resolve(form, &mut buffer) {
        Ok(_) => tell(host, form, names, asked, 0, 0),
        Err(Refused { refusal, .. }) => tell(
            host,
            form,
            names,
            asked,
            refusal.number,
            refusal.place,
        ),
    }
}

fn answer(host: Host<'_>, form: &[u8], names: &[u8], asked: Option<u32>, is_json: bool) -> u8 {
    let before = error_noted(host);
    if is_json {
        said(host, tell_of_form(host, form, names, asked), before)
    } else {
        said(host, say_of_form(host, form, names, asked), before)
    }
}

// Says of the form in a file what is asked.
fn say_of_path(host: Host<'_>, path: &[u8], names: &[u8], asked: Option<u32>, is_json: bool) -> u8 {
    let mut buffer = io::large_buffer();
    let Some(length) = load(host, path, &mut buffer) else {
        return FAILED;
    };
    answer(host, part(&buffer, length), names, asked, is_json)
}

// Says it of the form in the argument behind the options.
fn say_with(host: Host<'_>, options: Options, asked: Option<u32>) -> u8 {
    let mut names = io::large_buffer();
    let mut path = io::buffer();
    let Some(count) = load_names(host, options, &mut names) else {
        return FAILED;
    };
    let length = arg(host, behind(options.first, 1), &mut path);
    say_of_path(
        host,
        &path[..length],
        part(&names, count),
        asked,
        has(options.set, JSON),
    )
}

fn show_with(host: Host<'_>, options: Options) -> u8 {
    if !has_words(host, options.first, 2) {
        wrong_count(host, b"wnt show [--names FILE] [--json] FORM");
        return FAILED;
    }
    say_with(host, options, None)
}

fn run_show(host: Host<'_>, first: u8) -> u8 {
    let Some(given) = read_options(host, first, NAMES | JSON) else {
        return FAILED;
    };
    show_with(host, given)
}

fn place_in(host: Host<'_>, i: usize) -> Option<u32> {
    let mut text = [0u8; 16];
    let length = arg(host, i, &mut text);
    number_in(&text[..length])
}

fn explain_with(host: Host<'_>, options: Options) -> u8 {
    if !has_words(host, options.first, 3) {
        wrong_count(host, b"wnt explain [--names FILE] [--json] FORM PLACE");
        return FAILED;
    }
    match place_in(host, behind(options.first, 2)) {
        Some(place) => say_with(host, options, Some(place)),
        None => {
            say(host.err(), b"A place is a number from 0 to 4294967295.\n");
            FAILED
        }
    }
}

fn run_explain(host: Host<'_>, first: u8) -> u8 {
    let Some(given) = read_options(host, first, NAMES | JSON) else {
        return FAILED;
    };
    explain_with(host, given)
}

pub fn show_command(host: Host<'_>, task: Task, first: u8) -> u8 {
    match task {
        Task::Run => run_show(host, first),
        Task::Help => say_topic(
            host,
            b"show [--names FILE] [--json] FORM",
            b"Prints a form, an input or a resolved one, a row a line, and what each reference means. Of\nwhat is no form it says so, and shows the rows that are there. With --names the words of FILE\nstand for names; with --json each line is an object.\n",
            b"shown",
            b"it is no form",
            b"show driver.wnt",
        ),
    }
}

pub fn explain_command(host: Host<'_>, task: Task, first: u8) -> u8 {
    match task {
        Task::Run => run_explain(host, first),
        Task::Help => say_topic(
            host,
            b"explain [--names FILE] [--json] FORM PLACE",
            b"Says which declaration the references with that place mean. PLACE is a number from 0 to\n4294967295, the last part of their rows. With --names the words of FILE stand for names; with\n--json each line is an object.\n",
            b"explained",
            b"no reference has that place, or it is no form",
            b"explain driver.wnt 70",
        ),
    }
}
