// The command draw: a picture of a form. Standard output has the picture and nothing else.
mod escape;

use crate::draw::escape::{ROOM, escape, escaped_part};
use command::arguments::{behind, has_words, wrong_count};
use command::forms::part;
use command::status::{DONE, FAILED, NO, said};
use command::topic::{Task, say_topic};
use drawing::whole::{begin_heading, draw, end, write_rows};
use files::host::{Host, arg};
use files::read::load;
use files::standard::error_noted;
use known::file::{Known, say_told, what_is};
use moved::run::moved as list_moved;
use options::given::{NAMES, Options, read_options};
use options::names::load_names;
use refusal::{Refusal, Refused, Told};
use resolver::run::resolve;
use view::accepted::{is_resolved, say_resolved};

// How wide a picture is at least: as the legend, or as a refusal in words.
const LEGEND: u32 = 740;

const REFUSAL: u32 = 1140;

// A form of which a refusal is the heading.
fn draw_refused(
    host: Host<'_>,
    names: &[u8],
    form: &[u8],
    shown: &[u8],
    refusal: Refusal,
    told: Told,
) {
    draw(host.out(), names, shown, b"", 0, REFUSAL);
    begin_heading(host.out());
    say_told(host.out(), form, refusal, told);
    end(host.out());
}

fn draw_resolved(host: Host<'_>, names: &[u8], form: &[u8]) {
    draw(host.out(), names, form, b"", 0, LEGEND);
    begin_heading(host.out());
    say_resolved(host.out(), form);
    end(host.out());
}

// By what a file is that the resolver refuses. Where that is no form, standard error has the refusal as well.
fn draw_known(host: Host<'_>, names: &[u8], form: &[u8], refusal: Refusal, told: Told) -> u8 {
    match what_is(refusal.number, is_resolved(form)) {
        Known::NoForm => {
            say_told(host.err(), form, refusal, told);
            draw_refused(host, names, form, b"", refusal, told);
            NO
        }
        Known::Whole => {
            draw_refused(host, names, form, form, refusal, told);
            DONE
        }
        Known::Resolved => {
            draw_resolved(host, names, form);
            DONE
        }
        Known::Broken => {
            say_told(host.err(), form, refusal, told);
            draw_refused(host, names, form, form, refusal, told);
            NO
        }
    }
}

fn draw_other(host: Host<'_>, names: &[u8], form: &[u8]) -> u8 {
    let mut out = io::large_buffer();
    match resolve(form, &mut out) {
        Ok(_) => FAILED,
        Err(Refused { refusal, told }) => draw_known(host, names, form, refusal, told),
    }
}

// The lists have room for every form that is not refused.
fn draw_form(host: Host<'_>, names: &[u8], form: &[u8]) -> u8 {
    let mut out = io::large_buffer();
    let mut moved = [0u8; 16384];
    let mut apart = [0u8; 12288];
    match list_moved(form, &mut out, &mut moved, &mut apart) {
        Ok(listed) => {
            draw(host.out(), names, form, &moved, listed.moved, LEGEND);
            begin_heading(host.out());
            write_rows(host.out(), form);
            end(host.out());
            DONE
        }
        Err(_) => draw_other(host, names, form),
    }
}

fn draw_path(host: Host<'_>, names: &[u8], path: &[u8]) -> u8 {
    let mut buffer = io::large_buffer();
    let Some(length) = load(host, path, &mut buffer) else {
        return FAILED;
    };
    let before = error_noted(host);
    said(host, draw_form(host, names, part(&buffer, length)), before)
}

// Draws the form of the argument behind the options, with these names.
fn draw_called(host: Host<'_>, options: Options, names: &[u8]) -> u8 {
    let mut path = io::buffer();
    let length = arg(host, behind(options.first, 1), &mut path);
    let mut escaped = [0u8; ROOM];
    let count = escape(names, &mut escaped);
    draw_path(host, escaped_part(&escaped, count), &path[..length])
}

fn draw_with(host: Host<'_>, options: Options) -> u8 {
    if !has_words(host, options.first, 2) {
        wrong_count(host, b"wnt draw [--names FILE] FORM");
        return FAILED;
    }
    let mut names = io::large_buffer();
    let Some(count) = load_names(host, options, &mut names) else {
        return FAILED;
    };
    draw_called(host, options, part(&names, count))
}

fn run_draw(host: Host<'_>, first: u8) -> u8 {
    let Some(given) = read_options(host, first, NAMES) else {
        return FAILED;
    };
    draw_with(host, given)
}

pub fn draw_command(host: Host<'_>, task: Task, first: u8) -> u8 {
    match task {
        Task::Run => run_draw(host, first),
        Task::Help => say_topic(
            host,
            b"draw [--names FILE] FORM",
            b"Writes a picture of a form to standard output, as SVG: scopes as boxes, declarations in them, an\narc from each reference to the declaration that it means, inserted fields on orange ground. Of an\ninput the numbers that wnt moved lists are red. Of what is no form it draws the rows that are\nthere, and the refusal stands above them and on standard error. With --names the words of FILE\nstand for names.\n",
            b"drawn",
            b"it is no form",
            b"draw driver.wnt",
        ),
    }
}
