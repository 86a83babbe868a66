// The commands rows and form: a form as a text that can be edited, and back.
use command::arguments::{behind, has_words, wrong_count};
use command::forms::{part, talk_beside};
use command::status::{DONE, FAILED, NO, said};
use command::topic::{Task, say_topic};
use files::host::{Host, arg};
use files::read::load;
use files::standard::error_noted;
use files::write::save;
use fixed::bytes_of;
use known::file::say_told;
use refusal::Refused;
use resolver::run::resolve;
use texts::load::{load_text, text_part};
use texts::make::make_form;
use texts::print::print;
use texts::whole::is_whole;
use words::{say, say_number};

// ---- rows

// Says why bytes have no whole rows: such bytes are refused by their header or their length.
fn refuse_rows(host: Host<'_>, form: &[u8]) -> u8 {
    let mut buffer = io::large_buffer();
    match resolve(form, &mut buffer) {
        Ok(_) => DONE,
        Err(Refused { refusal, told }) => {
            say_told(host.out(), form, refusal, told);
            NO
        }
    }
}

fn print_form(host: Host<'_>, form: &[u8]) -> u8 {
    if is_whole(form) {
        print(host.out(), form);
        DONE
    } else {
        refuse_rows(host, form)
    }
}

// Prints the rows of the form in a file.
fn rows_path(host: Host<'_>, path: &[u8]) -> u8 {
    let mut buffer = io::large_buffer();
    let Some(length) = load(host, path, &mut buffer) else {
        return FAILED;
    };
    let before = error_noted(host);
    said(host, print_form(host, part(&buffer, length)), before)
}

fn run_rows(host: Host<'_>, first: u8) -> u8 {
    if !has_words(host, first, 2) {
        wrong_count(host, b"wnt rows FORM");
        return FAILED;
    }
    let mut path = io::buffer();
    let length = arg(host, behind(first, 1), &mut path);
    rows_path(host, &path[..length])
}

pub fn rows_command(host: Host<'_>, task: Task, first: u8) -> u8 {
    match task {
        Task::Run => run_rows(host, first),
        Task::Help => say_topic(
            host,
            b"rows FORM",
            b"Prints the rows of a form, an input or a resolved one, as a text that can be edited: a line\na row, [code b e x y z], and behind it what the row says. wnt form turns the text into the\nsame bytes. A form that the resolver refuses is printed too, if its rows are whole.\n",
            b"printed",
            b"it is no form, or not all rows are there that its header says",
            b"rows driver.wnt",
        ),
    }
}

// ---- form

fn save_rows(host: Host<'_>, form: &[u8], rows: u32, path: &[u8]) -> u8 {
    if save(host, path, form) {
        let before = error_noted(host);
        let talk = host.to(talk_beside(path));
        say_number(talk, rows);
        say(talk, b" rows written\n");
        said(host, DONE, before)
    } else {
        FAILED
    }
}

fn form_text(host: Host<'_>, text: &[u8], from: &[u8], to: &[u8]) -> u8 {
    let mut buffer = io::large_buffer();
    let before = error_noted(host);
    match make_form(host.to(talk_beside(to)), from, text, &mut buffer) {
        Some(rows) => save_rows(host, part(&buffer, bytes_of(rows)), rows, to),
        None => said(host, NO, before),
    }
}

// Turns the text in a file into the form of another file.
fn form_paths(host: Host<'_>, from: &[u8], to: &[u8]) -> u8 {
    let mut buffer = [0u8; 524289];
    let Some(length) = load_text(host, from, &mut buffer) else {
        return FAILED;
    };
    form_text(host, text_part(&buffer, length), from, to)
}

fn run_form(host: Host<'_>, first: u8) -> u8 {
    if !has_words(host, first, 3) {
        wrong_count(host, b"wnt form TEXT OUT");
        return FAILED;
    }
    let mut from = io::buffer();
    let from_length = arg(host, behind(first, 1), &mut from);
    let mut to = io::buffer();
    let to_length = arg(host, behind(first, 2), &mut to);
    form_paths(host, &from[..from_length], &to[..to_length])
}

pub fn form_command(host: Host<'_>, task: Task, first: u8) -> u8 {
    match task {
        Task::Run => run_form(host, first),
        Task::Help => say_topic(
            host,
            b"form TEXT OUT",
            b"Turns a text of rows into a form and writes it to OUT, a file whole or not at all. A line is\na row, [code b e x y z] with six numbers, one blank between two, and behind it what you like\nbut another [; or a comment, which begins with #; or blank. Any other line is refused with\nits number, and nothing is written. Whether the resolver takes the form, wnt check says.\n",
            b"written",
            b"a line is wrong, or the text has no row",
            b"form driver.txt driver.wnt",
        ),
    }
}
