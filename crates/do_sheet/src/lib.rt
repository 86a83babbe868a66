// The command sheet: what each slot of a binding sheet is bound to, in words.
#![tactic(auto)]

mod answers;
mod told;

use answers::say_slots;
use command::arguments::{behind, has_words, wrong_count};
use command::forms::part;
use command::status::{DONE, FAILED, NO, said};
use command::topic::{Task, say_topic};
use files::host::{Host, arg};
use files::read::load;
use files::standard::error_noted;
use known::file::say_told;
use options::given::{JSON, NAMES, Options, has, read_options};
use options::names::load_names;
use refusal::Refused;
use resolver::run::resolve;
use sheet::check;
use slots::{SLOT, is_sound};
use told::{tell_slots, tell_whole};
use words::{say, say_number};

// The refusal of what is not a sheet, or not one of these forms.
const NO_SHEET: u32 = 15;

// The last line: whether all slots are bound as written.
fn say_verdict(host: Host<'_>, failing: usize, count: usize) -> u8 {
    if failing == 0 {
        say(host.out(), b"passes\n");
        return DONE;
    }
    say(host.out(), b"fails: ");
    say_number(host.out(), (failing % 65536) as u32);
    say(host.out(), b" of ");
    say_number(host.out(), (count % 65536) as u32);
    say(host.out(), b" slots\n");
    NO
}

// Refusal 15 by what it is of: the sheet, the form, or what is given for its resolved form.
fn say_why(host: Host<'_>, form: &[u8], sheet: &[u8]) {
    if !is_sound(sheet) {
        say(
            host.out(),
            b"refused 15: this is no sheet: it has at most 200 slots of 12 bytes, and no name in it is 0\n",
        );
        return;
    }
    let mut out = io::large_buffer();
    match resolve(form, &mut out) {
        Ok(_) => say(
            host.out(),
            b"refused 15: the second form is not what wnt resolve writes for the first\n",
        ),
        Err(Refused { refusal, told }) => say_told(host.out(), form, refusal, told),
    }
}

fn tell_refusal(host: Host<'_>, number: u32, place: u32) {
    tell_whole(host, b"{\"answer\":\"refused\"", 0, 0, number, place);
}

// The same as an object of JSON: 15, or the refusal of the form.
fn tell_why(host: Host<'_>, form: &[u8], sheet: &[u8]) {
    if !is_sound(sheet) {
        tell_refusal(host, NO_SHEET, 0);
        return;
    }
    let mut out = io::large_buffer();
    match resolve(form, &mut out) {
        Ok(_) => tell_refusal(host, NO_SHEET, 0),
        Err(Refused { refusal, .. }) => tell_refusal(host, refusal.number, refusal.place),
    }
}

fn refuse(host: Host<'_>, form: &[u8], sheet: &[u8], is_json: bool) -> u8 {
    if is_json {
        tell_why(host, form, sheet);
    } else {
        say_why(host, form, sheet);
    }
    NO
}

fn tell_answered(
    host: Host<'_>,
    names: &[u8],
    resolved: &[u8],
    sheet: &[u8],
    answers: &[u8],
    failing: usize,
) -> u8 {
    let count = sheet.len() / SLOT;
    if failing == 0 {
        tell_whole(host, b"{\"answer\":\"passes\"", count, failing, 0, 0);
        tell_slots(host, names, resolved, sheet, answers, count);
        DONE
    } else {
        tell_whole(host, b"{\"answer\":\"fails\"", count, failing, 0, 0);
        tell_slots(host, names, resolved, sheet, answers, count);
        NO
    }
}

fn say_answered(
    host: Host<'_>,
    names: &[u8],
    resolved: &[u8],
    sheet: &[u8],
    answers: &[u8],
    failing: usize,
) -> u8 {
    let count = sheet.len() / SLOT;
    say_slots(host.out(), names, resolved, sheet, answers, count);
    say_verdict(host, failing, count)
}

// The answers have room for every sheet, and the working area is large enough.
fn say_of_forms(
    host: Host<'_>,
    names: &[u8],
    form: &[u8],
    resolved: &[u8],
    sheet: &[u8],
    is_json: bool,
) -> u8 {
    let mut answers = [0u8; 1600];
    let mut work = io::large_buffer();
    match check(form, resolved, sheet, &mut answers, &mut work) {
        Ok(failing) => {
            if is_json {
                tell_answered(host, names, resolved, sheet, &answers, failing)
            } else {
                say_answered(host, names, resolved, sheet, &answers, failing)
            }
        }
        Err(_) => refuse(host, form, sheet, is_json),
    }
}

fn say_with_sheet(
    host: Host<'_>,
    names: &[u8],
    form: &[u8],
    resolved: &[u8],
    path: &[u8],
    is_json: bool,
) -> u8 {
    let mut buffer = io::large_buffer();
    let Some(length) = load(host, path, &mut buffer) else {
        return FAILED;
    };
    let before = error_noted(host);
    said(
        host,
        say_of_forms(host, names, form, resolved, part(&buffer, length), is_json),
        before,
    )
}

fn say_with_resolved(
    host: Host<'_>,
    names: &[u8],
    form: &[u8],
    path: &[u8],
    sheet: &[u8],
    is_json: bool,
) -> u8 {
    let mut buffer = io::large_buffer();
    let Some(length) = load(host, path, &mut buffer) else {
        return FAILED;
    };
    say_with_sheet(host, names, form, part(&buffer, length), sheet, is_json)
}

fn say_of_paths(
    host: Host<'_>,
    names: &[u8],
    form: &[u8],
    resolved: &[u8],
    sheet: &[u8],
    is_json: bool,
) -> u8 {
    let mut buffer = io::large_buffer();
    let Some(length) = load(host, form, &mut buffer) else {
        return FAILED;
    };
    say_with_resolved(host, names, part(&buffer, length), resolved, sheet, is_json)
}

// Of the files in the arguments behind the options, with these names.
fn say_called(host: Host<'_>, options: Options, names: &[u8]) -> u8 {
    let mut form = io::buffer();
    let form_length = arg(host, behind(options.first, 1), &mut form);
    let mut resolved = io::buffer();
    let resolved_length = arg(host, behind(options.first, 2), &mut resolved);
    let mut sheet = io::buffer();
    let sheet_length = arg(host, behind(options.first, 3), &mut sheet);
    say_of_paths(
        host,
        names,
        &form[..form_length],
        &resolved[..resolved_length],
        &sheet[..sheet_length],
        has(options.set, JSON),
    )
}

fn sheet_with(host: Host<'_>, options: Options) -> u8 {
    if !has_words(host, options.first, 4) {
        wrong_count(
            host,
            b"wnt sheet [--names FILE] [--json] FORM RESOLVED SHEET",
        );
        return FAILED;
    }
    let mut names = io::large_buffer();
    let Some(count) = load_names(host, options, &mut names) else {
        return FAILED;
    };
    say_called(host, options, part(&names, count))
}

fn run_sheet(host: Host<'_>, first: u8) -> u8 {
    let Some(given) = read_options(host, first, NAMES | JSON) else {
        return FAILED;
    };
    sheet_with(host, given)
}

pub fn sheet_command(host: Host<'_>, task: Task, first: u8) -> u8 {
    match task {
        Task::Run => run_sheet(host, first),
        Task::Help => say_topic(
            host,
            b"sheet [--names FILE] [--json] FORM RESOLVED SHEET",
            b"Holds a binding sheet against a form and its resolved form. A sheet has a slot for each\nbinding that matters: meter family, place of a reference, name of the declaration that it must\nmean. Prints a line for each slot, in order, then passes or fails. RESOLVED must be what wnt\nresolve writes for FORM; tools/sheet turns a sheet written as text into SHEET. With --names the\nwords of FILE stand for names; with --json each line is an object, and the first is the answer.\n",
            b"every slot is bound as written",
            b"a slot is not, or it is no sheet, or RESOLVED is not FORM's resolved form",
            b"sheet driver.wnt resolved.wnt driver.sheet",
        ),
    }
}
