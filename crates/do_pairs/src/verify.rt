// The command verify: whether a claim is an output of a form, and why not.
mod paired;
mod reasons;

use crate::verify::reasons::say_no;
use claim_check::Verdict;
use claim_check::run::check;
use command::arguments::{behind, has_words, wrong_count};
use command::forms::part;
use command::status::{DONE, FAILED, NO, said};
use command::topic::{Task, say_topic};
use files::host::{Host, arg};
use files::read::load;
use files::standard::error_noted;
use json_parts::{say_count, say_null};
use known::file::say_told;
use names::Slot;
use options::given::{JSON, NAMES, Options, has, read_options};
use options::names::load_names;
use refusal::{Refusal, Refused};
use resolver::run::resolve;
use words::say;

// ---- as an object of JSON

fn tell(host: Host<'_>, answer: &[u8], condition: u32, row: u32) {
    say(host.out(), answer);
    if condition == 0 {
        say_null(host.out(), b",\"condition\":");
        say_null(host.out(), b",\"row\":");
    } else {
        say_count(host.out(), b",\"condition\":", condition);
        say_count(host.out(), b",\"row\":", row);
    }
}

fn tell_refusal(host: Host<'_>, number: u32, place: u32) {
    say_count(host.out(), b",\"number\":", number);
    say_count(host.out(), b",\"place\":", place);
    say(host.out(), b"}\n");
}

fn tell_verdict(host: Host<'_>, verdict: Result<Verdict, Refusal>) -> u8 {
    match verdict {
        Ok(Verdict::Yes) => {
            tell(host, b"{\"answer\":\"yes\"", 0, 0);
            tell_refusal(host, 0, 0);
            DONE
        }
        Ok(Verdict::No { condition, row }) => {
            tell(host, b"{\"answer\":\"no\"", condition as u32, row);
            tell_refusal(host, 0, 0);
            NO
        }
        Err(refusal) => {
            tell(host, b"{\"answer\":\"refused\"", 0, 0);
            tell_refusal(host, refusal.number, refusal.place);
            NO
        }
    }
}

// ---- in words

// The resolver says why the form is refused, and what it tells.
fn refuse(host: Host<'_>, form: &[u8]) -> u8 {
    let mut out = io::large_buffer();
    match resolve(form, &mut out) {
        Ok(_) => FAILED,
        Err(Refused { refusal, told }) => {
            say(host.out(), b"the form is refused, so it has no output: ");
            say_told(host.out(), form, refusal, told);
            NO
        }
    }
}

fn say_verdict(
    host: Host<'_>,
    names: &[u8],
    form: &[u8],
    claim: &[u8],
    verdict: Result<Verdict, Refusal>,
) -> u8 {
    match verdict {
        Ok(Verdict::Yes) => {
            say(host.out(), b"yes: the claim is an output of the form\n");
            DONE
        }
        Ok(Verdict::No { condition, row }) => {
            say_no(host.out(), names, form, claim, condition as u32, row);
            NO
        }
        Err(_) => refuse(host, form),
    }
}

// ---- the run

// The areas have the sizes of version 1.
fn verdict_on(form: &[u8], claim: &[u8]) -> Result<Verdict, Refusal> {
    let mut table: [Slot; 2046] = [[0u32; 6]; 2046];
    let mut index = [0u16; 3070];
    check(form, claim, &mut table, &mut index)
}

fn verify_forms(host: Host<'_>, names: &[u8], form: &[u8], claim: &[u8], is_json: bool) -> u8 {
    let before = error_noted(host);
    if is_json {
        said(host, tell_verdict(host, verdict_on(form, claim)), before)
    } else {
        said(
            host,
            say_verdict(host, names, form, claim, verdict_on(form, claim)),
            before,
        )
    }
}

fn verify_paths(
    host: Host<'_>,
    names: &[u8],
    form_path: &[u8],
    claim_path: &[u8],
    is_json: bool,
) -> u8 {
    let mut form = io::large_buffer();
    let mut claim = io::large_buffer();
    let Some(one) = load(host, form_path, &mut form) else {
        return FAILED;
    };
    let Some(other) = load(host, claim_path, &mut claim) else {
        return FAILED;
    };
    verify_forms(host, names, part(&form, one), part(&claim, other), is_json)
}

fn verify_named(host: Host<'_>, options: Options, names: &[u8]) -> u8 {
    let mut form = io::buffer();
    let form_length = arg(host, behind(options.first, 1), &mut form);
    let mut claim = io::buffer();
    let claim_length = arg(host, behind(options.first, 2), &mut claim);
    verify_paths(
        host,
        names,
        &form[..form_length],
        &claim[..claim_length],
        has(options.set, JSON),
    )
}

fn verify_with(host: Host<'_>, options: Options) -> u8 {
    if !has_words(host, options.first, 3) {
        wrong_count(host, b"wnt verify [--names FILE] [--json] FORM CLAIM");
        return FAILED;
    }
    let mut names = io::large_buffer();
    let Some(count) = load_names(host, options, &mut names) else {
        return FAILED;
    };
    verify_named(host, options, part(&names, count))
}

fn run_verify(host: Host<'_>, first: u8) -> u8 {
    let Some(given) = read_options(host, first, NAMES | JSON) else {
        return FAILED;
    };
    verify_with(host, given)
}

pub fn verify_command(host: Host<'_>, task: Task, first: u8) -> u8 {
    match task {
        Task::Run => run_verify(host, first),
        Task::Help => say_topic(
            host,
            b"verify [--names FILE] [--json] FORM CLAIM",
            b"Says whether CLAIM, which another assembler has made, is an output of the input FORM: its\nfields are there in order, what was added are aliases, and each name became a number that\nreaches what the name means. A no comes with the condition that is broken, the first row of\nCLAIM that breaks it, what stands there and what should. With --names the words of FILE stand\nfor names; with --json the answer is an object.\n",
            b"yes",
            b"no, or the form is refused",
            b"verify driver.wnt partners.wnt",
        ),
    }
}
