// The command batch: a prelude, and members that are resolved inside its root, each into a file of its own.
use check::same;
use command::arguments::{behind, has_words, wrong_count};
use command::forms::{part, talk_beside};
use command::status::{DONE, FAILED, NO, said, worse};
use command::topic::{Task, say_topic};
use files::host::{Host, arg, arg_count};
use files::read::load;
use files::standard::error_noted;
use files::write::save;
use fixed::bytes_of;
use inside::run::resolve_inside;
use known::file::say_told;
use member::rows_of;
use refusal::{Refusal, Refused, Told};
use resolver::run::resolve;
use view::accepted::say_accepted;
use words::{Talk, say};

// The most members of a batch.
const MOST: u8 = 8;

// ---- one form

fn say_name(talk: Talk<'_>, name: &[u8]) {
    say(talk, name);
    say(talk, b": ");
}

fn save_named(host: Host<'_>, form: &[u8], name: &[u8], path: &[u8]) -> u8 {
    if save(host, path, form) {
        let before = error_noted(host);
        let talk = host.to(talk_beside(path));
        say_name(talk, name);
        say_accepted(talk, form);
        said(host, DONE, before)
    } else {
        FAILED
    }
}

fn refuse_named(
    host: Host<'_>,
    form: &[u8],
    name: &[u8],
    path: &[u8],
    refusal: Refusal,
    told: Told,
) -> u8 {
    let before = error_noted(host);
    let talk = host.to(talk_beside(path));
    say_name(talk, name);
    say_told(talk, form, refusal, told);
    said(host, NO, before)
}

// ---- the members

// Resolves a member inside the root whose rows are given. The buffer has room for every member.
fn resolve_member(host: Host<'_>, root: &[u8], form: &[u8], name: &[u8], path: &[u8]) -> u8 {
    let mut buffer = io::large_buffer();
    match resolve_inside(root, form, &mut buffer) {
        Ok(rows) => save_named(host, part(&buffer, bytes_of(rows)), name, path),
        Err(Refused { refusal, told }) => refuse_named(host, form, name, path, refusal, told),
    }
}

fn member_paths(host: Host<'_>, root: &[u8], name: &[u8], path: &[u8]) -> u8 {
    let mut buffer = io::large_buffer();
    let Some(length) = load(host, name, &mut buffer) else {
        return FAILED;
    };
    resolve_member(host, root, part(&buffer, length), name, path)
}

// The member whose two words begin with the argument that is `i` behind the first.
fn member_words(host: Host<'_>, root: &[u8], first: u8, i: u8) -> u8 {
    let mut name = io::buffer();
    let name_length = arg(host, behind(first, i), &mut name);
    let mut path = io::buffer();
    let path_length = arg(host, behind(first, i) + 1, &mut path);
    member_paths(host, root, &name[..name_length], &path[..path_length])
}

// Resolves each member, and answers the worst of what they came to.
fn each_member(host: Host<'_>, root: &[u8], first: u8) -> u8 {
    let count = arg_count(host);
    let mut status = DONE;
    for i in 0..MOST {
        let at = 3 + 2 * i;
        if count <= behind(first, at) {
            return status;
        }
        status = worse(status, member_words(host, root, first, at));
    }
    status
}

// ---- the prelude

// Writes the resolved prelude, which has this many rows, and then the members; none of them if that could not be done.
fn with_members(
    host: Host<'_>,
    resolved: &[u8; 65536],
    rows: u32,
    name: &[u8],
    path: &[u8],
    first: u8,
) -> u8 {
    let status = save_named(host, part(resolved, bytes_of(rows)), name, path);
    if status == FAILED {
        return FAILED;
    }
    each_member(host, rows_of(resolved, 0, rows), first)
}

fn batch_form(host: Host<'_>, form: &[u8], name: &[u8], path: &[u8], first: u8) -> u8 {
    let mut buffer = io::large_buffer();
    match resolve(form, &mut buffer) {
        Ok(rows) => with_members(host, &buffer, rows, name, path, first),
        Err(Refused { refusal, told }) => refuse_named(host, form, name, path, refusal, told),
    }
}

fn batch_paths(host: Host<'_>, name: &[u8], path: &[u8], first: u8) -> u8 {
    let mut buffer = io::large_buffer();
    let Some(length) = load(host, name, &mut buffer) else {
        return FAILED;
    };
    batch_form(host, part(&buffer, length), name, path, first)
}

// ---- the arguments

fn is_same(host: Host<'_>, i: usize, j: usize) -> bool {
    let mut one = io::buffer();
    let one_length = arg(host, i, &mut one);
    let mut other = io::buffer();
    let other_length = arg(host, j, &mut other);
    same(&one[..one_length], &other[..other_length])
}

// Whether the argument that is `i` behind the first stands once more behind itself.
fn is_again(host: Host<'_>, first: u8, i: u8) -> bool {
    let count = arg_count(host);
    let at = behind(first, i);
    for j in at + 1..count {
        if is_same(host, at, j) {
            return true;
        }
    }
    false
}

// Whether a file that is written would be read or written after that: each OUT is held to all words behind it.
fn is_spoilt(host: Host<'_>, first: u8) -> bool {
    for i in 0..=MOST {
        if is_again(host, first, 2 + 2 * i) {
            return true;
        }
    }
    false
}

// Whether there are as many words as a prelude and 1 to 8 members need, two each.
fn are_pairs(host: Host<'_>, first: u8) -> bool {
    for i in 0..MOST {
        if has_words(host, first, 5 + 2 * i) {
            return true;
        }
    }
    false
}

fn run_batch(host: Host<'_>, first: u8) -> u8 {
    if !are_pairs(host, first) {
        wrong_count(host, b"wnt batch PRELUDE OUT MEMBER OUT ..");
        return FAILED;
    }
    if is_spoilt(host, first) {
        say(
            host.err(),
            b"An OUT is given once more behind itself, and what is written there would be lost.\n",
        );
        return FAILED;
    }
    let mut name = io::buffer();
    let name_length = arg(host, behind(first, 1), &mut name);
    let mut path = io::buffer();
    let path_length = arg(host, behind(first, 2), &mut path);
    batch_paths(host, &name[..name_length], &path[..path_length], first)
}

pub fn batch_command(host: Host<'_>, task: Task, first: u8) -> u8 {
    match task {
        Task::Run => run_batch(host, first),
        Task::Help => say_topic(
            host,
            b"batch PRELUDE OUT MEMBER OUT ..",
            b"Resolves the form PRELUDE, and up to 8 members each as if its root lay inside the resolved\nprelude's root, and writes each to its OUT, a file whole or not at all. It says of each whether\nit is accepted or refused. What a member comes to does not depend on the others: one that is\nrefused is not written, and they are. If the prelude is refused, nothing is written. No OUT may\nbe given again as a later IN or OUT.\n",
            b"all are accepted, and written",
            b"the prelude or a member is refused",
            b"batch decoders.wnt resolved.wnt one.wnt one-out.wnt two.wnt two-out.wnt",
        ),
    }
}
