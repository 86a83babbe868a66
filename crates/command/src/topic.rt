// What a command is asked for, and its help.
use crate::status::{DONE, said};
use files::host::Host;
use files::standard::error_noted;
use words::say;

// To be run on the program's arguments, or to say what it does.
#[derive(Clone, Copy)]
pub enum Task {
    Run,
    Help,
}

// Prints a command's help, the same for each command in the same order: the usage, what the command does, when the exit
// status is 0 and when 1, and an example. The man page is made of it.
pub fn say_topic(
    host: Host<'_>,
    usage: &[u8],
    what: &[u8],
    done: &[u8],
    no: &[u8],
    example: &[u8],
) -> u8 {
    let before = error_noted(host);
    say(host.out(), b"usage: wnt ");
    say(host.out(), usage);
    say(host.out(), b"\n\n");
    say(host.out(), what);
    say(host.out(), b"\nexit status 0: ");
    say(host.out(), done);
    say(host.out(), b"\nexit status 1: ");
    say(host.out(), no);
    say(
        host.out(),
        b"\nexit status 2: it could not be done, and standard error says why\n\nexample: wnt ",
    );
    say(host.out(), example);
    say(host.out(), b"\n");
    said(host, DONE, before)
}
