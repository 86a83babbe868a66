// What wnt says of itself: its commands, its version, and that a word is not one of its commands.
#![tactic(auto)]

use command::status::{DONE, said};
use files::host::Host;
use files::standard::error_noted;
use words::{Talk, say};

// The commands that look at one form, and the one that resolves it.
fn say_of_one(talk: Talk<'_>) {
    say(
        talk,
        b"  wnt resolve IN OUT      resolve the form IN, and write OUT whole or not at all\n",
    );
    say(
        talk,
        b"  wnt check FORM..        say of each form whether it is accepted; write nothing\n",
    );
    say(
        talk,
        b"  wnt show FORM           print a form, a row a line, and what each reference means\n",
    );
    say(
        talk,
        b"  wnt draw FORM           write a picture of a form, with an arc from each reference to what it means\n",
    );
    say(
        talk,
        b"  wnt explain FORM PLACE  say which declaration the references with that place mean\n",
    );
    say(
        talk,
        b"  wnt moved FORM          say which written numbers mean another declaration once it is resolved\n",
    );
}

// Those that hold one against another.
fn say_of_two(talk: Talk<'_>) {
    say(
        talk,
        b"  wnt sheet FORM RESOLVED SHEET\n                          say what each slot of a binding sheet is bound to\n",
    );
    say(
        talk,
        b"  wnt diff LEFT RIGHT     say what differs between two forms\n",
    );
    say(
        talk,
        b"  wnt verify FORM CLAIM   say whether another assembler's output is one of the form, or why not\n",
    );
}

// Those that write one.
fn say_writing(talk: Talk<'_>) {
    say(
        talk,
        b"  wnt convert FORM VERSION OUT\n                          write the form to OUT as one of version 1 or 2\n",
    );
    say(
        talk,
        b"  wnt anonymise FORM OUT  write the form to OUT with 1, 2, 3, .. for its names; print the key\n",
    );
    say(
        talk,
        b"  wnt mend IN OUT         mend a spoilt form, write OUT whole or not at all, and say each change\n",
    );
    say(
        talk,
        b"  wnt unresolve RESOLVED OUT  write to OUT an input whose resolved form RESOLVED is\n",
    );
    say(
        talk,
        b"  wnt batch PRELUDE OUT MEMBER OUT ..\n                          resolve a prelude, and up to 8 members each inside its root\n",
    );
    say(
        talk,
        b"  wnt rows FORM           print the rows of a form as a text that can be edited\n",
    );
    say(
        talk,
        b"  wnt form TEXT OUT       turn such a text into the form, and write OUT whole or not at all\n",
    );
}

// What tells of the program itself.
fn say_telling(talk: Talk<'_>) {
    say(talk, b"  wnt help                print this\n");
    say(
        talk,
        b"  wnt help COMMAND        say what a command does, with an example\n",
    );
    say(talk, b"  wnt --version           print the version\n\n");
}

fn say_commands(talk: Talk<'_>) {
    say_of_one(talk);
    say_of_two(talk);
    say_writing(talk);
    say_telling(talk);
}

// The whole help.
fn help(talk: Talk<'_>) {
    say(
        talk,
        b"wnt turns the names of a WebAssembly component into index numbers.\n\n",
    );
    say_commands(talk);
    say(
        talk,
        b"A form is a file of rows, as it is written or as it was resolved.\n",
    );
    say(
        talk,
        b"Options stand behind the command: --names FILE and --json for show, explain, moved, sheet, diff\nand verify, --names FILE for draw, --json for check, --places and --fresh for diff, --shared for\nresolve. wnt help COMMAND says more.\n",
    );
    say(
        talk,
        b"For a file, - stands for standard input or output.\n",
    );
    say(
        talk,
        b"Answers go to standard output, errors to standard error.\n",
    );
    say(
        talk,
        b"The exit status is 0 for accepted or done, 1 for refused or a no, 2 for what could not be done.\n",
    );
}

pub fn say_version(host: Host<'_>) -> u8 {
    let before = error_noted(host);
    say(host.out(), b"wnt 0.2.0\n");
    said(host, DONE, before)
}

// Where the first word is no command, or there is none.
pub fn no_command(host: Host<'_>, word: &[u8]) {
    if word.len() == 0 {
        help(host.err());
    } else {
        say(host.err(), word);
        say(
            host.err(),
            b" is no command of wnt: wnt help prints those that are\n",
        );
    }
}

pub fn say_help(host: Host<'_>) -> u8 {
    let before = error_noted(host);
    help(host.out());
    said(host, DONE, before)
}
