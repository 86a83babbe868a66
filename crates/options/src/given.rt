// The options of a command: words that begin with two dashes and stand between its name and its other words.
ghost use Rattle.std.specs.Prelude.{◌≡◌};
ghost use Rattle.options.specs.Given.{is_in};

use check::same;
use files::host::{Host, arg};
use words::say;

// An option, as a bit of those that a command takes.
pub const PLACES: u8 = 1;

pub const FRESH: u8 = 2;

pub const NAMES: u8 = 4;

pub const JSON: u8 = 8;

pub const SHARED: u8 = 16;

// The options that are given.
#[derive(Clone, Copy)]
pub struct Options {
    pub set: u8,
    // The argument that is the path of a file of names.
    pub names: Option<u8>,
    // The argument behind which the command's other words stand.
    pub first: u8,
}

// The next argument was an option; there is none; or it is wrong.
#[derive(Clone, Copy)]
enum Turn {
    More(Options),
    Done,
    Wrong,
}

// Whether an option is in a set of them; 0 is no option.
pub fn has(set: u8, option: u8) -> bool
    ensures { result ≡ is_in set option }
{
    if option == 0 {
        return false;
    }
    set / option % 2 == 1
}

// The argument behind another.
fn after(argument: u8) -> u8 {
    if argument < 255 {
        argument + 1
    } else {
        argument
    }
}

fn begins_with_dashes(word: &[u8]) -> bool {
    if word.len() < 2 {
        return false;
    }
    (word[0] == b'-') & (word[1] == b'-')
}

// The option that a word is, if it is one.
fn option_of(word: &[u8]) -> Option<u8> {
    if same(word, b"--places") {
        Some(PLACES)
    } else if same(word, b"--fresh") {
        Some(FRESH)
    } else if same(word, b"--names") {
        Some(NAMES)
    } else if same(word, b"--json") {
        Some(JSON)
    } else if same(word, b"--shared") {
        Some(SHARED)
    } else {
        None
    }
}

// Behind --names stands a path.
fn with_option(options: Options, option: u8) -> Options {
    let next = after(options.first);
    if option == NAMES {
        Options {
            set: options.set | option,
            names: Some(after(next)),
            first: after(next),
        }
    } else {
        Options {
            set: options.set | option,
            names: options.names,
            first: next,
        }
    }
}

fn say_wrong(host: Host<'_>, word: &[u8]) {
    say(host.err(), word);
    say(
        host.err(),
        b" is no option of this command, or stands there twice\n",
    );
}

// By the word of the next argument. A command takes some of the options, each once.
fn by_word(host: Host<'_>, options: Options, takes: u8, word: &[u8]) -> Turn {
    if !begins_with_dashes(word) {
        return Turn::Done;
    }
    match option_of(word) {
        Some(option) if has(takes, option) & !has(options.set, option) => {
            Turn::More(with_option(options, option))
        }
        _ => {
            say_wrong(host, word);
            Turn::Wrong
        }
    }
}

fn by_next(host: Host<'_>, options: Options, takes: u8) -> Turn {
    let mut word = io::buffer();
    let length = arg(host, after(options.first) as usize, &mut word);
    by_word(host, options, takes, &word[..length])
}

// The options behind a command's name, which is the argument at `first`; `takes` are those that it takes.
pub fn read_options(host: Host<'_>, first: u8, takes: u8) -> Option<Options> {
    let mut given = Options {
        set: 0,
        names: None,
        first,
    };
    for _ in 0..16 {
        match by_next(host, given, takes) {
            Turn::More(more) => given = more,
            Turn::Done => return Some(given),
            Turn::Wrong => return None,
        }
    }
    None
}
