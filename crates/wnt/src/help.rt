// The command help.
use crate::commands::command_of;
use check::same;
use command::arguments::{behind, has_words, wrong_count};
use command::status::FAILED;
use command::topic::{Task, say_topic};
use files::host::{Host, arg};
use overview::say_help;

// The help of a command.
fn help_of(host: Host<'_>, word: &[u8]) -> u8 {
    if same(word, b"help") {
        say_topic(
            host,
            b"help [COMMAND]",
            b"Prints the commands, or what one command does.\n",
            b"printed",
            b"never",
            b"help resolve",
        )
    } else {
        command_of(host, word, Task::Help, 0)
    }
}

// The command help: of itself, or of the command that the argument behind it names.
pub(crate) fn help_command(host: Host<'_>, first: u8) -> u8 {
    if has_words(host, first, 1) {
        return say_help(host);
    }
    if !has_words(host, first, 2) {
        wrong_count(host, b"wnt help [COMMAND]");
        return FAILED;
    }
    let mut word = io::buffer();
    let length = arg(host, behind(first, 1), &mut word);
    help_of(host, &word[..length])
}
