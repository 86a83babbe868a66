// The program's arguments, from the one at `first` on, which is the command's name.
ghost use Rattle.std.specs.Prelude.{◌≡◌, ◌+◌};

use files::host::{Host, arg_count};
use words::say;

// The number of an argument that is `i` behind the first.
pub fn behind(first: u8, i: u8) -> usize
    ensures { result ≡ first + i }
{
    (first as usize) + (i as usize)
}

// Whether there are this many arguments from the command's name on.
pub fn has_words(host: Host<'_>, first: u8, count: u8) -> bool {
    arg_count(host) == behind(first, count)
}

// A command that was given too many or too few arguments.
pub fn wrong_count(host: Host<'_>, usage: &[u8]) {
    say(
        host.err(),
        b"That is not the number of arguments that this command takes. Its usage is: ",
    );
    say(host.err(), usage);
    say(host.err(), b"\n");
}
