// What the program may ask of the system: words, files and its arguments.
ghost use Rattle.std.specs.Prelude.{◌≤◌, length};

use std::cell::Cell;
use std::env::{Env, FillError};
use words::{STDERR_FILENO, STDOUT_FILENO, Talk};

// The system, and where the number of its error is noted if words cannot be written.
#[derive(Clone, Copy)]
pub struct Host<'a> {
    pub(crate) rt: HostRuntime,
    pub(crate) noted: &'a Cell<i32>,
}

impl<'a> Host<'a> {
    pub fn new(rt: HostRuntime, noted: &'a Cell<i32>) -> Host<'a> {
        Host { rt, noted }
    }

    // Words to standard output or error, by its number.
    pub fn to(self, fd: i32) -> Talk<'a> {
        Talk::new(self.rt.stdout(), self.rt.stderr(), fd, self.noted)
    }

    pub fn out(self) -> Talk<'a> {
        self.to(STDOUT_FILENO)
    }

    pub fn err(self) -> Talk<'a> {
        self.to(STDERR_FILENO)
    }
}

// Puts the program's argument at the start of a buffer, and answers its length, or 0 where it is missing or longer than the buffer.
pub fn arg(host: Host<'_>, i: usize, buffer: &mut [u8]) -> usize
    ensures { result ≤ length buffer.new }
{
    host.rt.arg(i, buffer).unwrap_or(0)
}

fn is_there(host: Host<'_>, i: usize) -> bool {
    let mut probe = [0u8; 1];
    !matches!(host.rt.arg(i, &mut probe), Err(FillError::NotPresent))
}

// How many arguments the program was started with, its own name among them.
pub fn arg_count(host: Host<'_>) -> usize {
    for i in 0..usize::MAX {
        if !is_there(host, i) {
            return i;
        }
    }
    usize::MAX
}
