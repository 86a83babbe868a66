// Standard input, output and error.
use crate::host::Host;
use std::fs::File;
use std::io::Error;
use std::os::fd::{AsRawFd, IntoRawFd};

// What is noted as an error of words, from here on: a write that fails changes it, and none that succeeds does.
pub fn error_noted(host: Host<'_>) -> i32 {
    host.noted.set(0);
    host.noted.get()
}

// The error that was noted since then, or none.
pub fn error_since(host: Host<'_>, before: i32) -> Option<Error> {
    let noted = host.noted.get();
    if noted == before {
        None
    } else {
        Some(Error::from_raw_os_error(noted))
    }
}

// Opens a folder, and answers whether that took the place of a standard descriptor that was closed.
fn fills_gap(host: Host<'_>) -> bool {
    let Ok(file) = File::open(&host.rt, "/") else {
        return false;
    };
    let is_standard = file.as_raw_fd() < 3;
    if is_standard {
        file.into_raw_fd();
    }
    is_standard
}

// Sees to it that no file gets the number of a standard descriptor that is closed: what is said would go into it.
// A folder takes that number, which can be neither read nor written.
pub fn fill_gaps(host: Host<'_>) {
    if fills_gap(host) && fills_gap(host) {
        fills_gap(host);
    }
}
