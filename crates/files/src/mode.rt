// What kind of file is open, and who may use it.
ghost use Rattle.std.specs.Prelude.{◌≡◌, ◌<◌, ◌%◌};
ghost use Rattle.files.specs.Modes.{is_regular};

use std::fs::{File, Metadata};
use std::os::unix::fs::MetadataExt;

// Where in a mode the kind of file begins, and how far who may read, write and run it reaches.
const KIND: u32 = 0o10000;

const RIGHTS: u32 = 0o1000;

// The kind of a regular file.
const REGULAR: u32 = 0o100000;

fn mode_in(found: &Metadata) -> u32
    ensures { result < 4294967296 }
{
    found.mode()
}

// The mode of an open file, or 0, which is that of no file, if the system does not tell.
pub(crate) fn mode_of(file: &File) -> u32 {
    match file.metadata() {
        Ok(found) => mode_in(&found),
        Err(_) => 0,
    }
}

// Whether a mode is that of a regular file.
pub(crate) fn is_regular(mode: u32) -> bool
    ensures { result ≡ is_regular mode }
{
    mode / KIND == REGULAR / KIND
}

// Of a mode, who may read, write and run the file.
pub(crate) fn rights(mode: u32) -> u32
    ensures { result ≡ mode % 512 }
{
    mode % RIGHTS
}
