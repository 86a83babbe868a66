// A file read whole, if it is no longer than it may be.
ghost use Rattle.files.specs.Loaded.{Fits};

use crate::errors::{say_failure, say_wrong, text_of};
use crate::host::Host;
use crate::path_parts::is_dash;
use std::fs::File;
use std::io::Read;
use std::os::fd::AsRawFd;

// The most bytes that a form has: those of an output of 4,092 rows.
const LARGEST: usize = 65480;

// Whether all of a file was read: one more read finds nothing. io::read_full stops where a read fails, too.
fn is_at_end<F: Read>(file: &mut F) -> std::io::Result<bool> {
    let mut probe = [0u8; 1];
    Ok(file.read(&mut probe)? == 0)
}

// Why not all of a file was read; where no read failed the system has no reason.
fn unread<F: Read>(file: &mut F) -> Option<std::io::Error> {
    match is_at_end(file) {
        Ok(true) => None,
        Ok(false) => Some(std::io::Error::from_raw_os_error(0)),
        Err(error) => Some(error),
    }
}

fn read_whole<F: Read + AsRawFd>(
    host: Host<'_>,
    file: &mut F,
    path: &[u8],
    buffer: &mut [u8],
    most: usize,
    long: &[u8],
) -> Option<usize>
    ensures { Fits most result }
{
    let length = io::read_full(file.as_raw_fd(), buffer);
    if most < length {
        say_wrong(host, path, long);
        return None;
    }
    if let Some(error) = unread(file) {
        say_failure(host, path, b" cannot be read", error);
        return None;
    }
    Some(length)
}

fn open(host: Host<'_>, path: &[u8]) -> std::io::Result<File> {
    File::open(&host.rt, text_of(path)?)
}

// Reads the file of a path into a buffer, which has a byte more than the most that may be read; `long` says what is wrong with a longer file.
pub fn load_within(
    host: Host<'_>,
    path: &[u8],
    buffer: &mut [u8],
    most: usize,
    long: &[u8],
) -> Option<usize>
    ensures { Fits most result }
{
    if is_dash(path) {
        return read_whole(
            host,
            &mut host.rt.stdin(),
            b"standard input",
            buffer,
            most,
            long,
        );
    }
    match open(host, path) {
        Ok(mut file) => read_whole(host, &mut file, path, buffer, most, long),
        Err(error) => {
            say_failure(host, path, b" cannot be opened", error);
            None
        }
    }
}

// Reads a file that is no longer than a form can be.
pub fn load(host: Host<'_>, path: &[u8], form: &mut [u8; 65536]) -> Option<usize>
    ensures { Fits 65480 result }
{
    load_within(
        host,
        path,
        form,
        LARGEST,
        b" has more than the 65480 bytes of the longest form",
    )
}
