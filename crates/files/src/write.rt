// A file written: a regular one whole or not at all, a special one as it is.
use crate::errors::{say_failure, say_wrong, text_of};
use crate::host::Host;
use crate::links::follow;
use crate::mode::{is_regular, mode_of, rights};
use crate::path_parts::{copy, front, is_dash};
use crate::temporary::create_temp;
use std::fs;
use std::fs::{File, OpenOptions, Permissions};
use std::io::{Error, Print, Write};
use std::os::unix::fs::PermissionsExt;

// The mode of a file that was not there before: its owner may write it, and all may read it.
const NEW_MODE: u32 = 0o644;

// The system's number of the error that there is no file of a path.
const MISSING: i32 = 2;

// Puts the path's name into a buffer that has room for just that, with the six letters behind it which `create_temp` replaces.
fn name_beside(path: &[u8], name: &mut [u8]) {
    copy(path, name);
    let end = path.len();
    if end <= name.len() {
        copy(b".XXXXXX", &mut name[end..]);
    }
}

// Writes a new file to the disk, and answers whether all of it is there, or which of the calls failed last.
fn write_whole(mut file: File, mode: u32, bytes: &[u8]) -> std::io::Result<()> {
    let written = file.write_all(bytes);
    let permitted = file.set_permissions(Permissions::from_mode(mode));
    file.sync_all()?;
    permitted?;
    written
}

fn say_unwritten(host: Host<'_>, path: &[u8], error: Error) {
    say_failure(host, path, b" cannot be written and is as it was", error);
}

// Writes a new file, and gives it the path.
fn place(
    host: Host<'_>,
    file: File,
    name: &[u8],
    path: &[u8],
    mode: u32,
    bytes: &[u8],
) -> std::io::Result<()> {
    write_whole(file, mode, bytes)?;
    fs::rename(&host.rt, text_of(name)?, text_of(path)?)
}

fn remove(host: Host<'_>, name: &[u8]) -> std::io::Result<()> {
    fs::remove_file(&host.rt, text_of(name)?)
}

// Gives a new file, once it is whole, the path; otherwise removes it.
fn place_whole(
    host: Host<'_>,
    file: File,
    name: &[u8],
    path: &[u8],
    mode: u32,
    bytes: &[u8],
) -> bool {
    match place(host, file, name, path, mode, bytes) {
        Ok(()) => true,
        Err(error) => {
            say_unwritten(host, path, error);
            let _ = remove(host, name);
            false
        }
    }
}

// Makes the file under a name beside its path first.
fn save_beside(host: Host<'_>, name: &mut [u8], path: &[u8], mode: u32, bytes: &[u8]) -> bool {
    name_beside(path, name);
    match create_temp(host, name) {
        Ok(file) => place_whole(host, file, name, path, mode, bytes),
        Err(error) => {
            say_unwritten(host, path, error);
            false
        }
    }
}

// The same, in a buffer for that name.
fn save_in(host: Host<'_>, buffer: &mut [u8], path: &[u8], mode: u32, bytes: &[u8]) -> bool {
    let length = path.len() + 7;
    if buffer.len() < length {
        say_wrong(host, path, b" cannot be written: its name is too long");
        return false;
    }
    save_beside(host, &mut buffer[0..length], path, mode, bytes)
}

// Writes the regular file of a path that is no link, whole or not at all.
fn save_regular(host: Host<'_>, path: &[u8], mode: u32, bytes: &[u8]) -> bool {
    let mut buffer = io::buffer();
    save_in(host, &mut buffer, path, mode, bytes)
}

// The same at the end of the path's links.
fn save_linked(host: Host<'_>, path: &[u8], mode: u32, bytes: &[u8]) -> bool {
    let mut target = io::buffer();
    copy(path, &mut target);
    match follow(host, &mut target, path.len()) {
        Ok(Some(length)) => save_regular(host, front(&target, length), mode, bytes),
        Ok(None) => {
            say_wrong(
                host,
                path,
                b" cannot be written: its symbolic links lead to no path that is short enough",
            );
            false
        }
        Err(error) => {
            say_unwritten(host, path, error);
            false
        }
    }
}

// Writes to what is no regular file, and closes it.
fn write_special(host: Host<'_>, mut file: File, path: &[u8], bytes: &[u8]) -> bool {
    match file.write_all(bytes) {
        Ok(()) => true,
        Err(error) => {
            say_failure(host, path, b" cannot be written", error);
            false
        }
    }
}

// Writes the file that is open at a path.
fn save_over(host: Host<'_>, file: File, path: &[u8], bytes: &[u8]) -> bool {
    let mode = mode_of(&file);
    if is_regular(mode) {
        drop(file);
        save_linked(host, path, rights(mode), bytes)
    } else {
        write_special(host, file, path, bytes)
    }
}

fn open(host: Host<'_>, path: &[u8]) -> std::io::Result<File> {
    OpenOptions::new()
        .append(true)
        .open(&host.rt, text_of(path)?)
}

// Writes the file of a path that is a name.
fn save_named(host: Host<'_>, path: &[u8], bytes: &[u8]) -> bool {
    match open(host, path) {
        Ok(file) => save_over(host, file, path, bytes),
        Err(error) if error.raw_os_error() == Some(MISSING) => {
            save_linked(host, path, NEW_MODE, bytes)
        }
        Err(error) => {
            say_unwritten(host, path, error);
            false
        }
    }
}

// Writes to standard output.
fn write_out(host: Host<'_>, bytes: &[u8]) -> bool {
    match Print::write_all(&host.rt, bytes) {
        Ok(()) => true,
        Err(error) => {
            say_failure(host, b"standard output", b" cannot be written", error);
            false
        }
    }
}

// Writes bytes to a path, and answers whether they are written; if not, a sentence on standard error says why.
pub fn save(host: Host<'_>, path: &[u8], bytes: &[u8]) -> bool {
    if is_dash(path) {
        write_out(host, bytes)
    } else {
        save_named(host, path, bytes)
    }
}
