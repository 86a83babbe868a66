// A new file under a name that nothing else has.
use crate::errors::text_of;
use crate::host::Host;
use std::fs::{File, OpenOptions};
use std::io::{Error, ErrorKind};
use std::os::unix::fs::OpenOptionsExt;
use std::random::RandomSource;

// How many letters at a name's end are replaced, and by which.
const LETTERS: usize = 6;

const ALPHABET: &[u8; 62] = b"abcdefghijklmnopqrstuvwxyzABCDEFGHIJKLMNOPQRSTUVWXYZ0123456789";

// How many names are tried, as many as the C library tries, and the system's number of the error that each was taken.
const TRIES: u32 = 238328;

const TAKEN: i32 = 17;

// Its owner may read and write it, and nobody else.
const MODE: u32 = 0o600;

// Puts letters that cannot be foreseen at a name's end.
fn put_letters(host: Host<'_>, name: &mut [u8]) -> std::io::Result<()> {
    let mut letters = [0u8; LETTERS];
    host.rt.fill_bytes(&mut letters)?;
    for i in 0..LETTERS {
        if LETTERS <= name.len() {
            let at = name.len() - LETTERS + i;
            name[at] = ALPHABET[(letters[i] % 62) as usize];
        }
    }
    Ok(())
}

// Makes the file of a name.
fn create(host: Host<'_>, name: &[u8]) -> std::io::Result<File> {
    OpenOptions::new()
        .read(true)
        .write(true)
        .create_new(true)
        .mode(MODE)
        .open(&host.rt, text_of(name)?)
}

// Makes a new file, and puts the letters of its name at the end of `name`.
pub(crate) fn create_temp(host: Host<'_>, name: &mut [u8]) -> std::io::Result<File> {
    for _ in 0..TRIES {
        put_letters(host, name)?;
        match create(host, name) {
            Ok(file) => return Ok(file),
            Err(error) if error.kind() == ErrorKind::AlreadyExists => {}
            Err(error) => return Err(error),
        }
    }
    Err(Error::from_raw_os_error(TAKEN))
}
