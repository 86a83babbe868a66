// Where a path leads along its symbolic links.
ghost use Rattle.std.specs.Prelude.{◌≡◌};
ghost use Rattle.files.specs.Paths.{folder_of, start_of};

use crate::errors::text_of;
use crate::host::Host;
use crate::path_parts::{copy, front};
use std::fs;
use std::path::PathBuf;

// The most links that are followed, as many as Linux follows.
const LINKS: u8 = 40;

// What one link came to, if it could be read: a path of this many bytes, or one that there is no room for, or that it was no link.
#[derive(Clone, Copy)]
enum Step {
    To(usize),
    TooLong,
    NoLink,
}

// How many bytes of a path name its folder, with the last slash.
fn folder_of(path: &[u8]) -> usize
    ensures { result ≡ folder_of path.now }
{
    let mut end = path.len();
    while 0 < end {
        if path[end - 1] == b'/' {
            return end;
        }
        end -= 1;
    }
    0
}

// Where the text of a link goes in the link's own path: it counts from the link's folder, or from the root if it begins there.
fn start_of(path: &[u8], text: &[u8]) -> usize
    ensures { result ≡ start_of path.now text.now }
{
    if text.len() == 0 {
        return folder_of(path);
    }
    if text[0] == b'/' { 0 } else { folder_of(path) }
}

fn put_text(path: &mut [u8], start: usize, text: &[u8]) -> Step {
    if path.len() <= start {
        return Step::TooLong;
    }
    if path.len() - start <= text.len() {
        return Step::TooLong;
    }
    copy(text, &mut path[start..]);
    Step::To(start + text.len())
}

// Puts a link's text into the link's path.
fn step_by(path: &mut [u8], length: usize, text: &[u8]) -> Step {
    let start = start_of(front(&path[..], length), text);
    put_text(path, start, text)
}

// The text of a link. It is copied to memory first, and has to be UTF-8.
fn read(host: Host<'_>, path: &[u8]) -> std::io::Result<PathBuf> {
    fs::read_link(&host.rt, text_of(path)?)
}

// Goes along one link. An error of the system says that it is none.
fn go_on(host: Host<'_>, path: &mut [u8], length: usize) -> std::io::Result<Step> {
    match read(host, front(&path[..], length)) {
        Ok(text) => Ok(step_by(path, length, text.as_str().as_bytes())),
        Err(error) if error.raw_os_error().is_some() => Ok(Step::NoLink),
        Err(error) => Err(error),
    }
}

// Follows the links from a path, whose bytes are at the start of a buffer, and leaves there the path to which they lead, which is
// no link. The answer is how many bytes it has; none where there is no room for it, or where there are too many links.
pub(crate) fn follow(
    host: Host<'_>,
    path: &mut [u8],
    length: usize,
) -> std::io::Result<Option<usize>> {
    let mut end = length;
    for _ in 0..LINKS {
        match go_on(host, path, end)? {
            Step::To(next) => end = next,
            Step::TooLong => return Ok(None),
            Step::NoLink => return Ok(Some(end)),
        }
    }
    Ok(None)
}
