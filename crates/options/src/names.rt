// The file of names that an option gives, read and looked through.
use crate::given::Options;
use files::host::{Host, arg};
use files::path_parts::front;
use files::read::load;
use name_file::wrong_line;
use words::{say, say_number};

fn say_wrong(host: Host<'_>, path: &[u8], line: u32) {
    say(host.err(), path);
    say(host.err(), b": line ");
    say_number(host.err(), line);
    say(
        host.err(),
        b": this is no name: a number, a blank and a word, and # before the number of an export name\n",
    );
}

// Reads the file of a path; a line of it that is wrong is a failure.
fn load_path(host: Host<'_>, path: &[u8], names: &mut [u8; 65536]) -> Option<usize> {
    let length = load(host, path, names)?;
    let Some(line) = wrong_line(front(names, length)) else {
        return Some(length);
    };
    say_wrong(host, path, line);
    None
}

// Reads the file of names that the options give; none is a file of no bytes.
pub fn load_names(host: Host<'_>, options: Options, names: &mut [u8; 65536]) -> Option<usize> {
    let Some(argument) = options.names else {
        return Some(0);
    };
    let mut path = io::buffer();
    let length = arg(host, argument as usize, &mut path);
    load_path(host, &path[..length], names)
}
