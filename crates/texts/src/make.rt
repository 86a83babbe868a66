// A form made of a text, or what is wrong with the text in words.
ghost use Rattle.std.specs.Prelude.{◌≡◌};
ghost use Rattle.kit.specs.Out.{◌&◌};
ghost use Rattle.text.specs.Text.{parsed};
ghost use Rattle.texts.specs.Made.{made};

use crate::wrong::say_why;
use text::lines::Why;
use text::{Wrong, parse};
use words::{Talk, say, say_long};

fn say_line(fd: Talk<'_>, path: &[u8], line: usize, why: Why) {
    say(fd, path);
    say(fd, b": line ");
    say_long(fd, line as u64);
    say(fd, b": ");
    say_why(fd, why);
    say(fd, b"\n");
}

// Makes the form that a text spells. The text's path is for the sentence.
pub fn make_form(fd: Talk<'_>, path: &[u8], text: &[u8], out: &mut [u8]) -> Option<u32>
    ensures { (result & out.new) ≡ made (parsed text.now out.old) }
{
    match parse(text, out) {
        Ok(rows) => Some(rows),
        Err(Wrong { line, why }) => {
            say_line(fd, path, line, why);
            None
        }
    }
}
