// What is wrong with a line of a text.
use text::lines::Why;
use words::{Talk, say};

fn say_large(fd: Talk<'_>, part: &[u8], most: &[u8]) {
    say(fd, part);
    say(fd, b" is too large: it is at most ");
    say(fd, most);
}

// In words, as the end of a sentence.
pub(crate) fn say_why(fd: Talk<'_>, why: Why) {
    match why {
        Why::NoRow => say(
            fd,
            b"this is no row, [code b e x y z] with six numbers, and no comment, which begins with #",
        ),
        Why::Second => say(
            fd,
            b"a row stands alone in its line: there is a second [ behind it",
        ),
        Why::LargeCode => say_large(fd, b"code", b"255"),
        Why::LargeB => say_large(fd, b"b", b"255"),
        Why::LargeE => say_large(fd, b"e", b"65535"),
        Why::LargeX => say_large(fd, b"x", b"4294967295"),
        Why::LargeY => say_large(fd, b"y", b"4294967295"),
        Why::LargeZ => say_large(fd, b"z", b"4294967295"),
        Why::Many => say(fd, b"this row is one too many: a form has at most 4092"),
        Why::Empty => say(fd, b"the text ends here, and it has no row"),
    }
}
