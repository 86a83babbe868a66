// A file of names: each line gives the word for a name, `6 float-be`, or for an export name, `#1 float-be`. A number, one
// blank, and a word of bytes from 33 to 126; a line ends with LF, or with CR and LF, and an empty line says nothing.
#![tactic(auto)]

ghost use Rattle.std.specs.Prelude.{◌≡◌, true};
ghost use Rattle.name_file.specs.Names.{new_line, turned, is_digit, is_word_byte, longer, with_digit, at_start, in_number, in_word, behind_word, with_byte, is_sound, is_for, is_of, word_in, one_more, word_for, wrong_line};

// Where a line is: at its start, in its number, behind the blank, in its word, behind a CR; or it is wrong.
#[derive(Clone, Copy)]
enum At {
    Start,
    Number,
    Blank,
    Letters,
    Return,
    Wrong,
}

// What was read of a line: its word stands from `from` up to `to`.
#[derive(Clone, Copy)]
struct Line {
    at: At,
    exported: bool,
    number: u64,
    from: usize,
    to: usize,
}

// A word, as the part of the file that it is.
#[derive(Clone, Copy)]
pub struct Word {
    pub from: usize,
    pub to: usize,
}

fn new_line() -> Line
    ensures { result ≡ new_line }
{
    Line {
        at: At::Start,
        exported: false,
        number: 0,
        from: 0,
        to: 0,
    }
}

// The line with its next part.
fn turned(line: Line, at: At) -> Line
    ensures { result ≡ turned line at }
{
    Line {
        at,
        exported: line.exported,
        number: line.number,
        from: line.from,
        to: line.to,
    }
}

fn is_digit(byte: u8) -> bool
    ensures { result ≡ is_digit byte }
{
    (b'0' <= byte) & (byte <= b'9')
}

fn is_word_byte(byte: u8) -> bool
    ensures { result ≡ is_word_byte byte }
{
    (32 < byte) & (byte < 127)
}

// A number with a digit more; one that is too large stays so.
fn longer(number: u64, byte: u8) -> u64
    requires { is_digit byte ≡ true }
    ensures { result ≡ longer number byte }
{
    if number < 4294967296 {
        number * 10 + ((byte - b'0') as u64)
    } else {
        number
    }
}

fn with_digit(line: Line, byte: u8) -> Line
    ensures { result ≡ with_digit line byte }
{
    if is_digit(byte) {
        Line {
            at: At::Number,
            exported: line.exported,
            number: longer(line.number, byte),
            from: 0,
            to: 0,
        }
    } else {
        turned(line, At::Wrong)
    }
}

// At the start a `#` may stand, and then a digit must.
fn at_start(line: Line, byte: u8) -> Line
    ensures { result ≡ at_start line byte }
{
    if byte == b'\r' {
        return turned(line, At::Return);
    }
    if (byte == b'#') & !line.exported {
        return Line {
            at: At::Start,
            exported: true,
            number: 0,
            from: 0,
            to: 0,
        };
    }
    with_digit(line, byte)
}

fn in_number(line: Line, byte: u8) -> Line
    ensures { result ≡ in_number line byte }
{
    if byte == b' ' {
        if line.number < 4294967296 {
            turned(line, At::Blank)
        } else {
            turned(line, At::Wrong)
        }
    } else {
        with_digit(line, byte)
    }
}

// A byte of the word, whose first is at `from`; the next byte is at `to`.
fn in_word(line: Line, byte: u8, from: usize, to: usize) -> Line
    ensures { result ≡ in_word line byte from to }
{
    if is_word_byte(byte) {
        Line {
            at: At::Letters,
            exported: line.exported,
            number: line.number,
            from,
            to,
        }
    } else {
        turned(line, At::Wrong)
    }
}

// Behind the word a CR may stand.
fn behind_word(line: Line, byte: u8, to: usize) -> Line
    ensures { result ≡ behind_word line byte to }
{
    if byte == b'\r' {
        turned(line, At::Return)
    } else {
        in_word(line, byte, line.from, to)
    }
}

// The line with its next byte, which is the one at i; the byte behind it is at `to`.
fn with_byte(line: Line, byte: u8, i: usize, to: usize) -> Line
    ensures { result ≡ with_byte line byte i to }
{
    match line.at {
        At::Start => at_start(line, byte),
        At::Number => in_number(line, byte),
        At::Blank => in_word(line, byte, i, to),
        At::Letters => behind_word(line, byte, to),
        _ => turned(line, At::Wrong),
    }
}

// One line more; no file has as many as would be too many to count.
fn one_more(count: u32) -> u32
    ensures { result ≡ one_more count }
{
    if count < 4294967295 { count + 1 } else { count }
}

// Whether a line that ends here has a word, or says nothing.
fn is_sound(line: Line) -> bool
    ensures { result ≡ is_sound line }
{
    match line.at {
        At::Start => !line.exported,
        At::Return => (line.from < line.to) | !line.exported,
        At::Letters => true,
        _ => false,
    }
}

// Whether it has a word, and this number.
fn is_for(line: Line, number: u32) -> bool
    ensures { result ≡ is_for line number }
{
    (line.from < line.to) & (line.number == number as u64)
}

// Whether it has the word for a name, or for an export name.
fn is_of(line: Line, number: u32, exported: bool) -> bool
    ensures { result ≡ is_of line number exported }
{
    if exported {
        is_for(line, number) & line.exported
    } else {
        is_for(line, number) & !line.exported
    }
}

fn word_in(line: Line) -> Word
    ensures { result ≡ word_in line }
{
    Word {
        from: line.from,
        to: line.to,
    }
}

// The word for a name, or for an export name: the first that the file has.
pub fn find(names: &[u8], number: u32, exported: bool) -> Option<Word>
    ensures { result ≡ word_for names.now number exported }
{
    let mut line = new_line();
    let mut i = 0;
    while i < names.len() {
        let byte = names[i];
        let at = i;
        i += 1;
        if byte == b'\n' {
            if is_of(line, number, exported) {
                return Some(word_in(line));
            }
            line = new_line();
        } else {
            line = with_byte(line, byte, at, i);
        }
    }
    if is_of(line, number, exported) {
        return Some(word_in(line));
    }
    None
}

// The number of the first line that is wrong, counted from 1, if one is.
pub fn wrong_line(names: &[u8]) -> Option<u32>
    ensures { result ≡ wrong_line names.now }
{
    let mut line = new_line();
    let mut count: u32 = 1;
    let mut i = 0;
    while i < names.len() {
        let byte = names[i];
        let at = i;
        i += 1;
        if byte == b'\n' {
            if !is_sound(line) {
                return Some(count);
            }
            line = new_line();
            count = one_more(count);
        } else {
            line = with_byte(line, byte, at, i);
        }
    }
    if is_sound(line) { None } else { Some(count) }
}
