// Numbers in a line of text.
ghost use Rattle.std.specs.Prelude.{◌≡◌, true, [], ◌≤◌, drop};
ghost use Rattle.kit.specs.Out.{◌&◌};
ghost use Rattle.text.specs.Numbers.{is_digit, with_digit, digits_from, number_in, number_behind};

// No part of a row can hold this: a number that would be larger stays this.
const LARGE: u64 = 4294967296;

// A number, and the place in its line behind it.
#[derive(Clone, Copy)]
pub(crate) struct Found {
    pub value: u64,
    pub end: usize,
}

fn is_digit(byte: u8) -> bool
    ensures { result ≡ is_digit byte }
{
    (b'0' <= byte) & (byte <= b'9')
}

// A number with a digit more.
fn with_digit(number: u64, digit: u8) -> u64
    requires { (number ≤ 4294967296) × (is_digit digit ≡ true) }
    ensures { (result ≡ with_digit number digit) × (result ≤ 4294967296) }
{
    let longer = number * 10 + ((digit - b'0') as u64);
    if longer < LARGE { longer } else { LARGE }
}

// The number that the digits from a place on make.
fn digits_from(line: &[u8], from: usize) -> Found
    ensures { (result.value & drop result.end line.now) ≡ digits_from (drop from line.now) 0 }
{
    let mut value: u64 = 0;
    let mut end = from;
    while end < line.len() {
        if is_digit(line[end]) {
            value = with_digit(value, line[end]);
            end += 1;
        } else {
            return Found { value, end };
        }
    }
    Found { value, end }
}

// No number: the place behind it is the line's end, so that no number is found from there on either.
fn none_in(line: &[u8]) -> Found
    ensures { (result.value & drop result.end line.now) ≡ (0 & []) }
{
    Found {
        value: 0,
        end: line.len(),
    }
}

// The number that begins at a place.
fn number_in(line: &[u8], from: usize) -> Found
    ensures { (result.value & drop result.end line.now) ≡ number_in (drop from line.now) }
{
    if line.len() <= from {
        return none_in(line);
    }
    if is_digit(line[from]) {
        digits_from(line, from)
    } else {
        none_in(line)
    }
}

// The number behind a mark that stands at a place.
pub(crate) fn number_behind(line: &[u8], at: usize, mark: u8) -> Found
    ensures { (result.value & drop result.end line.now) ≡ number_behind mark (drop at line.now) }
{
    if line.len() <= at {
        return none_in(line);
    }
    if line[at] == mark {
        number_in(line, at + 1)
    } else {
        none_in(line)
    }
}
