// A place that is given as text.
ghost use Rattle.std.specs.Prelude.{◌≡◌};
ghost use Rattle.do_show.specs.Numbers.{with_digit, number_in};

// A number with a digit more.
fn with_digit(number: u32, digit: u8) -> Option<u32>
    ensures { result ≡ with_digit number digit }
{
    if digit < b'0' {
        return None;
    }
    if b'9' < digit {
        return None;
    }
    let longer = (number as u64) * 10 + ((digit - b'0') as u64);
    if longer < 4294967296 {
        Some(longer as u32)
    } else {
        None
    }
}

// The number that a text spells in decimal digits.
pub(crate) fn number_in(text: &[u8]) -> Option<u32>
    ensures { result ≡ number_in text.now }
{
    if text.len() == 0 {
        return None;
    }
    let mut number: u32 = 0;
    let mut i = 0;
    while i < text.len() {
        number = with_digit(number, text[i])?;
        i += 1;
    }
    Some(number)
}
