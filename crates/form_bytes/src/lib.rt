// The bytes of a form: how it begins, and numbers in them, the lower byte first. What lies past the end is 0, so that any bytes can be looked at.
#![tactic(auto)]

ghost use Rattle.std.specs.Prelude.{◌≡◌, ◌<◌, get_or};
ghost use Rattle.parts.specs.PartsAt.{two, four};
ghost use Rattle.form_bytes.specs.Begins.{begins_as};

pub fn byte_at(form: &[u8], at: usize) -> u8
    ensures { result ≡ get_or form.now at 0 }
{
    if at < form.len() { form[at] } else { 0 }
}

fn wide_at(form: &[u8], at: usize) -> u32
    ensures { (result ≡ get_or form.now at 0) × (result < 256) }
{
    byte_at(form, at) as u32
}

// The number in the two bytes from a place.
pub fn half_at(form: &[u8], at: u32) -> u32
    ensures { result ≡ two form.now at }
{
    let first = at as usize;
    wide_at(form, first) + wide_at(form, first + 1) * 256
}

// The number in the four bytes from a place.
pub fn word_at(form: &[u8], at: u32) -> u32
    ensures { result ≡ four form.now at }
{
    let first = at as usize;
    wide_at(form, first)
        + wide_at(form, first + 1) * 256
        + wide_at(form, first + 2) * 65536
        + wide_at(form, first + 3) * 16777216
}

// Whether bytes begin as a form of this version does: with the letters WNT and the version.
pub fn begins_as(form: &[u8], version: u8) -> bool
    ensures { result ≡ begins_as form.now version }
{
    (byte_at(form, 0) == b'W')
        & (byte_at(form, 1) == b'N')
        & (byte_at(form, 2) == b'T')
        & (byte_at(form, 3) == version)
}
