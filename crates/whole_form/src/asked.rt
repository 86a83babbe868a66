// Which of all settings the header of a form asks for, and how many rows it says.
ghost use Rattle.std.specs.Prelude.{◌≡◌};
ghost use Rattle.rules.specs.Versions.{all};
ghost use Rattle.limits.specs.Held.{limits_of, setting};
ghost use Rattle.whole_form.specs.Asked.{held_as, asked_from, asked_of, claimed_of};

use form::header::{BadHeader, header_to};
use limits::{Limits, of_claim, of_input};

// How many settings there are.
const SETTINGS: usize = 3;

// What a header asks for.
#[derive(Clone, Copy)]
pub struct Asked {
    // The setting's place in the list of all,
    pub setting: usize,
    // and how many rows the header counts; the bytes have just as many.
    pub rows: usize,
}

// The limits of a claimed output or of an input, by the setting's place in the list of all.
fn limits_at(claim: bool, i: usize) -> Limits
    ensures { result ≡ limits_of (held_as claim (setting i)) }
{
    if claim { of_claim(i) } else { of_input(i) }
}

// The setting that the header asks for, of a claimed output or of an input.
fn asked_as(form: &[u8], claim: bool) -> Result<Asked, BadHeader>
    ensures { result ≡ asked_from claim 0 all form.now }
{
    let mut next = 0;
    while next < SETTINGS {
        let setting = next;
        next += 1;
        match header_to(form, limits_at(claim, setting)) {
            Ok(rows) => return Ok(Asked { setting, rows }),
            Err(BadHeader::Count) => return Err(BadHeader::Count),
            Err(BadHeader::Wrong) => {}
        }
    }
    Err(BadHeader::Wrong)
}

// The setting that the header of these bytes asks for.
pub fn setting_of(form: &[u8]) -> Result<Asked, BadHeader>
    ensures { result ≡ asked_of form.now }
{
    asked_as(form, false)
}

// The same of what is claimed to be an output, which may have four times the rows.
pub fn claim_of(form: &[u8]) -> Result<Asked, BadHeader>
    ensures { result ≡ claimed_of form.now }
{
    asked_as(form, true)
}
