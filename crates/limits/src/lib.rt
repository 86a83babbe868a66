// What a form is held to, by value: the numbers of its version and its rule set. A version more is an entry here.
#![tactic(auto)]

ghost use Rattle.std.specs.Prelude.{◌≡◌, ◌≤◌};
ghost use Rattle.rules.specs.Versions.{version2, as_claimed};
ghost use Rattle.limits.specs.Held.{rules_of, limits_of, setting};

use fixed::{HEADER_NARROW, LAST_NAME, LONG_HEADER_NARROW};

// The layout of the header, and the most that a form may have.
#[derive(Clone, Copy)]
pub struct Limits {
    // The version's number.
    pub version: u8,
    // The bytes of the header, and whether four of them are the row count, not two.
    pub header: u8,
    pub wide: bool,
    // The highest name, the most rows, and the most scopes that are open at once.
    pub names: u32,
    pub rows: usize,
    pub scopes: u8,
    // The rule set's number.
    pub rules: u8,
}

// The limits of version 1, with rule set 0.
fn first() -> Limits
    ensures { result ≡ limits_of (setting 0) }
{
    Limits {
        version: 1,
        header: HEADER_NARROW,
        wide: false,
        names: LAST_NAME,
        rows: 1023,
        scopes: 32,
        rules: 0,
    }
}

// The limits of version 2, with the rule set of this number.
fn second(rules: u8) -> Limits
    ensures { result ≡ limits_of (record { version = version2; rules = rules_of rules }) }
{
    Limits {
        version: 2,
        header: LONG_HEADER_NARROW,
        wide: true,
        names: LAST_NAME,
        rows: 16383,
        scopes: 64,
        rules,
    }
}

// The limits of an input, by its setting's place in the list of all.
pub fn of_input(i: usize) -> Limits
    ensures { result ≡ limits_of (setting i) }
{
    if i == 1 {
        second(0)
    } else if i == 2 {
        second(1)
    } else {
        first()
    }
}

// The limits of what is claimed to be its output: every name that fits a row, and four times the rows.
pub fn of_claim(i: usize) -> Limits
    ensures { result ≡ limits_of (as_claimed (setting i)) }
{
    let l = of_input(i);
    Limits {
        version: l.version,
        header: l.header,
        wide: l.wide,
        names: 4294967295,
        rows: 4 * l.rows,
        scopes: l.scopes,
        rules: l.rules,
    }
}

// The most scopes that may be open at once.
pub fn most_scopes(limits: Limits) -> usize
    ensures { (result ≡ limits.scopes) × (result ≤ 255) }
{
    limits.scopes as usize
}
