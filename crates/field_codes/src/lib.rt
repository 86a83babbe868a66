// What a field's code alone tells of its rows: what e may be, whether it ends with an EXPORT, where its operands are looked up, and the kind of
// scope that it opens.
#![tactic(auto)]

ghost use Rattle.std.specs.Prelude.{◌≡◌};
ghost use Rattle.rules.specs.Shapes as rules;
ghost use Rattle.rules.specs.Shapes.{builtin_ok, here_only};
ghost use Rattle.field_codes.specs.Values.{as_option};

// What e of a FIELD may be: a builtin code in field 19, in field 22 whether there is an ascribed type, and zero elsewhere.
#[tactic(auto, using(crate::proofs::Laws::if_yes, crate::proofs::Laws::if_no, kit::proofs::Laws::tests), unfolding(rules::specs::Shapes::builtin_ok))]
pub fn builtin_ok(code: usize, e: usize) -> bool
    ensures { result ≡ builtin_ok code e }
{
    if code == 19 {
        e <= 47
    } else if code == 22 {
        e <= 1
    } else {
        e == 0
    }
}

// Whether the field ends with an EXPORT.
pub fn exports(code: usize) -> bool
    ensures { result ≡ rules.exports code }
{
    (code == 9) | (code == 10)
}

// Whether the field's operands are looked up in its own scope only.
pub fn here_only(code: u8) -> bool
    ensures { result ≡ here_only code }
{
    (code == 4) | ((code == 5) | (code == 24))
}

// The kind of scope that the field opens.
pub fn opens(code: usize) -> Option<usize>
    ensures { as_option result ≡ rules.opens code }
{
    match code {
        6 => Some(0),
        14 => Some(1),
        15 => Some(2),
        17 => Some(3),
        _ => None,
    }
}
