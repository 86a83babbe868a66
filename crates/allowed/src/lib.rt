// The fields that a scope of each kind may have.
#![tactic(auto)]

ghost use Rattle.std.specs.Prelude.{◌≡◌};
ghost use Rattle.allowed.specs.Rows.{in_rows, Allows};

// The field codes that a scope of each kind may have: component, component type, instance type, module type.
const ALLOWED: [[u8; 26]; 4] = [
    *b".1111111111111111111111..1",
    *b"....1....111111111...1.1..",
    *b"....1....111111111.....1..",
    *b"....11...111............1.",
];

// The rows of allowed fields, for a caller to lend: a constant is written out again wherever it is used.
pub fn allowed_rows() -> [[u8; 26]; 4]
    ensures { Allows result }
{
    ALLOWED
}

// Whether a scope of this kind may have the field, by these rows.
pub fn allows(rows: &[[u8; 26]; 4], kind: usize, code: usize) -> bool
    ensures { result ≡ in_rows rows.now kind code }
{
    if kind < 4 {
        if code < 26 {
            return rows[kind][code] == b'1';
        }
    }
    false
}
