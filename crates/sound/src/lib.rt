// Whether six parts are those of a row: what each of the nine kinds is to be. Names reach to `top`.
#![tactic(auto)]

ghost use Rattle.std.specs.Prelude.{◌≡◌};
ghost use Rattle.sound.specs.Sound.{is_index, is_lone, is_field, is_decl, is_ref, is_outer, is_case, is_open, is_close, is_sound};

use parts::Parts;

// Whether x can be an operand: any number where the flag is 0, a name where it is 1.
fn is_index(flag: u32, x: u32, top: u32) -> bool
    ensures { result ≡ is_index top flag x }
{
    (flag == 0) | ((flag == 1) & ((1 <= x) & (x <= top)))
}

// A PATH or an EXPORT: an x and nothing else.
pub fn is_lone(p: Parts) -> bool
    ensures { result ≡ is_lone p }
{
    (p.b == 0) & ((p.e == 0) & ((p.y == 0) & (p.z == 0)))
}

// A FIELD.
pub fn is_field(p: Parts) -> bool
    ensures { result ≡ is_field p }
{
    (p.x == 0) & (p.y == 0)
}

// A DECL: x is a name or 0.
pub fn is_decl(p: Parts, top: u32) -> bool
    ensures { result ≡ is_decl top p }
{
    (p.e == 0) & (p.y == 0) & (p.x <= top)
}

// A REF.
pub fn is_ref(p: Parts, top: u32) -> bool
    ensures { result ≡ is_ref top p }
{
    is_index(p.e, p.x, top)
}

// An OUTER: bit 0 of e is x's flag, bit 1 is y's.
pub fn is_outer(p: Parts, top: u32) -> bool
    ensures { result ≡ is_outer top p }
{
    is_index(p.e % 2, p.x, top) & is_index(p.e / 2, p.y, top)
}

// A CASE: x is a name or 0.
pub fn is_case(p: Parts, top: u32) -> bool
    ensures { result ≡ is_case top p }
{
    (p.b == 0) & ((p.e == 0) & (p.y == 0)) & (p.x <= top)
}

// An OPEN: x is a scope name or 0.
pub fn is_open(p: Parts, top: u32) -> bool
    ensures { result ≡ is_open top p }
{
    (p.e == 0) & ((p.y == 0) & (p.z == 0)) & (p.x <= top)
}

// A CLOSE.
pub fn is_close(p: Parts) -> bool
    ensures { result ≡ is_close p }
{
    (p.b == 0) & ((p.e == 0) & ((p.x == 0) & ((p.y == 0) & (p.z == 0))))
}

// Whether the six parts can be taken apart, where names reach to `top`.
pub fn is_sound(p: Parts, top: u32) -> bool
    ensures { result ≡ is_sound top p }
{
    let code = p.code;
    match code {
        1 => is_field(p),
        2 => is_decl(p, top),
        3 => is_ref(p, top),
        4 => is_lone(p),
        5 => is_outer(p, top),
        6 => is_case(p, top),
        7 => is_open(p, top),
        8 => is_close(p),
        9 => is_lone(p),
        _ => false,
    }
}
