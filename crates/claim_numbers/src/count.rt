// The number of each declaration: how many of its space stand before it in its scope.
ghost use Rattle.std.specs.Prelude.{◌≡◌};
ghost use Rattle.kit.specs.Out.{◌&◌};
ghost use Rattle.claim_numbers.specs.Count.{bump_count_t, count_before_t};

use parts::Parts;
use rows::row::{DECL, OPEN};

// How many declarations of each space a scope has so far.
pub type Counts = [u32; 13];

// How many spaces there are.
const SPACES: usize = 13;

// The next number of a space in the scope at `level`, the outermost at 0.
fn bump(counts: &mut [Counts], level: usize, space: usize) -> u32
    ensures { (result & counts.new) ≡ bump_count_t counts.old level space }
{
    if counts.len() <= level {
        return 0;
    }
    if SPACES <= space {
        return 0;
    }
    let mut c = counts[level];
    let number = c[space];
    c[space] = number % 65536 + 1;
    counts[level] = c;
    number
}

// Counts a row where this many scopes are open: an OPEN begins to count, a DECL is counted, and its number is the answer.
pub fn count(counts: &mut [Counts], depth: usize, p: Parts) -> u32
    ensures { (result & counts.new) ≡ count_before_t counts.old depth p }
{
    if p.code == OPEN {
        if depth < counts.len() {
            counts[depth] = [0; 13];
        }
        return 0;
    }
    if p.code != DECL {
        return 0;
    }
    if depth == 0 {
        return 0;
    }
    bump(counts, depth - 1, usize::from(p.b))
}
