// The function that resolves a form and hands out what its refusal tells.
ghost use Rattle.std.specs.Prelude.{◌≡◌, length};
ghost use Rattle.refusal.specs.Refusals.{tells};
ghost use Rattle.resolver.specs.Meaning.{meaning, ruled};
ghost use Rattle.ferhevok.specs.Packed.{packed};
ghost use Rattle.ferhevok.specs.Telling.{answer_told, output_told, told_after};

use packed::packed_refusal;
use refusal::Refused;
use resolver::run::resolve;

// How many numbers are told: the space, and the place of the first declaration.
const TOLD: usize = 2;

// Puts the two numbers first; where there is no room for both, nothing.
fn put_told(told: &mut [u32], space: u32, first: u32)
    ensures { told.new ≡ told_after (tells space first) told.old }
{
    if told.len() < TOLD {
        return;
    }
    told[0] = space;
    told[1] = first;
}

// The number of an answer, and in `told` what it tells.
fn telling(answer: Result<u32, Refused>, told: &mut [u32]) -> u64
    ensures { (result ≡ packed (meaning answer).plain) × (told.new ≡ told_after (meaning answer).told told.old) }
{
    match answer {
        Ok(rows) => {
            put_told(told, 0, 0);
            rows as u64
        }
        Err(
            Refused {
                refusal,
                told: besides,
            },
        ) => {
            put_told(told, besides.space, besides.first);
            packed_refusal(refusal)
        }
    }
}

// Resolves the form into `out`. The first two of `told` are then the space of the name (refusals 6, 8 and 9) and the place of its
// first declaration (6), else 0. Where `told` has no room for them, the answer is the one for an output of 0 bytes.
pub fn wnt_resolve_told(form: &[u8], out: &mut [u8], told: &mut [u32]) -> u64
    ensures value { result ≡ packed (ruled (answer_told form.now (length out.old) (length told.old))).plain }
    ensures out_after { out.new ≡ output_told form.now out.old (length told.old) }
    ensures told_after { told.new ≡ told_after (ruled (answer_told form.now (length out.old) (length told.old))).told told.old }
{
    if told.len() < TOLD {
        let mut nowhere = [0u8; 1];
        return telling(resolve(form, &mut nowhere[..0]), told);
    }
    telling(resolve(form, out), told)
}
