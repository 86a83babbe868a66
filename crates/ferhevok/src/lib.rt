// The library's functions, each a thin one over a function of the crates below. `ferhevok_c` exports them for other languages to link.
#![tactic(auto)]

pub mod back;
pub mod bindings;
pub mod builds;
pub mod claims;
pub mod fewer;
pub mod in_place;
pub mod lent;
pub mod members;
pub mod moves;
pub mod told;
pub mod versions;

ghost use Rattle.std.specs.Prelude.{◌≡◌, length};
ghost use Rattle.rules.specs.Answer.{answer, output};
ghost use Rattle.rules.specs.Versions.{base};
ghost use Rattle.resolver.specs.Meaning.{meaning, ruled};
ghost use Rattle.ferhevok.specs.Packed.{packed};

use packed::packed_refusal;
use refusal::Refused;
use resolver::run::resolve;

// The refusal's number times 2^32 plus its place; on acceptance the number of rows written.
pub(crate) fn packed_in(answer: Result<u32, Refused>) -> u64
    ensures { result ≡ packed (meaning answer).plain }
{
    match answer {
        Ok(rows) => rows as u64,
        Err(Refused { refusal, .. }) => packed_refusal(refusal),
    }
}

// Resolves the form into `out`.
pub fn wnt_resolve(form: &[u8], out: &mut [u8]) -> u64
    ensures { (result ≡ packed (ruled (answer base form.now (length out.old))).plain) × (out.new ≡ output base form.now out.old) }
{
    packed_in(resolve(form, out))
}
