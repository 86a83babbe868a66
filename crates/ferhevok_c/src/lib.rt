// The library for C: each function of ferhevok, exported under its own name, with its clauses said again. `tools/staticlib ferhevok`
// writes it.
#![tactic(auto)]

pub mod back;
pub mod bindings;
pub mod builds;
pub mod claims;
pub mod fewer;
pub mod in_place;
pub mod lent;
pub mod members;
pub mod moves;
pub mod told;
pub mod versions;

ghost use Rattle.std.specs.Prelude.{◌≡◌, length};
ghost use Rattle.rules.specs.Answer.{answer, output};
ghost use Rattle.rules.specs.Versions.{base};
ghost use Rattle.resolver.specs.Meaning.{ruled};
ghost use Rattle.ferhevok.specs.Packed.{packed};

// Resolves the form into `out`.
#[unsafe(no_mangle)]
pub extern "C" fn wnt_resolve(form: &[u8], out: &mut [u8]) -> u64
    ensures { (result ≡ packed (ruled (answer base form.now (length out.old))).plain) × (out.new ≡ output base form.now out.old) }
{
    ferhevok::wnt_resolve(form, out)
}
