// The C function that resolves a form and hands out what its refusal tells.
ghost use Rattle.std.specs.Prelude.{◌≡◌, length};
ghost use Rattle.resolver.specs.Meaning.{ruled};
ghost use Rattle.ferhevok.specs.Packed.{packed};
ghost use Rattle.ferhevok.specs.Telling.{answer_told, output_told, told_after};

// Resolves the form into `out`. The first two of `told` are then the space of the name (refusals 6, 8 and 9) and the place of its
// first declaration (6), else 0. Where `told` has no room for them, the answer is the one for an output of 0 bytes.
#[unsafe(no_mangle)]
pub extern "C" fn wnt_resolve_told(form: &[u8], out: &mut [u8], told: &mut [u32]) -> u64
    ensures value { result ≡ packed (ruled (answer_told form.now (length out.old) (length told.old))).plain }
    ensures out_after { out.new ≡ output_told form.now out.old (length told.old) }
    ensures told_after { told.new ≡ told_after (ruled (answer_told form.now (length out.old) (length told.old))).told told.old }
{
    ferhevok::told::wnt_resolve_told(form, out, told)
}
