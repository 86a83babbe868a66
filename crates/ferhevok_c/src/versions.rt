// The C function that converts a form from one version to another.
ghost use Rattle.std.specs.Prelude.{◌≡◌, length};
ghost use Rattle.rules.specs.Answer.{map_answer};
ghost use Rattle.rules.specs.Versions.{all};
ghost use Rattle.converting.specs.Convert.{converted, converted_output, rows_said};
ghost use Rattle.ferhevok.specs.Packed.{packed_answer};

// Writes the form to the front of `out`, as a form of the version with this number.
#[unsafe(no_mangle)]
pub extern "C" fn wnt_convert(form: &[u8], version: u32, out: &mut [u8]) -> u64
    ensures { (result ≡ packed_answer (map_answer (rows_said all) (converted all version form.now (length out.old)))) × (out.new ≡ converted_output all version form.now out.old) }
{
    ferhevok::versions::wnt_convert(form, version, out)
}
