// The function that converts a form from one version to another.
ghost use Rattle.std.specs.Prelude.{◌≡◌, length};
ghost use Rattle.rules.specs.Answer.{map_answer};
ghost use Rattle.rules.specs.Versions.{all};
ghost use Rattle.converting.specs.Convert.{converted, converted_output, rows_said};
ghost use Rattle.convert.specs.Meaning.{meaning};
ghost use Rattle.ferhevok.specs.Packed.{packed_answer};

use convert::run::convert;
use packed::packed_refusal;
use refusal::Refusal;

// The refusal's number times 2^32 plus its place; else the rows of the converted form.
fn packed_rows(answer: Result<u32, Refusal>) -> u64
    ensures { result ≡ packed_answer (meaning answer) }
{
    match answer {
        Ok(rows) => rows as u64,
        Err(refusal) => packed_refusal(refusal),
    }
}

// Writes the form to the front of `out`, as a form of the version with this number.
pub fn wnt_convert(form: &[u8], version: u32, out: &mut [u8]) -> u64
    ensures { (result ≡ packed_answer (map_answer (rows_said all) (converted all version form.now (length out.old)))) × (out.new ≡ converted_output all version form.now out.old) }
{
    packed_rows(convert(form, version, out))
}
