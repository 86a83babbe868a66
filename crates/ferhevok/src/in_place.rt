// The function that mends a form in its own buffer.
ghost use Rattle.std.specs.Prelude.{◌≡◌, length};
ghost use Rattle.rules.specs.Versions.{all};
ghost use Rattle.mending.specs.Mend.{mend_buffer, buffer_after, list_after};
ghost use Rattle.mend.specs.Meaning.{meaning, ruled};
ghost use Rattle.ferhevok.specs.Packed.{packed_mending};

use mend::run::mend;
use packed::packed_refusal;
use refusal::Refusal;

// The refusal's number times 2^32 plus its place; else the number of changes.
fn packed_in(answer: Result<u32, Refusal>) -> u64
    ensures { result ≡ packed_mending (meaning answer) }
{
    match answer {
        Ok(changes) => changes as u64,
        Err(refusal) => packed_refusal(refusal),
    }
}

// Mends the form in the first `long` bytes of `buffer`, and lists the changes in `list`.
pub fn wnt_mend(buffer: &mut [u8], long: usize, list: &mut [u8]) -> u64
    ensures value { result ≡ packed_mending (ruled (mend_buffer all buffer.old long (length list.old))) }
    ensures buffer_after { buffer.new ≡ buffer_after (mend_buffer all buffer.old long (length list.old)) long buffer.old }
    ensures list_after { list.new ≡ list_after (mend_buffer all buffer.old long (length list.old)) list.old }
{
    packed_in(mend(buffer, long, list))
}
