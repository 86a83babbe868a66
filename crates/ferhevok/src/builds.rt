// The function that compares two builds.
ghost use Rattle.std.specs.Prelude.{◌≡◌, length};
ghost use Rattle.rules.specs.Answer.{map_answer};
ghost use Rattle.rules.specs.Versions.{all};
ghost use Rattle.comparing.specs.Compare.{listed, list_output};
ghost use Rattle.matched.specs.Counted.{choice_of};
ghost use Rattle.diff.specs.Meaning.{meaning, bytes_of};
ghost use Rattle.ferhevok.specs.Packed.{packed_answer};

use diff::run::compare;
use packed::packed_refusal;
use refusal::Refusal;

// The refusal's number times 2^32 plus its place; else the bytes of the list.
fn packed_list(answer: Result<u32, Refusal>) -> u64
    ensures { result ≡ packed_answer (meaning answer) }
{
    match answer {
        Ok(bytes) => bytes as u64,
        Err(refusal) => packed_refusal(refusal),
    }
}

// Compares two resolved forms: `list` then holds what differs.
pub fn wnt_compare(left: &[u8], right: &[u8], choice: u32, list: &mut [u8]) -> u64
    ensures { (result ≡ packed_answer (map_answer bytes_of (listed all (choice_of choice) left.now right.now (length list.old)))) × (list.new ≡ list_output all (choice_of choice) left.now right.now list.old) }
{
    packed_list(compare(left, right, choice, list))
}
