// The C function that compares two builds.
ghost use Rattle.std.specs.Prelude.{◌≡◌, length};
ghost use Rattle.rules.specs.Answer.{map_answer};
ghost use Rattle.rules.specs.Versions.{all};
ghost use Rattle.comparing.specs.Compare.{listed, list_output};
ghost use Rattle.matched.specs.Counted.{choice_of};
ghost use Rattle.diff.specs.Meaning.{bytes_of};
ghost use Rattle.ferhevok.specs.Packed.{packed_answer};

// Compares two resolved forms: `list` then holds what differs.
#[unsafe(no_mangle)]
pub extern "C" fn wnt_compare(left: &[u8], right: &[u8], choice: u32, list: &mut [u8]) -> u64
    ensures { (result ≡ packed_answer (map_answer bytes_of (listed all (choice_of choice) left.now right.now (length list.old)))) × (list.new ≡ list_output all (choice_of choice) left.now right.now list.old) }
{
    ferhevok::builds::wnt_compare(left, right, choice, list)
}
