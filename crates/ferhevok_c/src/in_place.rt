// The C function that mends a form in its own buffer.
ghost use Rattle.std.specs.Prelude.{◌≡◌, length};
ghost use Rattle.rules.specs.Versions.{all};
ghost use Rattle.mending.specs.Mend.{mend_buffer, buffer_after, list_after};
ghost use Rattle.mend.specs.Meaning.{ruled};
ghost use Rattle.ferhevok.specs.Packed.{packed_mending};

// Mends the form in the first `long` bytes of `buffer`, and lists the changes in `list`.
#[unsafe(no_mangle)]
pub extern "C" fn wnt_mend(buffer: &mut [u8], long: usize, list: &mut [u8]) -> u64
    ensures value { result ≡ packed_mending (ruled (mend_buffer all buffer.old long (length list.old))) }
    ensures buffer_after { buffer.new ≡ buffer_after (mend_buffer all buffer.old long (length list.old)) long buffer.old }
    ensures list_after { list.new ≡ list_after (mend_buffer all buffer.old long (length list.old)) list.old }
{
    ferhevok::in_place::wnt_mend(buffer, long, list)
}
