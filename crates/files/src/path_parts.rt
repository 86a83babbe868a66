// Parts of texts and buffers.
ghost use Rattle.std.specs.Prelude.{◌≡◌, take};
ghost use Rattle.files.specs.Paths.{is_dash};

// Whether a path is `-`, which stands for standard input or output.
pub fn is_dash(path: &[u8]) -> bool
    ensures { result ≡ is_dash path.now }
{
    if path.len() != 1 {
        return false;
    }
    path[0] == b'-'
}

// The first bytes, this many, or all that there are.
pub fn front(bytes: &[u8], count: usize) -> &[u8]
    ensures { result.now ≡ take count bytes.now }
{
    if count <= bytes.len() {
        &bytes[0..count]
    } else {
        bytes
    }
}

// Copies a text to the start of a buffer, as far as there is room.
pub(crate) fn copy(text: &[u8], buffer: &mut [u8]) {
    for i in 0..text.len() {
        if buffer.len() <= i {
            return;
        }
        buffer[i] = text[i];
    }
}
