// Whether a file is text, as its bytes tell.
ghost use Rattle.std.specs.Prelude.{◌≡◌};
ghost use Rattle.known.specs.Text.{is_text_byte, is_text};

// A byte that text has: it is no control byte but a tab or the end of a line.
fn is_text_byte(byte: u8) -> bool
    ensures { result ≡ is_text_byte byte }
{
    (31 < byte) | ((byte == b'\t') | ((byte == b'\n') | (byte == b'\r')))
}

pub(crate) fn is_text(bytes: &[u8]) -> bool
    ensures { result ≡ is_text bytes.now }
{
    let mut i = 0;
    while i < bytes.len() {
        if is_text_byte(bytes[i]) {
            i += 1;
        } else {
            return false;
        }
    }
    true
}
