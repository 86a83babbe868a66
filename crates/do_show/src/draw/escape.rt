// A file of names made fit for a picture: what has a meaning in its text is spelt out. It stays a file of names.
use files::path_parts::front;

// The most bytes that a file of names comes to.
pub(crate) const ROOM: usize = 327680;

// Copies bytes to the place `at` and those behind it, as far as there is room, and answers where they end.
fn put(text: &[u8], to: &mut [u8; ROOM], at: usize) -> usize {
    let mut end = at;
    for i in 0..text.len() {
        if ROOM <= end {
            return end;
        }
        to[end] = text[i];
        end += 1;
    }
    end
}

fn put_byte(byte: u8, to: &mut [u8; ROOM], at: usize) -> usize {
    match byte {
        b'<' => put(b"&lt;", to, at),
        b'>' => put(b"&gt;", to, at),
        b'&' => put(b"&amp;", to, at),
        _ => put(&[byte], to, at),
    }
}

// Writes the names so, and answers how many bytes that are.
pub(crate) fn escape(names: &[u8], to: &mut [u8; ROOM]) -> usize {
    let mut end = 0;
    for i in 0..names.len() {
        end = put_byte(names[i], to, end);
    }
    end
}

// The first `count` bytes of what was written.
pub(crate) fn escaped_part(to: &[u8; ROOM], count: usize) -> &[u8] {
    front(to, count)
}
