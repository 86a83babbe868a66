// A form of another version than the one that the program takes.
ghost use Rattle.std.specs.Prelude.{◌≡◌};
ghost use Rattle.known.specs.Version.{is_second};

use form_bytes::begins_as;
use words::{Talk, say};

// Whether bytes begin as a form of version 2 does.
pub fn is_second(bytes: &[u8]) -> bool
    ensures { result ≡ is_second bytes.now }
{
    begins_as(bytes, 2)
}

// The one sentence on it.
pub fn say_second(talk: Talk<'_>) {
    say(
        talk,
        b"this form is of version 2; wnt takes version 1: see wnt convert\n",
    );
}
