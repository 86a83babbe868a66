// Notes, one for each row. They are lent by whoever has them.
ghost use Rattle.std.specs.Prelude.{◌≡◌, get_or, set};
ghost use Rattle.back_notes.specs.Note.{no_note};

// Of a DECL: its number, and the row of its scope's OPEN. Of an OUTER: the name of what it counts to, and the row of the OPEN of
// the scope that it leads to. Of other rows nothing.
pub type Note = [u32; 2];

// The note of row i; nothing past the end.
pub fn note_at(noted: &[Note], i: usize) -> Note
    ensures { result ≡ get_or noted.now i no_note }
{
    noted.get(i).copied().unwrap_or([0; 2])
}

// Notes something of row i, where there is room.
#[tactic(auto, using(crate::proofs::Ways::put_past))]
pub(crate) fn put_note(noted: &mut [Note], i: usize, n: Note)
    ensures { noted.new ≡ set noted.old i n }
{
    if i < noted.len() {
        noted[i] = n;
    }
}
