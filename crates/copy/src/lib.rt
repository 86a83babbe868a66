// Bytes copied into a buffer.
#![tactic(auto)]

ghost use Rattle.std.specs.Prelude.{◌≡◌};
ghost use Rattle.std.proofs.lemmas.List.Edits.{sets};

// Copies bytes to the place `at` and those behind it, as far as there is room.
pub fn copy(from: &[u8], to: &mut [u8], at: usize)
    ensures { to.new ≡ sets to.old at from.now }
{
    let mut i = at;
    let mut k = 0;
    while k < from.len() {
        if to.len() <= i {
            return;
        }
        to[i] = from[k];
        i += 1;
        k += 1;
    }
}
