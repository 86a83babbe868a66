// Numbers and zeros in bytes that are lent.
#![tactic(auto)]

ghost use Rattle.std.specs.Prelude.{◌≡◌};
ghost use Rattle.std.proofs.lemmas.List.Edits.{sets};
ghost use Rattle.rules.specs.Rows.{bytes};
ghost use Rattle.stores.specs.Zeros.{zero_from};

// The lowest 32 bits of a number in the four bytes from i on, the lower first. What lies past the end is not stored.
pub fn put_word(list: &mut [u8], i: usize, v: usize)
    ensures { list.new ≡ sets list.old i (bytes 4 v) }
{
    let end = list.len();
    if end <= i {
        return;
    }
    list[i] = (v % 256) as u8;
    if end <= i + 1 {
        return;
    }
    list[i + 1] = (v / 256 % 256) as u8;
    if end <= i + 2 {
        return;
    }
    list[i + 2] = (v / 65536 % 256) as u8;
    if end <= i + 3 {
        return;
    }
    list[i + 3] = (v / 16777216 % 256) as u8;
}

// Zeroes from a byte on.
#[tactic(auto, unfolding(crate::specs::Zeros::zero_from))]
pub fn zero_from(list: &mut [u8], from: usize)
    ensures { list.new ≡ zero_from list.old from }
{
    if from < list.len() {
        list[from..].fill(0);
    }
}
