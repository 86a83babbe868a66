// Entries, one for each row. They are lent by whoever has them.
ghost use Rattle.std.specs.Prelude.{◌≡◌, get_or, set};
ghost use Rattle.meanings.specs.Entries.{no_entry, told, read};

use readings::Meaning;

// One more than the row of a declaration, its number, how many scopes out it is, and its name; all 0 where there is none.
pub type Entry = [u32; 4];

// The entry of a meaning.
#[tactic(auto, using(crate::proofs::EntryLaws::told_ways))]
pub(crate) fn told(meaning: Option<Meaning>) -> Entry
    ensures { result ≡ told meaning }
{
    match meaning {
        Some(found) => [found.row as u32 + 1, found.number, found.out, found.name],
        None => [0; 4],
    }
}

// The meaning that an entry tells.
pub(crate) fn read(entry: Entry) -> Option<Meaning>
    ensures { result ≡ read entry }
{
    let row = entry[0].checked_sub(1)?;
    if 65535 < row {
        return None;
    }
    Some(Meaning {
        row: row as u16,
        number: entry[1],
        out: entry[2],
        name: entry[3],
    })
}

// The entry of a row; that of no declaration past the end.
#[tactic(auto, using(crate::proofs::EntryLaws::entry_ways))]
pub(crate) fn entry_at(entries: &[Entry], row: u16) -> Entry
    ensures { result ≡ get_or entries.now row no_entry }
{
    let i = row as usize;
    if i < entries.len() {
        entries[i]
    } else {
        [0; 4]
    }
}

// Notes an entry, where there is room.
#[tactic(auto, using(crate::proofs::EntryLaws::entry_ways))]
pub(crate) fn put_entry(entries: &mut [Entry], row: u16, entry: Entry)
    ensures { entries.new ≡ set entries.old row entry }
{
    let i = row as usize;
    if i < entries.len() {
        entries[i] = entry;
    }
}
