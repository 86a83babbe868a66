// The parts of a batch in bytes: the members, which lie one behind another, their shares of the output, and their answers.
#![tactic(auto)]

ghost use Rattle.std.specs.Prelude.{◌≡◌, [], ◌/◌, ◌≤◌, eqb, ltb, length, get_or};
ghost use Rattle.std.proofs.lemmas.List.Edits.{sets};
ghost use Rattle.kit.specs.Pick.{pick};
ghost use Rattle.rules.specs.Rows.{bytes};
ghost use Rattle.batching.specs.BatchBytes.{sum, cut, bad_members, few_bytes};

use stores::put_word;

// The most members of a batch.
const MOST: usize = 8;

// The bytes of an answer.
const ANSWER: usize = 8;

// ---- the members

// Whether the lengths add up to this number; what is left of it falls, so that no sum can wrap.
#[tactic(auto, using(crate::proofs::Ways::add_ways))]
fn adds_up(lengths: &[u32], total: usize) -> bool
    ensures { result ≡ eqb (sum lengths.now) total }
{
    let mut left = total;
    for length in lengths {
        let n = *length as usize;
        if left < n {
            return false;
        }
        left -= n;
    }
    left == 0
}

// Whether there are too few or too many members, or other lengths than theirs.
#[tactic(auto, using(crate::proofs::Ways::bad_ways))]
pub fn are_bad(lengths: &[u32], members: &[u8]) -> bool
    ensures { result ≡ bad_members lengths.now members.now }
{
    if lengths.len() < 1 {
        return true;
    }
    if MOST < lengths.len() {
        return true;
    }
    !adds_up(lengths, members.len())
}

// A length, or what is left if that is less.
fn clipped(n: u32, rest: usize) -> usize
    ensures { (result ≡ pick (ltb rest n) rest n) × (result ≤ rest) }
{
    let n = n as usize;
    if rest < n { rest } else { n }
}

// The form of one member, as a part of all; none behind the last.
pub fn member_at<'a>(members: &'a [u8], lengths: &[u32], i: usize) -> &'a [u8]
    ensures { result.now ≡ get_or (cut lengths.now members.now) i [] }
{
    if lengths.len() <= i {
        return &members[0..0];
    }
    let mut at = 0;
    for k in 0..i {
        at += clipped(lengths[k], members.len() - at);
    }
    let end = at + clipped(lengths[i], members.len() - at);
    &members[at..end]
}

// ---- the shares

// How many bytes of the output are a member's: all have as many.
#[tactic(auto, using(crate::proofs::Ways::answer_ways))]
pub fn share_of(room: usize, count: usize) -> usize
    ensures { result ≡ room / count }
{
    if count == 0 {
        return 0;
    }
    room / count
}

// ---- the answers

// Whether the buffer has no room for an answer to each member.
#[tactic(auto, using(crate::proofs::Ways::bad_ways))]
pub fn is_short(lengths: &[u32], answers: &[u8]) -> bool
    ensures { result ≡ few_bytes lengths.now (length answers.now) }
{
    answers.len() / ANSWER < lengths.len()
}

// An answer in the eight bytes from `at` on, the lower first. What lies past the end is not stored.
#[tactic(auto, using(crate::proofs::Ways::answer_ways))]
pub fn put_answer(answers: &mut [u8], at: usize, answer: u64)
    ensures { answers.new ≡ sets answers.old at (bytes 8 answer) }
{
    put_word(answers, at, answer as usize);
    if answers.len() <= at {
        return;
    }
    if answers.len() - at <= 4 {
        return;
    }
    put_word(answers, at + 4, (answer / 4294967296) as usize);
}
