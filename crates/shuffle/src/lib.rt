// The keyed shuffle: the first entries of a permutation of 0, 1, .. len - 1 that a key's keystream chooses. The layout is
// the shuffle of 1,024 with the layout's key. Everything is held to specs/Shuffle.antt.
#![tactic(auto)]

ghost use Rattle.std.specs.Prelude.{◌≡◌, ◌+◌, ◌^◌, ◌<◌, ◌≤◌, length, take, if◌then◌else◌, nat_le, nat_lt, slice_index};
ghost use Rattle.seq.specs.Lists.{tab};
ghost use Rattle.shuffle.specs.Shuffle.{limit, drawn, draws_from, made, stream_of, longest_shuffle, shuffle_of, lent_for};

use keystream::{KeystreamEnd, Position};

// The longest list that is shuffled: it is held on the stack.
const LONGEST: usize = 4096;

// The first `count` entries of the shuffle of `len`, cut to `len` and to the room lent; fewer where the keystream ends.
// Answers their number, and the places beyond it hold 0. A `len` above 4,096 gives no entries. The room is lent, as C lends it.
pub fn shuffle(key: &[u8; 32], len: usize, count: usize, entries: &mut [u16]) -> usize
    ensures number { result ≡ length (shuffle_of key.now len count (length entries.old)) }
    ensures lent { entries.new
        ≡ lent_for (length entries.old) (shuffle_of key.now len count (length entries.old)) }
{
    let long = held(len);
    let wanted = count.min(long).min(entries.len());
    let mut list = rising();
    let found = permute(key, wanted, &mut list[..long]);
    lay_out(&list[..found], entries);
    found
}

// A list too long is taken as an empty one, which has no entries.
fn held(len: usize) -> usize
    ensures { (result ≡ (if nat_le len longest_shuffle then len else 0)) × (result ≤ longest_shuffle) }
{
    if len <= LONGEST { len } else { 0 }
}

// The list 0, 1, 2 and so on.
fn rising() -> [u16; LONGEST]
    ensures { result ≡ tab (λ k. k) longest_shuffle }
{
    std::array::from_fn(|k: usize| k as u16)
}

// Makes the first `count` entries in place, and answers how many were made before the keystream ended.
fn permute(key: &[u8; 32], count: usize, list: &mut [u16]) -> usize
    requires { count ≤ length list.old }
    ensures { (result ≤ count) × (length list.new ≡ length list.old)
        × (take result list.new ≡ made (stream_of key.now) count 0 0 list.old) }
{
    let mut at: Position = 0;
    for i in 0..count {
        let Ok((r, next)) = draw(key, at, (list.len() - i) as u64) else {
            return i;
        };
        list.swap(i, place_of(i, r));
        at = next;
    }
    count
}

// The place that entry i is exchanged with, where r was drawn: itself or a later one. By its own promise, on which the edit
// `exchanged_with_earlier` is tried.
fn place_of(i: usize, r: u64) -> usize
    requires { i + r < 2 ^ 64 }
    ensures { result ≡ i + r }
{
    i + r as usize
}

// Draws eight bytes, the lowest first, until they are a number that is taken: its remainder, and the position after it.
fn draw(key: &[u8; 32], from: Position, range: u64) -> Result<(u64, Position), KeystreamEnd>
    ensures { result ≡ drawn (stream_of key.now) range (draws_from from) from }
{
    let mut at = from;
    loop {
        let mut bytes = [0; 8];
        let next = keystream::apply(key, &[0; 12], at, &mut bytes)?;
        let value = u64::from_le_bytes(bytes);
        if accepted(value, range) {
            return Ok((value % range, next));
        }
        at = next;
    }
}

// Whether a number drawn is below the largest multiple of the range that is at most 2^64, so that every remainder is
// equally likely. 2^64 - range, which 64 bits hold, leaves the remainder of 2^64. A range of 0 takes no number.
pub fn accepted(value: u64, range: u64) -> bool
    ensures { result ≡ nat_lt value (limit range) }
{
    range != 0 && value <= u64::MAX - range.wrapping_neg() % range
}

// The entries found, and 0 in the places beyond them: place by place, so that the edit `spare_room_left` can leave one.
fn lay_out(found: &[u16], entries: &mut [u16])
    ensures { entries.new ≡ lent_for (length entries.old) found.now }
{
    for (k, entry) in entries.iter_mut().enumerate() {
        *entry = entry_at(found, k);
    }
}

fn entry_at(found: &[u16], k: usize) -> u16
    ensures { result ≡ slice_index found.now k }
{
    found.get(k).copied().unwrap_or(0)
}
