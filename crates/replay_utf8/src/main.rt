// Compares both checks of crate `utf8` with stored answers: rustc's for RFC 3629, and those of the scope's rule for the check on
// writing. Prints for each list how many strings were compared and how many differ.
#![tactic(auto)]

mod short;

use replay_lists::cases::Fields;
use std::io;

// 1 where RFC 3629 takes the bytes, and 2 more where the check on writing does.
fn answer(bytes: &[u8]) -> u64 {
    u64::from(utf8::well_formed(bytes)) + 2 * u64::from(utf8::counted(bytes))
}

// A string of at most eight bytes, and the answer for it.
fn agrees(mut case: Fields<'_>) -> Option<bool> {
    let mut room = [0; 8];
    let bytes = case.bytes(&mut room)?;
    Some(answer(bytes) == case.number()?)
}

fn main(rt: HostRuntime) -> io::Result<()> {
    short::replay(&rt, "short.txt")?;
    replay_lists::replay(&rt, "edges.txt", 2, agrees)?;
    replay_lists::replay(&rt, "neighbours.txt", 2, agrees)
}
