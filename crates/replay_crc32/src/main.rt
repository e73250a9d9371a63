// Compares crc32 with the answers of zlib in data/crc32.txt: each case is a message and its CRC-32.
#![tactic(auto)]

use replay_lists::cases::Fields;
use std::io;

fn agrees(mut case: Fields<'_>) -> Option<bool> {
    let mut room = [0; 4096];
    let message = case.bytes(&mut room)?;
    Some(u64::from(crc32::crc32(message)) == case.number()?)
}

fn main(rt: HostRuntime) -> io::Result<()> {
    replay_lists::replay_as(&rt, "crc32.txt", "crc32", 2, agrees)
}
