// Runs the vectors of RFC 8439 and the end of the keystream through `chacha20` and
// `keystream`, and says of each whether the answer and the bytes are the ones expected.
#![tactic(auto)]

mod keystream_end;
mod vectors;

use replay_lists::cases::Fields;
use std::io;

fn main(rt: HostRuntime) -> io::Result<()> {
    vectors::quarter_rounds(&rt)?;
    vectors::blocks(&rt)?;
    vectors::messages(&rt)?;
    keystream_end::last_block(&rt)?;
    keystream_end::past_the_end(&rt)?;
    keystream_end::nothing_past_the_end(&rt)
}

fn report(rt: &impl Print, name: &str, good: bool) -> io::Result<()> {
    let verdict = if good { "ok" } else { "WRONG" };
    println!(rt; "{name}: {verdict}")
}

// The N bytes that a text writes in hexadecimal.
fn array<const N: usize>(text: &[u8]) -> Option<[u8; N]> {
    Fields::of(text).array()
}

// The position after the bytes, over which the keystream is laid; None where it ends too early.
fn apply(key: &[u8; 32], nonce: &[u8; 12], from: u64, bytes: &mut [u8]) -> Option<u64> {
    keystream::apply(key, nonce, from, bytes).ok()
}
