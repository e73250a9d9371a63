// Replays the Rust's stored answers for the crates `encoder` and `decoder`, and runs what demand 3 says of damage:
// every single fault on a record, and the ten zeroed blocks at which it ends.
#![tactic(auto)]

mod answers;
mod faults;

use std::io;

fn main(rt: HostRuntime) -> io::Result<()> {
    answers::replay(&rt)?;
    faults::run(&rt)
}
