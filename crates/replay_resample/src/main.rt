// Replays the Rust's stored answers for the crates `resample_window`, `resample_four`, `resample_down` and `resample_up`:
// windows, the weights of source numbers, the luma of rows, parts of the planes of pictures, and parts of pictures with a
// change put onto them.
// A case is two strings of bytes, the operand and the result, in which a number has its high byte first; floats
// stand by their bits, and whole numbers that have a sign as f64. Of a picture's samples a pattern is stored,
// which is repeated as often as needed.
#![tactic(auto)]

mod pictures;
mod windows;

use std::io;

fn main(rt: HostRuntime) -> io::Result<()> {
    replay_lists::replay(&rt, "window.txt", 2, windows::is_window)?;
    replay_lists::replay(&rt, "weight.txt", 2, windows::is_weight)?;
    replay_lists::replay(&rt, "luma.txt", 2, windows::is_luma)?;
    let mut samples = [0; pictures::ROOM];
    replay_lists::replay(&rt, "plane.txt", 2, |case| {
        pictures::is_part(case, &mut samples)
    })?;
    replay_lists::replay(&rt, "change.txt", 2, |case| {
        pictures::is_changed(case, &mut samples)
    })
}
