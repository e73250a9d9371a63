// Replays the Rust's stored answers for the crates `resilient`, `admission` and `extract`: data/marks.txt has texts written
// into pictures of 512 x 512, the smallest that can be written, and read from them. Then the limits of what is taken, and
// which refusal is given where two apply; pictures of a few pixels and damaged ones, and votes under a key. All memory is
// lent with something in it and looked at after each call.
#![tactic(auto)]

mod expected;
mod lent;
mod limits;
mod marks;
mod order;
mod pictures;

use lent::{FOUR, PLACES, Samples, Work};
use picture::Picture;
use std::io;
use std::rt::Files;

// Short, since a line of the limits names a picture and all that is said of it.
fn shape(width: usize, height: usize, channels: usize) -> Picture {
    Picture {
        width,
        height,
        channels,
    }
}

fn square(channels: usize) -> Picture {
    shape(512, 512, channels)
}

// Lent as arrays the two areas have their lengths by type.
fn run(
    rt: &(impl Files + Print + Eprint),
    samples: &mut Samples,
    work: &mut Work,
) -> io::Result<()> {
    marks::list(rt, "marks.txt", samples, work)?;
    limits::limits().report(rt, "limits")?;
    order::order(samples, work).report(rt, "order")?;
    pictures::pictures(samples, work).report(rt, "pictures")?;
    pictures::keyed(rt, "keyed")
}

fn main(rt: HostRuntime) -> io::Result<()> {
    let mut samples = [0; FOUR];
    let mut work = [0.0; PLACES];
    run(&rt, &mut samples, &mut work)
}
