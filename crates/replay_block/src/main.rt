// Replays the Rust's stored answers for the crates `dct` and `block`: blocks of 64 floats by their bits, four bytes each, the
// high one first, and what the Rust makes of them; and where a block stands in the plane. Every NaN is written as one pattern.
// Prints for each list how many were compared and how many differ.
#![tactic(auto)]

mod places;

use dct::Transform;
use replay_lists::cases::Fields;
use replay_lists::stored::{Packed, floats, same};
use std::io;

fn forward(mut values: [f32; 64]) -> [f32; 64] {
    Transform::new().forward(&mut values);
    values
}

fn inverse(mut values: [f32; 64]) -> [f32; 64] {
    Transform::new().inverse(&mut values);
    values
}

// A block, brought forward. This and the next are two functions, since no proof was found that a closure which calls a closure
// from block to block may be called.
fn forwards(mut case: Fields<'_>) -> Option<bool> {
    let values = forward(floats(&case.array::<256>()?));
    Some(same(&values, &case.array::<256>()?))
}

// A block, brought back.
fn inverses(mut case: Fields<'_>) -> Option<bool> {
    let values = inverse(floats(&case.array::<256>()?));
    Some(same(&values, &case.array::<256>()?))
}

// A block brought forward, the four dither numbers of its group, and its bit.
#[derive(Clone, Copy)]
struct Operand {
    values: [f32; 64],
    dither: [f32; 4],
    bit: u8,
}

impl Operand {
    fn of(case: &mut Fields<'_>) -> Option<Self> {
        let bytes = case.array::<273>()?;
        let mut bytes = Packed::of(&bytes);
        let values = forward(floats(&bytes.array::<256>()?));
        Some(Operand {
            values,
            dither: floats(&bytes.array::<16>()?),
            bit: bytes.byte()?,
        })
    }
}

fn marks(mut case: Fields<'_>) -> Option<bool> {
    let Operand {
        mut values,
        dither,
        bit,
    } = Operand::of(&mut case)?;
    block::mark_block(&mut values, dither, bit);
    Some(same(&inverse(values), &case.array::<256>()?))
}

fn votes(mut case: Fields<'_>) -> Option<bool> {
    let Operand { values, dither, .. } = Operand::of(&mut case)?;
    let vote = block::block_vote(&values, dither);
    Some(same(&[vote], &case.array::<4>()?))
}

fn main(rt: HostRuntime) -> io::Result<()> {
    replay_lists::replay(&rt, "forward.txt", 2, forwards)?;
    replay_lists::replay(&rt, "inverse.txt", 2, inverses)?;
    replay_lists::replay(&rt, "mark.txt", 2, marks)?;
    replay_lists::replay(&rt, "vote.txt", 2, votes)?;
    replay_lists::replay(&rt, "load.txt", 2, places::loads)?;
    replay_lists::replay(&rt, "store.txt", 2, places::stores)
}
