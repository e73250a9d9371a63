// The 8x8 block (sections 13 and 14 of the scope), for the crate `plane`: the marking of a block's four coefficients with a bit, a
// block's vote, and blocks out of the 256 x 256 plane and into it.
// Every promise is an equation over the definitions in specs/, for every value, finite or not; that a vote of
// values within a bound lies from -1 to 1, and how large values can become, are laws about those definitions.
#![tactic(auto)]

ghost use Rattle.std.specs.Prelude.{◌≡◌, [], ◌∷◌, ◌≤◌, ◌<◌, length, get_or};
ghost use Rattle.std.specs.Float.{nan};
ghost use Rattle.dct.specs.Grid.{cell, block_line};
ghost use Rattle.block.specs.Mark.{marked_of, marked_block};
ghost use Rattle.block.specs.Soft.{term_of, mean_of_four, vote_of};
ghost use Rattle.block.specs.Plane.{line_at, load_of, stored_of};
ghost use Rattle.picture.specs.Sizes.{block_count, plane_size};

use float::{floor_f32, min_f32, round_f32};

// The places of the coefficients (1,1), (1,2), (2,1) and (2,2), which carry the bit. They are written out where they
// are used, as one equation of the values: a loop's invariant would say the same for so many of the four.
const COEFFICIENTS: [usize; 4] = [9, 10, 17, 18];

fn marked(v: f32, u: f32, half: f32) -> f32
    ensures { result ≡ marked_of v u half }
{
    (round_f32(v / 16.0 - u - half) + u + half) * 16.0
}

// Marks the coefficients (1,1), (1,2), (2,1), (2,2) of a transformed block with the bit, by the block's four
// dither numbers.
pub fn mark_block(values: &mut [f32; 64], u: [f32; 4], bit: u8)
    ensures { values.new ≡ marked_block u bit values.old }
{
    let half = bit as f32 * 0.5;
    let [a, b, c, d] = COEFFICIENTS;
    values[a] = marked(values[a], u[0], half);
    values[b] = marked(values[b], u[1], half);
    values[c] = marked(values[c], u[2], half);
    values[d] = marked(values[d], u[3], half);
}

fn vote_term(v: f32, u: f32) -> f32
    ensures { result ≡ term_of v u }
{
    let x = v / 16.0 - u;
    let r = x - floor_f32(x);
    1.0 - 4.0 * min_f32(r, 1.0 - r)
}

// The mean of four terms, summed in their order from -0.0.
fn mean(a: f32, b: f32, c: f32, d: f32) -> f32
    ensures { result ≡ mean_of_four (λ k. get_or (a ∷ b ∷ c ∷ d ∷ []) k nan) }
{
    (-0.0f32 + a + b + c + d) / 4.0
}

// What a transformed block says of its bit: from 1, a clear 0, to -1, a clear 1, for samples of a picture.
pub fn block_vote(values: &[f32; 64], u: [f32; 4]) -> f32
    ensures { result ≡ vote_of u values.now }
{
    let [a, b, c, d] = COEFFICIENTS;
    mean(
        vote_term(values[a], u[0]),
        vote_term(values[b], u[1]),
        vote_term(values[c], u[2]),
        vote_term(values[d], u[3]),
    )
}

// Where line r of block b starts in the plane. b and r are numbers of loops: a type for the bound of each would say no more.
fn line_at(b: usize, r: usize) -> usize
    requires { (b < block_count) × (r < 8) }
    ensures { result ≡ line_at b r }
{
    (b / 32 * 8 + r) * 256 + b % 32 * 8
}

// Block b of the plane, which stands first in what is lent. r is a line of the block and of the plane, not a place in a list.
pub fn load_block(plane: &[f32], b: usize) -> [f32; 64]
    requires { (b < block_count) × (plane_size ≤ length plane.now) }
    ensures { result ≡ load_of plane.now b }
{
    let mut values = [0.0f32; 64];
    for r in 0..8 {
        let at = line_at(b, r);
        seq::copy(&plane[at..at + 8], &mut values, r * 8);
    }
    values
}

// Block b of the plane becomes the values; every other place of what is lent stays.
pub fn store_block(plane: &mut [f32], b: usize, values: &[f32; 64])
    requires { (b < block_count) × (plane_size ≤ length plane.old) }
    ensures { plane.new ≡ stored_of plane.old b values.now }
{
    for r in 0..8 {
        let at = line_at(b, r);
        // By value, since a part of one list goes into another float by float, which takes three times as long.
        let line: [f32; 8] = std::array::from_fn(|c: usize| values[r * 8 + c]);
        seq::copy(&line, plane, at);
    }
}
