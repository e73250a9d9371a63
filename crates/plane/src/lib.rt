// The mark on the 256 x 256 plane, for the crate `carrier`: the change that puts a bit into each of its 1,024 blocks,
// and each block's vote on the bit that it carries. The promises are equations over the definitions in
// specs/Plane.antt, for every value; specs/Finite.antt has the bounds for the plane of a picture.
#![tactic(auto)]

ghost use Rattle.std.specs.Prelude.{◌≡◌, ◌+◌, ◌*◌, ◌<◌, length, get_or};
ghost use Rattle.std.specs.Float.{nan, binary32};
ghost use Rattle.std.specs.Float.Ieee.{sub};
ghost use Rattle.seq.specs.Lists.{tab};
ghost use Rattle.dct.specs.Grid.{grid, cell};
ghost use Rattle.block.specs.Plane.{load_of};
ghost use Rattle.plane.specs.Plane.{dither_four, dither_group, block_change, block_vote, change_of, votes_of};
ghost use Rattle.picture.specs.Sizes.{block_count, plane_size};

use block::{block_vote, load_block, mark_block, store_block};
use dct::Transform;
use dither::dither;
use picture::BLOCKS;

// The dither's numbers come for four blocks at a time.
const IN_GROUP: usize = 4;

// The dither numbers of the plane's blocks, block after block: those of four blocks are kept, so that each four are made once.
#[derive(Drop)]
struct BlockDither {
    group: usize,
    numbers: [f32; 16],
    ghost of_group: { numbers ≡ dither_group group },
}

impl BlockDither {
    fn new() -> Self {
        BlockDither {
            group: 0,
            numbers: dither(0),
        }
    }

    // The four numbers of block b.
    fn of(&mut self, b: usize) -> [f32; 4]
        requires { b < block_count }
        ensures { result ≡ dither_four b }
    {
        let group = b / IN_GROUP;
        if group != self.group {
            *self = BlockDither {
                group,
                numbers: dither(group as u32),
            };
        }
        four(&self.numbers, b % IN_GROUP)
    }
}

// The dither numbers of the k-th of four blocks, out of the sixteen of all four.
fn four(u: &[f32; 16], k: usize) -> [f32; 4]
    requires { k < 4 }
    ensures { result ≡ tab (λ i. get_or u.now (4 * k + i) nan) 4 }
{
    let i = IN_GROUP * k;
    [u[i], u[i + 1], u[i + 2], u[i + 3]]
}

// x less y, place by place.
fn difference(x: &[f32; 64], y: &[f32; 64]) -> [f32; 64]
    ensures { result ≡ grid (λ r c. sub binary32 (cell x.now r c) (cell y.now r c)) }
{
    std::array::from_fn(|i: usize| x[i] - y[i])
}

// What changes in a block when the bit is put into it.
fn block_change(values: &[f32; 64], u: [f32; 4], bit: u8, transform: &Transform) -> [f32; 64]
    ensures { result ≡ block_change u bit values.now }
{
    let mut marked = *values;
    transform.forward(&mut marked);
    mark_block(&mut marked, u, bit);
    transform.inverse(&mut marked);
    difference(&marked, values)
}

// The plane becomes the change that puts the blocks' bits into it: block by block, so that no second plane is needed.
pub fn embed_bits(plane: &mut [f32], bits: &[u8; BLOCKS])
    requires { length plane.old ≡ plane_size }
    ensures { plane.new ≡ change_of bits.now plane.old }
{
    let transform = Transform::new();
    let mut dither = BlockDither::new();
    for b in 0..BLOCKS {
        let values = load_block(plane, b);
        let change = block_change(&values, dither.of(b), bits[b], &transform);
        store_block(plane, b, &change);
    }
}

// The vote of block b.
fn vote(plane: &[f32], b: usize, u: [f32; 4], transform: &Transform) -> f32
    requires { (b < block_count) × (length plane.now ≡ plane_size) }
    ensures { result ≡ block_vote u (load_of plane.now b) }
{
    let mut values = load_block(plane, b);
    transform.forward(&mut values);
    block_vote(&values, u)
}

// The vote of each block of the plane. Not inlined, so that it takes no stack while a reader makes the plane.
#[inline(never)]
pub fn block_soft(plane: &[f32]) -> [f32; BLOCKS]
    requires { length plane.now ≡ plane_size }
    ensures { result ≡ votes_of plane.now }
{
    let transform = Transform::new();
    let mut dither = BlockDither::new();
    let mut votes = [0.0f32; BLOCKS];
    for (b, v) in votes.iter_mut().enumerate() {
        *v = vote(plane, b, dither.of(b), &transform);
    }
    votes
}
