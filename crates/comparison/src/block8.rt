// Crates `dct` and `block`. The transform is made at each call, but once for all blocks of `vk_there_and_back`.
ghost use Rattle.std.specs.Prelude.{◌≡◌, ◌%◌, ◌<◌};
ghost use Rattle.dct.specs.Dct.{forward_of, inverse_of};
ghost use Rattle.block.specs.Mark.{marked_block};
ghost use Rattle.block.specs.Soft.{vote_of};
ghost use Rattle.block.specs.Plane.{load_of, stored_of};
ghost use Rattle.comparison.specs.Blocks.{block_there_and_back, there_and_back};
ghost use Rattle.picture.specs.Sizes.{block_count};

use dct::Transform;
use picture::{BLOCKS, PLANE};

#[unsafe(no_mangle)]
pub extern "C" fn vk_forward(values: &mut [f32; 64])
    ensures { values.new ≡ forward_of values.old }
{
    Transform::new().forward(values);
}

#[unsafe(no_mangle)]
pub extern "C" fn vk_inverse(values: &mut [f32; 64])
    ensures { values.new ≡ inverse_of values.old }
{
    Transform::new().inverse(values);
}

#[unsafe(no_mangle)]
pub extern "C" fn vk_mark_block(values: &mut [f32; 64], u: &[f32; 4], bit: u8)
    ensures { values.new ≡ marked_block u.now bit values.old }
{
    block::mark_block(values, *u, bit);
}

#[unsafe(no_mangle)]
pub extern "C" fn vk_block_vote(values: &[f32; 64], u: &[f32; 4]) -> f32
    ensures { result ≡ vote_of u.now values.now }
{
    block::block_vote(values, *u)
}

#[unsafe(no_mangle)]
pub extern "C" fn vk_load_block(plane: &[f32; PLANE], b: u16, values: &mut [f32; 64])
    ensures { values.new ≡ load_of plane.now (b % block_count) }
{
    *values = block::load_block(plane, usize::from(b) % BLOCKS);
}

#[unsafe(no_mangle)]
pub extern "C" fn vk_store_block(plane: &mut [f32; PLANE], b: u16, values: &[f32; 64])
    ensures { plane.new ≡ stored_of plane.old (b % block_count) values.now }
{
    block::store_block(plane, usize::from(b) % BLOCKS, values);
}

fn block_there_and_back(plane: &mut [f32; PLANE], b: usize, transform: &Transform)
    requires { b < block_count }
    ensures { plane.new ≡ block_there_and_back plane.old b }
{
    let mut values = block::load_block(plane, b);
    transform.forward(&mut values);
    transform.inverse(&mut values);
    block::store_block(plane, b, &values);
}

// Each block of the plane transformed, and transformed back.
#[unsafe(no_mangle)]
pub extern "C" fn vk_there_and_back(plane: &mut [f32; PLANE])
    ensures { plane.new ≡ there_and_back block_count plane.old }
{
    let transform = Transform::new();
    for b in 0..BLOCKS {
        block_there_and_back(plane, b, &transform);
    }
}
