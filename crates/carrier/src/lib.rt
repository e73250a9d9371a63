// A picture as the carrier of 1,024 bits, in a lent work area: the bits of its blocks put into its samples, and its blocks'
// votes on the bits that they carry. For the crate `resilient`, which refuses before; the promises are equations over
// the definitions in specs/Carrier.antt.
#![tactic(auto)]

ghost use Rattle.std.specs.Prelude.{◌≡◌, ◌≤◌, length};
ghost use Rattle.picture.specs.Sizes.{Sized, plane_size, shortest_to_write};
ghost use Rattle.carrier.specs.Carrier.{cleared, marked_samples, picture_votes};

use picture::{BLOCKS, PLANE, Picture};

// Puts the blocks' bits into a picture's samples. `plane` becomes the picture's plane, and then the change of it.
fn put_bits(samples: &mut [u8], p: Picture, bits: &[u8; BLOCKS], plane: &mut [f32])
    requires { Sized p.width p.height p.channels samples.old × (shortest_to_write ≤ p.width) × (shortest_to_write ≤ p.height)
        × (length plane.old ≡ plane_size) }
    ensures length { length plane.new ≡ plane_size }
    ensures marked { samples.new ≡ marked_samples p bits.now samples.old }
{
    resample_down::plane(samples, p, plane);
    plane::embed_bits(plane, bits);
    resample_up::change_samples(plane, p, samples);
}

// The bits of a picture's blocks put into its samples, in a work area that has room for the plane and ends as zeros.
pub fn mark(samples: &mut [u8], p: Picture, bits: &[u8; BLOCKS], work: &mut [f32])
    requires { Sized p.width p.height p.channels samples.old × (shortest_to_write ≤ p.width) × (shortest_to_write ≤ p.height)
        × (plane_size ≤ length work.old) }
    ensures marked { samples.new ≡ marked_samples p bits.now samples.old }
    ensures cleared { work.new ≡ cleared work.old }
{
    put_bits(samples, p, bits, &mut work[0..PLANE]);
    seq::zero_floats(work);
}

// The votes of the picture's blocks. `plane` becomes the picture's plane.
fn plane_votes(samples: &[u8], p: Picture, plane: &mut [f32]) -> [f32; BLOCKS]
    requires { Sized p.width p.height p.channels samples.now × (length plane.old ≡ plane_size) }
    ensures length { length plane.new ≡ plane_size }
    ensures votes { result ≡ picture_votes p samples.now }
{
    resample_down::plane(samples, p, plane);
    plane::block_soft(plane)
}

// The votes of the picture's blocks, in a work area that has room for the plane and ends as zeros.
pub fn votes(samples: &[u8], p: Picture, work: &mut [f32]) -> [f32; BLOCKS]
    requires { Sized p.width p.height p.channels samples.now × (plane_size ≤ length work.old) }
    ensures votes { result ≡ picture_votes p samples.now }
    ensures cleared { work.new ≡ cleared work.old }
{
    let found = plane_votes(samples, p, &mut work[0..PLANE]);
    seq::zero_floats(work);
    found
}
