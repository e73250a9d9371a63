// Slices and bytes: the small functions that several crates need. The laws on lists (tables, parts, rows, sums) stand in
// specs/, once for every element type.
#![tactic(auto)]

ghost use Rattle.std.specs.Prelude.{◌≡◌, ◌+◌, ◌*◌, ◌^◌, ◌≤◌, length, replicate};
ghost use Rattle.std.proofs.Math.Seq.{paste};
ghost use Rattle.std.specs.Float.{binary32};
ghost use Rattle.std.specs.Float.Ieee.{of_bits};
ghost use Rattle.seq.specs.Bytes.{big_endian};

// Every place +0.0.
pub fn zero_floats(s: &mut [f32])
    ensures { s.new ≡ replicate (length s.old) (of_bits binary32 0) }
{
    s.fill(0.0);
}

// The items of `from` stand in `to` from place `at` on; the rest of `to` is as it was. Item by item, since most parts are of a
// few items, for which `copy_from_slice` takes longer.
pub fn copy<T: Copy>(from: &[T], to: &mut [T], at: usize)
    requires { at + length from.now ≤ length to.old }
    ensures { to.new ≡ paste to.old at from.now (length from.now) }
{
    for (i, item) in from.iter().enumerate() {
        to[at + i] = *item;
    }
}

// Four bytes as a number, the lowest first.
pub fn little_endian(a: u8, b: u8, c: u8, d: u8) -> u32
    ensures { result ≡ a + b * 2 ^ 8 + c * 2 ^ 16 + d * 2 ^ 24 }
{
    u32::from_le_bytes([a, b, c, d])
}

// Four bytes as a number, the highest first.
pub fn from_big_endian(a: u8, b: u8, c: u8, d: u8) -> u32
    ensures { result ≡ a * 2 ^ 24 + b * 2 ^ 16 + c * 2 ^ 8 + d }
{
    u32::from_be_bytes([a, b, c, d])
}

// A number as four bytes, the highest first.
#[tactic(auto, unfolding(crate::specs::Bytes::big_endian))]
pub fn big_endian(x: u32) -> [u8; 4]
    ensures { result ≡ big_endian x }
{
    x.to_be_bytes()
}
