// The dither: numbers from 0 up to, not including, 1, four for each block of the picture. Number n is word n of the keystream
// of the layout's key with nonce 1, without its low eight bits, over 2^24. A ChaCha20 block has the sixteen numbers of four
// picture blocks, so each is made where it is used and none is kept. The picture's 1,024 blocks take 256 of the 2^32 blocks that a
// keystream has, so that it does not end here.
#![tactic(auto)]

ghost use Rattle.std.specs.Prelude.{◌≡◌, ◌+◌, ◌*◌, ◌/◌, ◌^◌, pos};
ghost use Rattle.seq.specs.Lists.{tab};
ghost use Rattle.std.specs.Float.{binary32};
ghost use Rattle.std.specs.Float.Ieee.{div, of_int};
ghost use Rattle.float.specs.Base.{two_to};
ghost use Rattle.dither.specs.Dither.{dither_of, dithered};

// The layout's public key: the 24 bytes "iwm v3 public layout key" and eight zeros.
const LAYOUT_KEY: [u8; 32] = *b"iwm v3 public layout key\0\0\0\0\0\0\0\0";

const NONCE: [u8; 12] = [1, 0, 0, 0, 0, 0, 0, 0, 0, 0, 0, 0];

// Numbers 16 * group to 16 * group + 15: those of the picture's blocks 4 * group to 4 * group + 3.
pub fn dither(group: u32) -> [f32; 16]
    ensures { result ≡ tab (λ k. dither_of (16 * group + k)) 16 }
{
    numbers(&chacha20::block(&LAYOUT_KEY, group, &NONCE))
}

fn numbers(bytes: &[u8; 64]) -> [f32; 16]
    ensures { result ≡ tab (dithered bytes.now) 16 }
{
    std::array::from_fn(|k: usize| {
        let i = 4 * k;
        number(u32::from_le_bytes([bytes[i], bytes[i + 1], bytes[i + 2], bytes[i + 3]]))
    })
}

// The 24 bits and 2^24 are floats as they stand, and so is the quotient: nothing is rounded.
fn number(word: u32) -> f32
    ensures { result ≡ div binary32 (of_int binary32 (pos (word / 2 ^ 8))) (two_to 24) }
{
    (word / 256) as f32 / 16777216.0
}
