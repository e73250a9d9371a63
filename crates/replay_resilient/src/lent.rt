// The memory that is lent. It has something in it, which is looked at after each call: the samples by their CRC-32, the work area,
// which has room to spare, place by place.
use crate::expected::{Expected, Refused, seen};
use crc32::crc32;
use picture::Picture;
use record::Text;
use std::num::{f32_from_bits_with_nan, f32_to_bits_with_nan};

// Samples of four channels, and of three.
pub const FOUR: usize = 1048576;

pub const THREE: usize = 786432;

// What writing needs, and some more.
pub const PLACES: usize = 655360 + 64;

// The two areas stand as two arrays: a struct of both has its lengths proved anew at each part that is lent, which took too long.
pub type Samples = [u8; FOUR];

pub type Work = [f32; PLACES];

// Whether writing is refused so, and the samples and the work area stay as they were lent.
pub fn refuses_to_write(
    samples: &mut [u8],
    work: &mut [f32],
    picture: Picture,
    text: &[u8],
    (refusal, number, given): Refused,
) -> bool {
    lend(work);
    let before = crc32(samples);
    let answer = resilient::write(samples, picture, text, None, work);
    seen(answer) == (Err(refusal), number, given) && crc32(samples) == before && is_as_lent(work)
}

// The same of reading.
pub fn refuses_to_read(
    samples: &[u8],
    work: &mut [f32],
    picture: Picture,
    (refusal, number, given): Refused,
) -> bool {
    lend(work);
    let answer = resilient::read(samples, picture, None, work);
    seen(answer) == (Err(refusal), number, given) && is_as_lent(work)
}

// Whether samples, of a picture that is not refused, are read so: the work area is used, whatever the record says.
pub fn reads(samples: &[u8], work: &mut Work, picture: Picture, expected: Expected<Text>) -> bool {
    lend(work);
    let answer = resilient::read(samples, picture, None, work);
    seen(answer) == expected && is_used(work)
}

// The sample at a place, by the formula that the list was made with.
fn sample(place: usize) -> u8 {
    let p = place % FOUR;
    ((p * 7 + p / 512 * 13 + p % 1021 * 5 + p % 97 * 3) % 256) as u8
}

pub fn draw(samples: &mut [u8]) {
    for (place, value) in samples.iter_mut().enumerate() {
        *value = sample(place);
    }
}

// The bits that a place of the work area is lent with: another number in each, none of them 0.
fn lent_bits(place: usize) -> u32 {
    (place % FOUR) as u32 + 1
}

pub fn lend(work: &mut [f32]) {
    for (place, value) in work.iter_mut().enumerate() {
        *value = f32_from_bits_with_nan(lent_bits(place));
    }
}

pub fn is_as_lent(work: &[f32]) -> bool {
    work.iter().enumerate().all(|(place, value)| f32_to_bits_with_nan(*value) == lent_bits(place))
}

// Whether +0.0 is left everywhere.
pub fn is_used(work: &[f32]) -> bool {
    work.iter().all(|value| f32_to_bits_with_nan(*value) == 0)
}
