// Parts of the planes of pictures, and parts of pictures with a change put onto them.
ghost use Rattle.std.specs.Prelude.{◌≡◌, ◌*◌, ◌≤◌, length, IfSome};

use picture::{LONGEST, PLANE, Picture};
use replay_lists::cases::Fields;
use replay_lists::stored::{Packed, same};
use std::num::f32_from_bits_with_nan;

// Room for the samples of a picture.
pub const ROOM: usize = 1048576;

// The longest side of a picture that a change is put onto.
const LONGEST_CHANGED: usize = 512;

// The picture of the operand, where its sides are within these bounds.
fn picture_of(raw: &mut Packed<'_>, shortest: usize, longest: usize) -> Option<Picture>
    ensures { IfSome result (λ p. (shortest ≤ p.width) × (p.width ≤ longest) × (shortest ≤ p.height) × (p.height ≤ longest)
        × (3 ≤ p.channels) × (p.channels ≤ 4)) }
{
    let width = usize::from(raw.pair()?);
    let height = usize::from(raw.pair()?);
    let channels = usize::from(raw.byte()?);
    let is_one = (shortest..=longest).contains(&width)
        && (shortest..=longest).contains(&height)
        && (3..=4).contains(&channels);
    if !is_one {
        return None;
    }
    Some(Picture {
        width,
        height,
        channels,
    })
}

// The samples of the picture, made of the pattern: its bytes one after the other, and again from its first.
fn drawn<'a>(picture: Picture, pattern: &[u8], samples: &'a mut [u8; ROOM]) -> Option<&'a mut [u8]>
    requires { (picture.width ≤ 8192) × (picture.height ≤ 8192) × (picture.channels ≤ 4) }
    ensures { IfSome result (λ s. length s.now ≡ picture.width * picture.channels * picture.height) }
{
    let samples = samples.get_mut(..picture.width * picture.channels * picture.height)?;
    for (sample, byte) in samples.iter_mut().zip(pattern.iter().cycle()) {
        *sample = *byte;
    }
    Some(samples)
}

// A picture, a place in the plane, and the pattern; the 64 values of the plane from this place on.
pub fn is_part(mut case: Fields<'_>, samples: &mut [u8; ROOM]) -> Option<bool> {
    let mut room = [0; 4096];
    let operand = case.bytes(&mut room)?;
    let expected = case.array::<256>()?;
    let mut operand = Packed::of(operand);
    let picture = picture_of(&mut operand, 1, LONGEST)?;
    let place = usize::from(operand.pair()?);
    let pattern = operand.rest();
    if pattern.is_empty() {
        return None;
    }
    let samples = drawn(picture, pattern, samples)?;
    let mut plane = [0.0; PLANE];
    resample_down::plane(samples, picture, &mut plane);
    Some(same(plane.get(place..place + 64)?, &expected))
}

// The values one after the other, and again from the first.
fn fill(change: &mut [f32], values: &[[u8; 4]]) {
    for (value, word) in change.iter_mut().zip(values.iter().cycle()) {
        *value = f32_from_bits_with_nan(u32::from_be_bytes(*word));
    }
}

// A picture, a place in the samples, the number of values of the change, the values and the pattern; the 64 samples from this
// place on.
pub fn is_changed(mut case: Fields<'_>, samples: &mut [u8; ROOM]) -> Option<bool> {
    let mut room = [0; 4096];
    let operand = case.bytes(&mut room)?;
    let expected = case.array::<64>()?;
    let mut operand = Packed::of(operand);
    let picture = picture_of(&mut operand, 256, LONGEST_CHANGED)?;
    let place = operand.word()? as usize;
    let values = 4 * usize::from(operand.byte()?);
    let (values, pattern) = operand.rest().split_at_checked(values)?;
    if values.is_empty() || pattern.is_empty() {
        return None;
    }
    let samples = drawn(picture, pattern, samples)?;
    let mut change = [0.0; PLANE];
    fill(&mut change, values.as_chunks().0);
    resample_up::change_samples(&change, picture, samples);
    Some(samples.get(place..place + 64)? == expected.as_slice())
}
