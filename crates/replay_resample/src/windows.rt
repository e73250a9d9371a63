// Windows, the weights of source numbers, and the luma of rows.
ghost use Rattle.std.specs.Prelude.{◌≡◌, ◌*◌, ◌≤◌, length};

use replay_lists::cases::Fields;
use replay_lists::stored::{Packed, same};
use resample_four::shares::Shares;
use resample_window::Window;
use std::num::{
    f32_to_bits_with_nan, f64_from_bits_with_nan, f64_to_bits_with_nan, nearest_i64_to_f64,
};

// The window of a source size, an output size and an output number.
fn window_of(raw: &mut Packed<'_>) -> Option<Window> {
    let src = usize::from(raw.pair()?);
    let dst = usize::from(raw.pair()?);
    let i = usize::from(raw.pair()?);
    Some(Window::new(src, dst, i))
}

// A window; first and last number, centre, support and sum.
pub fn is_window(mut case: Fields<'_>) -> Option<bool> {
    let operand = case.array::<6>()?;
    let expected = case.array::<40>()?;
    let w = window_of(&mut Packed::of(&operand))?;
    let mut expected = Packed::of(&expected);
    let first = nearest_i64_to_f64(w.first);
    let last = nearest_i64_to_f64(w.last);
    Some(
        f64_to_bits_with_nan(first) == expected.number()?
            && f64_to_bits_with_nan(last) == expected.number()?
            && f64_to_bits_with_nan(w.center) == expected.number()?
            && f64_to_bits_with_nan(w.support) == expected.number()?
            && f64_to_bits_with_nan(w.sum) == expected.number()?,
    )
}

// A window and a number; 1 and the weight, or zeros.
pub fn is_weight(mut case: Fields<'_>) -> Option<bool> {
    let operand = case.array::<14>()?;
    let expected = case.array::<5>()?;
    let mut operand = Packed::of(&operand);
    let window = window_of(&mut operand)?;
    let j = float::floor_f64_to_i64(f64_from_bits_with_nan(operand.number()?));
    let mut expected = Packed::of(&expected);
    let stored = (expected.byte()?, expected.word()?);
    Some(
        stored
            == window
                .weight(j)
                .map_or((0, 0), |q| (1, f32_to_bits_with_nan(q))),
    )
}

// The luma of a row, a value for each pixel. `comparison` has the same lines: nothing below both wants a whole row's.
fn luma(row: &[u8], channels: usize, out: &mut [f32])
    requires { (3 ≤ channels) × (channels ≤ 4) × (length row.now ≡ length out.old * channels) }
{
    let shares = Shares::new();
    for (x, value) in out.iter_mut().enumerate() {
        *value = shares.luma(row, x * channels);
    }
}

// Channels and the samples of a row; the luma of its pixels.
pub fn is_luma(mut case: Fields<'_>) -> Option<bool> {
    let mut room = [0; 4096];
    let (channels, row) = case.bytes(&mut room)?.split_first()?;
    let mut room = [0; 256];
    let expected = case.bytes(&mut room)?;
    let channels = usize::from(*channels);
    let mut values = [0.0; 64];
    let values = values.get_mut(..expected.len() / 4)?;
    if !(3..=4).contains(&channels) || row.len() != values.len() * channels {
        return None;
    }
    luma(row, channels, values);
    Some(same(values, expected))
}
