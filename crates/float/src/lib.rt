// Rust's library calls on floats that the port needs, for every value: a NaN, an infinity, both zeros,
// subnormals and numbers of every size. What each gives is defined in specs/Calls.antt, over the format;
// the laws on floats that the crates above need stand beside it.
#![tactic(auto)]

ghost use Rattle.std.specs.Prelude.{◌≡◌, max, T, from_bits};
ghost use Rattle.std.specs.Float.{binary32, binary64};
ghost use Rattle.std.specs.Float.Ieee.{lt, to_signed};
ghost use Rattle.float.specs.Base.{zero+, two_to};
ghost use Rattle.float.specs.Calls.{clamped, floor, ceil, round_away, rounded_byte, narrow, absolute, smaller, larger, in_unit, Under};

use std::num::{f32_from_bits_with_nan, saturating_f64_to_i64};

// For 0 <= x < 2^23 with the sign clear: `x.round()`. From 2^23 on an `f32` has no fraction, so adding 2^23
// and taking it off again leaves a whole number at most a half away.
fn half_up(x: f32) -> f32
    requires { Under 23 x }
    ensures { result ≡ round_away binary32 x }
{
    let near = (x + 8388608.0) - 8388608.0;
    if near + 0.5 <= x { near + 1.0 } else { near }
}

// `x.round()`: the nearest whole number, a half going away from zero.
pub fn round_f32(x: f32) -> f32
    ensures { result ≡ round_away binary32 x }
{
    if x > 0.0 {
        if x < 8388608.0 {
            return half_up(x);
        }
        return x;
    }
    if x < 0.0 {
        if x > -8388608.0 {
            return -half_up(-x);
        }
        return x;
    }
    x
}

// x brought to 0..255, and 0 for a NaN.
fn clamp_to_byte(x: f32) -> f32
    ensures { result ≡ clamped x }
{
    let low = if x > 0.0 { x } else { 0.0 };
    if low < 255.0 { low } else { 255.0 }
}

// `x.round().clamp(0.0, 255.0) as u8`. Clamped first, so that no branch is left and a loop over many samples
// can be vectorised.
pub fn round_to_u8(x: f32) -> u8
    ensures { result ≡ rounded_byte x }
{
    half_up(clamp_to_byte(x)) as u8
}

// `x.floor()`.
#[tactic(auto, using(crate::specs::Library::library_floor))]
pub fn floor_f32(x: f32) -> f32
    ensures { result ≡ floor binary32 x }
{
    x.floor()
}

// `x.floor() as i64`.
#[tactic(auto, using(crate::specs::Library::library_floor))]
pub fn floor_f64_to_i64(x: f64) -> i64
    ensures { result ≡ to_signed 63 (floor binary64 x) }
{
    saturating_f64_to_i64(x.floor())
}

// `x.ceil() as i64`.
#[tactic(auto, using(crate::specs::Library::library_ceil))]
pub fn ceil_f64_to_i64(x: f64) -> i64
    ensures { result ≡ to_signed 63 (ceil binary64 x) }
{
    saturating_f64_to_i64(x.ceil())
}

// `a.min(b)`: b where a is a NaN, a where b is one. Of two equal zeros it is a, which the library leaves open.
pub fn min_f32(a: f32, b: f32) -> f32
    ensures { result ≡ smaller a b }
{
    if a != a {
        return b;
    }
    if b < a { b } else { a }
}

// `a.max(b)`: b where a is a NaN, a where b is one, and of two equal zeros a.
pub fn max_f64(a: f64, b: f64) -> f64
    ensures { result ≡ larger a b }
{
    if a != a {
        return b;
    }
    if a < b { b } else { a }
}

// `x.abs()`.
#[tactic(auto, using(crate::specs::Library::library_absolute))]
pub fn abs_f64(x: f64) -> f64
    ensures { result ≡ absolute x }
{
    x.abs()
}

// `(-1.0..=1.0).contains(&x)`: a number from -1 to 1.
pub fn in_unit(x: f32) -> bool
    ensures { result ≡ in_unit x }
{
    -1.0 <= x && x <= 1.0
}

// `f32::from_bits(bits)`, of any 32 bits: the pattern of a NaN gives a NaN, of no particular sign or payload.
pub fn f32_from_bits(bits: u32) -> f32
    ensures { result ≡ from_bits binary32 bits }
{
    f32_from_bits_with_nan(bits)
}

// For 0 < x < 2^128. The last place of x + m is that of an `f32` of x's size, so the sum is rounded as that
// `f32` is, and taking m off again is exact.
fn narrow_in_range(x: f64) -> f32
    requires { T (lt zero+ x) × T (lt x (two_to 128)) }
    ensures { result ≡ narrow x }
{
    let e = (f64::to_bits(x) >> 52).max(897);
    let m = f64::from_bits((e + 29) << 52);
    let y = (x + m) - m;
    if y < 340282366920938463463374607431768211456.0 {
        return y as f32;
    }
    f32::from_bits(0x7f80_0000)
}

fn narrow_above_zero(x: f64) -> f32
    requires { T (lt zero+ x) }
    ensures { result ≡ narrow x }
{
    if x < 340282366920938463463374607431768211456.0 {
        return narrow_in_range(x);
    }
    f32::from_bits(0x7f80_0000)
}

// `x as f32`: the nearest `f32`, a tie going to the even one.
pub fn narrow_f64(x: f64) -> f32
    ensures { result ≡ narrow x }
{
    if x > 0.0 {
        return narrow_above_zero(x);
    }
    if x < 0.0 {
        return -narrow_above_zero(-x);
    }
    if x == 0.0 {
        return x as f32;
    }
    0.0 / 0.0
}
