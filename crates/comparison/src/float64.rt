// Crate `float`, the calls on `f64`.
ghost use Rattle.std.specs.Prelude.{◌≡◌};
ghost use Rattle.std.specs.Float.{binary64};
ghost use Rattle.std.specs.Float.Ieee.{to_signed};
ghost use Rattle.float.specs.Calls.{floor, ceil, narrow, absolute, larger};

#[unsafe(no_mangle)]
pub extern "C" fn vk_floor_f64_to_i64(x: f64) -> i64
    ensures { result ≡ to_signed 63 (floor binary64 x) }
{
    float::floor_f64_to_i64(x)
}

#[unsafe(no_mangle)]
pub extern "C" fn vk_ceil_f64_to_i64(x: f64) -> i64
    ensures { result ≡ to_signed 63 (ceil binary64 x) }
{
    float::ceil_f64_to_i64(x)
}

#[unsafe(no_mangle)]
pub extern "C" fn vk_max_f64(a: f64, b: f64) -> f64
    ensures { result ≡ larger a b }
{
    float::max_f64(a, b)
}

#[unsafe(no_mangle)]
pub extern "C" fn vk_abs_f64(x: f64) -> f64
    ensures { result ≡ absolute x }
{
    float::abs_f64(x)
}

#[unsafe(no_mangle)]
pub extern "C" fn vk_narrow_f64(x: f64) -> f32
    ensures { result ≡ narrow x }
{
    float::narrow_f64(x)
}
