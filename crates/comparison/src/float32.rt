// Crate `float`, the calls on `f32`.
ghost use Rattle.std.specs.Prelude.{◌≡◌};
ghost use Rattle.std.specs.Float.{binary32};
ghost use Rattle.std.specs.Float.Ieee.{of_bits};
ghost use Rattle.float.specs.Calls.{floor, round_away, rounded_byte, smaller, in_unit};
ghost use Rattle.comparison.specs.Bulk.{rounded_into};

#[unsafe(no_mangle)]
pub extern "C" fn vk_round_f32(x: f32) -> f32
    ensures { result ≡ round_away binary32 x }
{
    float::round_f32(x)
}

#[unsafe(no_mangle)]
pub extern "C" fn vk_floor_f32(x: f32) -> f32
    ensures { result ≡ floor binary32 x }
{
    float::floor_f32(x)
}

#[unsafe(no_mangle)]
pub extern "C" fn vk_min_f32(a: f32, b: f32) -> f32
    ensures { result ≡ smaller a b }
{
    float::min_f32(a, b)
}

#[unsafe(no_mangle)]
pub extern "C" fn vk_round_to_u8(x: f32) -> u8
    ensures { result ≡ rounded_byte x }
{
    float::round_to_u8(x)
}

#[unsafe(no_mangle)]
pub extern "C" fn vk_f32_from_bits(bits: u32) -> f32
    ensures { result ≡ of_bits binary32 bits }
{
    float::f32_from_bits(bits)
}

#[unsafe(no_mangle)]
pub extern "C" fn vk_in_unit(x: f32) -> bool
    ensures { result ≡ in_unit x }
{
    float::in_unit(x)
}

// `round_to_u8` of each value, where the two lists are equally long, for the benchmark.
#[unsafe(no_mangle)]
pub extern "C" fn vk_round_all_to_u8(from: &[f32], to: &mut [u8])
    ensures { to.new ≡ rounded_into from.now to.old }
{
    if from.len() != to.len() {
        return;
    }
    for (i, byte) in to.iter_mut().enumerate() {
        *byte = float::round_to_u8(from[i]);
    }
}
