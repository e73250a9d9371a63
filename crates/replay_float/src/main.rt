// Replays the Rust's stored answers for crate `float`: a list for each call, of one or two operands and results by their bits.
// Every NaN is written as one pattern. Prints for each list how many were compared and how many differ.
#![tactic(auto)]

use replay_lists::cases::Fields;
use std::io;
use std::num::{f32_to_bits_with_nan, f64_from_bits_with_nan, f64_to_bits_with_nan};
use std::rt::Files;

// The f32 of the bits, whose upper half does not count.
fn narrow(bits: u64) -> f32 {
    float::f32_from_bits((bits & 0xffff_ffff) as u32)
}

// The list in the file `name` for a call that takes one operand: the closure gives the bits of its result.
fn one<F: Fn(u64) -> u64>(rt: &(impl Files + Print + Eprint), name: &str, call: F) -> io::Result<()>
    requires { F.IsAlwaysCallable call }
{
    replay_lists::replay(rt, name, 2, |mut case: Fields<'_>| {
        let x = case.number()?;
        Some(call(x) == case.number()?)
    })
}

// The same for a call that takes two.
fn two<F: Fn(u64, u64) -> u64>(
    rt: &(impl Files + Print + Eprint),
    name: &str,
    call: F,
) -> io::Result<()>
    requires { F.IsAlwaysCallable call }
{
    replay_lists::replay(rt, name, 3, |mut case: Fields<'_>| {
        let x = case.number()?;
        let y = case.number()?;
        Some(call(x, y) == case.number()?)
    })
}

// The list for a call from f32 to f32.
fn of_f32<F: Fn(f32) -> f32>(
    rt: &(impl Files + Print + Eprint),
    name: &str,
    call: F,
) -> io::Result<()>
    requires { F.IsAlwaysCallable call }
{
    one(
        rt,
        name,
        |x| u64::from(f32_to_bits_with_nan(call(narrow(x)))),
    )
}

fn main(rt: HostRuntime) -> io::Result<()> {
    of_f32(&rt, "round_f32.txt", float::round_f32)?;
    of_f32(&rt, "floor_f32.txt", float::floor_f32)?;
    one(
        &rt,
        "round_to_u8.txt",
        |x| u64::from(float::round_to_u8(narrow(x))),
    )?;
    one(&rt, "in_unit.txt", |x| u64::from(float::in_unit(narrow(x))))?;
    of_f32(&rt, "f32_from_bits.txt", |x| x)?;
    one(&rt, "floor_f64_to_i64.txt", |x| {
        float::floor_f64_to_i64(f64_from_bits_with_nan(x)).cast_unsigned()
    })?;
    one(&rt, "ceil_f64_to_i64.txt", |x| {
        float::ceil_f64_to_i64(f64_from_bits_with_nan(x)).cast_unsigned()
    })?;
    one(
        &rt,
        "abs_f64.txt",
        |x| f64_to_bits_with_nan(float::abs_f64(f64_from_bits_with_nan(x))),
    )?;
    one(&rt, "narrow_f64.txt", |x| {
        u64::from(f32_to_bits_with_nan(float::narrow_f64(f64_from_bits_with_nan(x))))
    })?;
    two(&rt, "min_f32.txt", |x, y| {
        u64::from(f32_to_bits_with_nan(float::min_f32(narrow(x), narrow(y))))
    })?;
    two(&rt, "max_f64.txt", |x, y| {
        f64_to_bits_with_nan(float::max_f64(f64_from_bits_with_nan(x), f64_from_bits_with_nan(y)))
    })
}
