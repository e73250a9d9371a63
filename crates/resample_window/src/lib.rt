// The triangle kernel (section 15 of the scope): which source numbers each output sample reads, and with what weights.
// `Window`, `tent`, `weight` and `taps` are those of the Rust. Every promise is an equation over the definitions in
// specs/Window.antt; what bounds a window, its taps and its weights is the crate `resample_window_laws`.
#![tactic(auto)]

ghost use Rattle.std.specs.Prelude.{◌≡◌, ◌+◌, ◌^◌, ◌<◌, ◌≤◌, length, Option, pos, ◌+ℤ◌};
ghost use Rattle.std.proofs.Math.Seq.{paste};
ghost use Rattle.std.specs.Int.Signed.{mag};
ghost use Rattle.seq.specs.Lists.{filled};
ghost use Rattle.resample_window.specs.Window.{tent_of, weight_of, tent_sum, numbers, is_side, has_window, empty, unsummed, with_sum, window_of, clamp_of, taps_of, Small, start, tap_sources, tap_weights, all_taps, onto};

pub mod walk;

use float::{abs_f64, ceil_f64_to_i64, floor_f64_to_i64, max_f64, narrow_f64};
use picture::LONGEST;
use std::num::nearest_i64_to_f64;
use walk::WindowTaps;

// The source numbers that one output sample reads run from `first` to `last`; `sum` is the sum of their positive
// tents.
#[derive(Clone, Copy)]
pub struct Window {
    pub first: i64,
    pub last: i64,
    pub center: f64,
    pub support: f64,
    pub sum: f64,
}

// A source number after it is clamped to the edge, and its weight.
#[derive(Clone, Copy)]
pub struct Tap {
    pub from: usize,
    pub weight: f32,
}

impl Window {
    // The window of output sample i of dst, from src samples. A size of 0 or over 8,192, and an i that is not below dst,
    // have the window without a number.
    pub fn new(src: usize, dst: usize, i: usize) -> Window
        ensures { result ≡ window_of src dst i }
    {
        if has_window(src, dst, i) {
            sample_window(src, dst, i)
        } else {
            empty()
        }
    }

    pub fn tent(self, j: i64) -> f64
        ensures { result ≡ tent_of self j }
    {
        1.0 - abs_f64((nearest_i64_to_f64(j) - self.center) / self.support)
    }

    // Of the number as it stands, before it is clamped to the edge; none where the kernel does not reach it.
    pub fn weight(self, j: i64) -> Option<f32>
        ensures { result ≡ weight_of self j }
    {
        let tent = self.tent(j);
        let sum = self.sum;
        if tent > 0.0 {
            Some(narrow_f64(tent) / narrow_f64(sum))
        } else {
            None
        }
    }

    // The numbers that have a weight, in rising order, clamped to those of src samples.
    pub fn taps(self, src: usize) -> WindowTaps
        requires { Small self × (0 < src) }
        ensures { result ≡ taps_of self src }
    {
        WindowTaps::new(self, src)
    }

    fn sum_tents(self) -> f64
        ensures { result ≡ tent_sum self (numbers self.first self.last) }
    {
        let mut sum = 0.0f64;
        for j in self.first..=self.last {
            let t = self.tent(j);
            if t > 0.0 {
                sum += t;
            }
        }
        sum
    }

    fn summed(self) -> Window
        ensures { result ≡ with_sum self }
    {
        Window {
            sum: self.sum_tents(),
            ..self
        }
    }
}

// How many source numbers there are from first to last.
pub fn count(first: i64, last: i64) -> usize
    requires { (mag first < 2 ^ 30) × (mag last < 2 ^ 30) }
    ensures { result ≡ numbers first last }
{
    if last < first {
        return 0;
    }
    (last - first) as usize + 1
}

// Number k of those from first on.
pub fn nth(first: i64, k: usize) -> i64
    requires { (mag first < 2 ^ 30) × (k ≤ 2 ^ 32) }
    ensures { result ≡ first +ℤ pos k }
{
    first + k as i64
}

// A side that a picture may have.
pub fn is_side(n: usize) -> bool
    ensures { result ≡ is_side n }
{
    0 < n && n <= LONGEST
}

fn has_window(src: usize, dst: usize, i: usize) -> bool
    ensures { result ≡ has_window src dst i }
{
    is_side(src) && is_side(dst) && i < dst
}

fn empty() -> Window
    ensures { result ≡ empty }
{
    Window {
        first: 0,
        last: -1,
        center: 0.0,
        support: 1.0,
        sum: 0.0,
    }
}

fn unsummed(center: f64, support: f64) -> Window
    ensures { result ≡ unsummed center support }
{
    Window {
        first: ceil_f64_to_i64(center - support),
        last: floor_f64_to_i64(center + support),
        center,
        support,
        sum: 0.0,
    }
}

fn sample_window(src: usize, dst: usize, i: usize) -> Window
    requires { (0 < src) × (src ≤ 8192) × (0 < dst) × (dst ≤ 8192) × (i < dst) }
    ensures { result ≡ window_of src dst i }
{
    let scale = src as f64 / dst as f64;
    let center = (i as f64 + 0.5) * scale - 0.5;
    unsummed(center, max_f64(scale, 1.0)).summed()
}

// j clamped to the edge: to 0 .. src - 1.
pub fn clamp(j: i64, src: usize) -> usize
    requires { 0 < src }
    ensures { result ≡ clamp_of src j }
{
    match usize::try_from(j) {
        Ok(k) => k.min(src - 1),
        Err(_) => 0,
    }
}

// Adds the taps of a window from place n on, and answers the place after them.
fn push(w: Window, src: usize, n: usize, index: &mut [u16], weight: &mut [f32]) -> usize
    requires { Small w × (0 < src) × (src ≤ 8192) × (n + length (taps_of w src) ≤ length index.old) × (length weight.old ≡ length index.old) }
    ensures place { result ≡ n + length (taps_of w src) }
    ensures from { index.new ≡ paste index.old n (tap_sources (taps_of w src)) (length (taps_of w src)) }
    ensures with { weight.new ≡ paste weight.old n (tap_weights (taps_of w src)) (length (taps_of w src)) }
{
    let mut at = n;
    for tap in w.taps(src) {
        index[at] = tap.from as u16;
        weight[at] = tap.weight;
        at += 1;
    }
    at
}

// The taps of every output sample, one behind the other: those of sample i stand from offsets[i] up to, not
// including, offsets[i + 1]. Places beyond them stay.
pub fn taps(src: usize, dst: usize, offsets: &mut [u16], index: &mut [u16], weight: &mut [f32])
    requires { (0 < src) × (src ≤ 8192) × (dst ≤ 8192) × (dst < length offsets.old) × (start src dst dst ≤ length index.old)
        × (length weight.old ≡ length index.old) × (length index.old ≤ 16384) }
    ensures bounds { offsets.new ≡ filled (start src dst) (dst + 1) offsets.old }
    ensures from { index.new ≡ onto (tap_sources (all_taps src dst dst)) index.old }
    ensures with { weight.new ≡ onto (tap_weights (all_taps src dst dst)) weight.old }
{
    let mut n = 0usize;
    for i in 0..dst {
        offsets[i] = n as u16;
        n = push(Window::new(src, dst, i), src, n, index, weight);
    }
    offsets[dst] = n as u16;
}
