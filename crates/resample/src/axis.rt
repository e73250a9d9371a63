// The taps of an axis: what each of its output samples reads, and with what weights.
ghost use Rattle.std.specs.Prelude.{◌≡◌, ℕ, ◌<◌, ◌≤◌, length, get_or, slice_index};
ghost use Rattle.std.specs.Float.{nan};
ghost use Rattle.seq.specs.Lists.{tab};
ghost use Rattle.resample_window.specs.Window.{start, taps, tap_sources, tap_weights};
ghost use Rattle.resample.specs.Resampled.{across};
ghost use Rattle.resample.specs.Tables.{Tables};

use resample_window::taps;
use std::marker::Model;

// The most taps that an axis has: of 256 output samples from 8,192 values, or of 8,192 from 256.
pub const MOST: usize = 16384;

// Room for the taps of an axis of fewer than N output samples.
#[derive(Drop)]
pub struct TapRoom<const N: usize> {
    pub offsets: [u16; N],
    pub index: [u16; MOST],
    pub weight: [f32; MOST],
}

// Of `dst` output samples from `src` values, in lent room: one list of source numbers and one of weights, and not one of
// pairs, whose padding would take a third more.
#[derive(Drop)]
pub struct Taps<'a> {
    src: usize,
    dst: usize,
    offsets: &'a [u16],
    index: &'a [u16],
    weight: &'a [f32],
}

impl<'a> Model for Taps<'a> {
    ghost use Rattle.resample.specs.Tables.{Axis, Tables};

    ghost Value = { Axis };

    ghost view = { λ a. record { src = a.src; dst = a.dst } };

    ghost invariant = { λ a. Tables a.src a.dst a.offsets.now a.index.now a.weight.now };
}

impl<'a> Taps<'a> {
    // Of tables that stand in lists of one's own.
    pub fn of_tables(
        src: usize,
        dst: usize,
        offsets: &'a [u16],
        index: &'a [u16],
        weight: &'a [f32],
    ) -> Taps<'a>
        requires { Tables src dst offsets.now index.now weight.now }
        ensures { result ≡ record { src = src; dst = dst } }
    {
        Taps {
            src,
            dst,
            offsets,
            index,
            weight,
        }
    }

    // Of tables that are made in the room.
    pub fn new<const N: usize>(src: usize, dst: usize, room: &'a mut TapRoom<N>) -> Taps<'a>
        requires { (0 < src) × (src ≤ 8192) × (dst ≤ 8192) × (dst < N) × (start src dst dst ≤ 16384) }
        ensures { result ≡ record { src = src; dst = dst } }
    {
        let TapRoom {
            offsets,
            index,
            weight,
        } = room;
        taps(src, dst, offsets, index, weight);
        Taps::of_tables(src, dst, offsets, index, weight)
    }

    // The source numbers of output sample x, which lie in the source, and their weights.
    pub fn of(&self, x: usize) -> (&'a [u16], &'a [f32])
        requires { x < self.now.dst }
        ensures from { result.0.now ≡ tap_sources (taps self.now.src self.now.dst x) }
        ensures with { result.1.now ≡ tap_weights (taps self.now.src self.now.dst x) }
        ensures inside { (k : ℕ) → k < length result.0.now → slice_index result.0.now k < self.now.src }
    {
        let Taps {
            offsets,
            index,
            weight,
            ..
        } = self;
        let a = usize::from(offsets[x]);
        let e = usize::from(offsets[x + 1]);
        (&index[a..e], &weight[a..e])
    }

    // Output sample x of the row: weight times value for its taps, in order, from -0.0 as rustc starts a float sum.
    fn value(&self, x: usize, source: &[f32]) -> f32
        requires { (x < self.now.dst) × (length source.now ≡ self.now.src) }
        ensures { result ≡ across self.now.src self.now.dst (λ k. get_or source.now k nan) x }
    {
        let (index, weight) = self.of(x);
        let mut sum = -0.0f32;
        for (from, q) in index.iter().zip(weight) {
            sum += *q * source[usize::from(*from)];
        }
        sum
    }

    // The row brought to the axis's output samples.
    pub fn row(&self, source: &[f32], out: &mut [f32])
        requires { (length source.now ≡ self.now.src) × (length out.old ≡ self.now.dst) }
        ensures { out.new ≡ tab (across self.now.src self.now.dst (λ k. get_or source.now k nan)) self.now.dst }
    {
        for (x, value) in out.iter_mut().enumerate() {
            *value = self.value(x, source);
        }
    }
}
