// From a change of the 256 x 256 plane to a picture's samples, for the crate `carrier`. A row of the picture reads at
// most two rows of the change, and the rows that follow the same two or the next: two rows, brought to the picture's
// width, are kept, row k in place k mod 2.
#![tactic(auto)]

ghost use Rattle.std.specs.Prelude.{◌≡◌, refl, ◌*◌, ◌<◌, ◌≤◌, length, get_or, pos};
ghost use Rattle.std.specs.Float.{nan, binary32};
ghost use Rattle.std.specs.Float.Ieee.{add, of_int};
ghost use Rattle.seq.specs.Lists.{tab};
ghost use Rattle.float.specs.Calls.{rounded_byte};
ghost use Rattle.resample.specs.Samples.{wide_row, change_row, changed_row, changed_of};
ghost use Rattle.picture.specs.Sizes.{Sized, longest_side, plane_size};
ghost use Rattle.resample.specs.Tables.{added_at};
ghost use Rattle.resample_up.specs.Rows.{wide-length};

use float::round_to_u8;
use picture::Picture;
use resample::axis::{MOST, TapRoom, Taps};
use resample::kept::{Kept, MakesRows};
use resample::rows::add_row;
use resample_window::{Tap, Window};
use seq::zero_floats;

// The rows of a change of the plane, brought to a picture's width.
#[derive(Drop)]
struct Wide<'c, 't> {
    width: usize,
    change: &'c [f32],
    taps: Taps<'t>,
    ghost plane: { length change.now ≡ plane_size },
    ghost axis: { taps ≡ record { src = 256; dst = width } },
}

impl MakesRows for Wide<'_, '_> {
    ghost wide = { λ m. m.width };

    ghost made = { λ m. wide_row m.width m.change.now };

    ghost can_make = { λ m k. k < 256 };

    ghost same = { λ m n. (n.width ≡ m.width) × (n.change ≡ m.change) };

    fn width(&self) -> usize {
        self.width
    }

    fn make(&mut self, k: usize, out: &mut [f32]) {
        let a = k * 256;
        let e = a + 256;
        self.taps.row(&self.change[a..e], out);
    }

    ghost laws = { record {
      long = λ m k. wide-length m.width m.change.now k;
      at_rest = λ m. (refl, refl);
      wide_same = λ m n e. e.0;
      made_same = λ m n k e. rw (e.0, e.1) refl;
    } };
}

// A change of the plane on its way to a picture's width, and the rows of it that are kept.
#[derive(Drop)]
struct Widening<'c, 't> {
    rows: Kept<Wide<'c, 't>, 8192, 2, 16384>,
}

impl Widening<'_, '_> {
    // Adds the row that a tap reads to the sum, with the tap's weight.
    fn add_tap(&mut self, tap: Tap, sum: &mut [f32])
        requires { (tap.from < 256) × (length sum.old ≡ self.old.rows.maker.width) }
        ensures same { (self.new.rows.maker.width ≡ self.old.rows.maker.width) × (self.new.rows.maker.change ≡ self.old.rows.maker.change) }
        ensures row { sum.new ≡ tab (added_at sum.old tap.weight (wide_row self.old.rows.maker.width self.old.rows.maker.change.now tap.from)) self.old.rows.maker.width }
    {
        let slot = self.rows.keep(tap.from);
        add_row(sum, self.rows.row(slot), tap.weight);
    }

    // The change of row y of a picture of that width: the rows of its window, each with its weight, in rising order.
    fn change_row(&mut self, y: usize, height: usize, out: &mut [f32])
        requires { length out.old ≡ self.old.rows.maker.width }
        ensures same { (self.new.rows.maker.width ≡ self.old.rows.maker.width) × (self.new.rows.maker.change ≡ self.old.rows.maker.change) }
        ensures row { out.new ≡ change_row self.old.rows.maker.width height self.old.rows.maker.change.now y }
    {
        zero_floats(out);
        for tap in Window::new(256, height, y).taps(256) {
            self.add_tap(tap, out);
        }
    }

    // The change put onto the samples, row by row. `delta` has room for one row of the change.
    fn change_samples(&mut self, picture: Picture, delta: &mut [f32], samples: &mut [u8])
        requires { Sized picture.width picture.height picture.channels samples.old × (picture.width ≡ self.old.rows.maker.width) × (length delta.old ≡ self.old.rows.maker.width) }
        ensures { samples.new ≡ changed_of picture.width picture.height picture.channels self.old.rows.maker.change.now samples.old }
    {
        let Picture {
            width,
            height,
            channels,
        } = picture;
        let n = width * channels;
        // by number, which also says the window of the row
        for y in 0..height {
            let a = y * n;
            let e = a + n;
            self.change_row(y, height, delta);
            write_row(&mut samples[a..e], channels, delta);
        }
    }
}

// A sample with its pixel's change, rounded and clamped.
fn changed(sample: u8, delta: f32) -> u8
    ensures { result ≡ rounded_byte (add binary32 (of_int binary32 (pos sample)) delta) }
{
    round_to_u8(f32::from(sample) + delta)
}

// The row of samples, with the change of each pixel put onto its first three channels.
fn write_row(row: &mut [u8], channels: usize, delta: &[f32])
    requires { (3 ≤ channels) × (channels ≤ 4) × (length row.old ≡ length delta.now * channels) × (length delta.now ≤ longest_side) }
    ensures { row.new ≡ changed_row channels (λ x. get_or delta.now x nan) row.old }
{
    for (x, d) in delta.iter().enumerate() {
        let p = x * channels;
        row[p] = changed(row[p], *d);
        row[p + 1] = changed(row[p + 1], *d);
        row[p + 2] = changed(row[p + 2], *d);
    }
}

// Puts a change of the plane onto the samples of a picture that is no smaller than the plane. Not inlined, so that its rows and
// taps take no stack while a writer makes the plane.
#[inline(never)]
pub fn change_samples(change: &[f32], picture: Picture, samples: &mut [u8])
    requires { Sized picture.width picture.height picture.channels samples.old × (256 ≤ picture.width) × (256 ≤ picture.height)
        × (length change.now ≡ plane_size) }
    ensures { samples.new ≡ changed_of picture.width picture.height picture.channels change.now samples.old }
{
    let mut room = TapRoom {
        offsets: [0; 8193],
        index: [0; MOST],
        weight: [0.0; MOST],
    };
    let mut widening = Widening {
        rows: Kept {
            maker: Wide {
                width: picture.width,
                change,
                taps: Taps::new(256, picture.width, &mut room),
            },
            rows: [0.0; 16384],
            held: [0; 2],
        },
    };
    let mut delta = [0.0f32; 8192];
    widening.change_samples(picture, &mut delta[..picture.width], samples);
}
