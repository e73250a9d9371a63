// From a picture's samples to the 256 x 256 plane of luma, for the crate `carrier`. A plane row reads up to 64 rows of
// the picture, and the next plane row half of them again. Rows are made where they are read, four at a time, brought to
// 256 values each, and 64 are kept as long as the windows that follow read them: row i in place i mod 64. So no picture
// of floats is needed.
#![tactic(auto)]

ghost use Rattle.std.specs.Prelude.{◌≡◌, refl, ◌*◌, ◌<◌, length};
ghost use Rattle.seq.specs.Lists.{tab};
ghost use Rattle.resample.specs.Samples.{narrow_row, plane_row, plane_of};
ghost use Rattle.picture.specs.Sizes.{Sized, plane_size};
ghost use Rattle.resample.specs.Tables.{added_at};
ghost use Rattle.resample_four.specs.Four.{narrow_four};
ghost use Rattle.resample_down.specs.Rows.{four-length};

use picture::Picture;
use resample::axis::{MOST, TapRoom, Taps};
use resample::kept::{Kept, MakesRows};
use resample::pixels::Pixels;
use resample::rows::add_row;
use resample_four::Narrower;
use resample_four::shares::Shares;
use resample_window::{Tap, Window};
use seq::zero_floats;

// The rows of a picture brought to 256 values each, four at a time: its row g are the rows 4 g to 4 g + 3. `line` has room
// for their lumas.
#[derive(Drop)]
struct Fours<'p, 't> {
    from: Narrower<'p, 't>,
    line: [f32; 32768],
}

impl MakesRows for Fours<'_, '_> {
    ghost wide = { λ m. 1024 };

    ghost made = { λ m. narrow_four m.from.pixels.picture.width m.from.pixels.picture.height m.from.pixels.picture.channels m.from.pixels.samples.now };

    ghost can_make = { λ m g. 4 * g < m.from.pixels.picture.height };

    ghost same = { λ m n. n.from ≡ m.from };

    fn width(&self) -> usize {
        1024
    }

    fn make(&mut self, g: usize, out: &mut [f32]) {
        self.from.narrow_four(g, &mut self.line, out);
    }

    ghost laws = { record {
      long = λ m g. four-length m.from.pixels.picture.width m.from.pixels.picture.height m.from.pixels.picture.channels m.from.pixels.samples.now g;
      at_rest = λ m. refl;
      wide_same = λ m n e. refl;
      made_same = λ m n g e. rw e refl;
    } };
}

// A picture on its way to the plane, and the rows that are kept, four to a place.
#[derive(Drop)]
struct Narrowing<'p, 't> {
    fours: Kept<Fours<'p, 't>, 1024, 16, 16384>,
}

impl Narrowing<'_, '_> {
    // Adds the row that a tap reads to the sum, with the tap's weight.
    fn add_tap(&mut self, tap: Tap, sum: &mut [f32])
        requires { (tap.from < self.old.fours.maker.from.pixels.picture.height) × (length sum.old ≡ 256) }
        ensures same { self.new.fours.maker.from ≡ self.old.fours.maker.from }
        ensures row { sum.new ≡ tab (added_at sum.old tap.weight (narrow_row self.old.fours.maker.from.pixels.picture.width
            self.old.fours.maker.from.pixels.picture.channels self.old.fours.maker.from.pixels.samples.now tap.from)) 256 }
    {
        let slot = self.fours.keep(tap.from / 4);
        let a = tap.from % 4 * 256;
        let e = a + 256;
        let four = self.fours.row(slot);
        add_row(sum, &four[a..e], tap.weight);
    }

    // Row y of the plane: the rows of its window, each with its weight, in rising order.
    fn plane_row(&mut self, y: usize, out: &mut [f32])
        requires { length out.old ≡ 256 }
        ensures same { self.new.fours.maker.from ≡ self.old.fours.maker.from }
        ensures row { out.new ≡ plane_row self.old.fours.maker.from.pixels.picture.width self.old.fours.maker.from.pixels.picture.height
            self.old.fours.maker.from.pixels.picture.channels self.old.fours.maker.from.pixels.samples.now y }
    {
        let height = self.fours.maker.from.pixels.picture.height;
        zero_floats(out);
        for tap in Window::new(height, 256, y).taps(height) {
            self.add_tap(tap, out);
        }
    }

    fn plane(&mut self, plane: &mut [f32])
        requires { length plane.old ≡ plane_size }
        ensures { plane.new ≡ plane_of self.old.fours.maker.from.pixels.picture.width self.old.fours.maker.from.pixels.picture.height
            self.old.fours.maker.from.pixels.picture.channels self.old.fours.maker.from.pixels.samples.now }
    {
        // by number, which also says the window of the row
        for y in 0..256usize {
            let a = y * 256;
            self.plane_row(y, &mut plane[a..a + 256]);
        }
    }
}

// The plane of a picture.
pub fn plane(samples: &[u8], picture: Picture, plane: &mut [f32])
    requires { Sized picture.width picture.height picture.channels samples.now × (length plane.old ≡ plane_size) }
    ensures { plane.new ≡ plane_of picture.width picture.height picture.channels samples.now }
{
    let mut room = TapRoom {
        offsets: [0; 257],
        index: [0; MOST],
        weight: [0.0; MOST],
    };
    let mut narrowing = Narrowing {
        fours: Kept {
            maker: Fours {
                from: Narrower {
                    pixels: Pixels { picture, samples },
                    shares: Shares::new(),
                    taps: Taps::new(picture.width, 256, &mut room),
                },
                line: [0.0; 32768],
            },
            rows: [0.0; 16384],
            held: [0; 16],
        },
    };
    narrowing.plane(plane);
}
