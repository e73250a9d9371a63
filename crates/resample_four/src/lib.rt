// Four rows at once, for the crate `resample_down`. Their lumas stand side by side in a line, that of pixel x of row l in
// place 4 x + l, so that one instruction serves four sums, each in its own order; and a luma is put together from
// products that are made once for a picture.
#![tactic(auto)]

ghost use Rattle.std.specs.Prelude.{◌≡◌, ◌+◌, ◌*◌, ◌≤◌, ◌<◌, length, get_or, set};
ghost use Rattle.std.specs.Float.{nan};
ghost use Rattle.seq.specs.Lists.{tab, lines};
ghost use Rattle.resample.specs.Resampled.{across};
ghost use Rattle.resample_four.specs.Four.{lane, luma_line, narrow_four};

pub mod shares;

use picture::Picture;
use resample::axis::Taps;
use resample::pixels::Pixels;
use shares::Shares;

// Four values, the first in place q and each `step` places behind the one before it.
fn put_four(s: &mut [f32], q: usize, step: usize, t: f32, u: f32, v: f32, w: f32)
    requires { q + 3 * step < length s.old }
    ensures { s.new ≡ set (set (set (set s.old q t) (q + step) u) (q + 2 * step) v) (q + 3 * step) w }
{
    s[q] = t;
    s[q + step] = u;
    s[q + 2 * step] = v;
    s[q + 3 * step] = w;
}

// A picture whose rows are brought to 256 values: its pixels, the products of its luma, and the taps of its rows.
#[derive(Drop)]
pub struct Narrower<'p, 't> {
    pub pixels: Pixels<'p>,
    pub shares: Shares,
    pub taps: Taps<'t>,
    ghost axis: { taps ≡ record { src = pixels.picture.width; dst = 256 } },
}

impl Narrower<'_, '_> {
    // The luma of the rows 4 g to 4 g + 3, the last row in place of those that the picture has not.
    fn luma_four(&self, g: usize, line: &mut [f32])
        requires { (4 * g < self.now.pixels.picture.height) × (4 * self.now.pixels.picture.width ≤ length line.old) }
        ensures { line.new ≡ luma_line self.now.pixels.picture.width self.now.pixels.picture.height self.now.pixels.picture.channels
            self.now.pixels.samples.now g line.old }
    {
        let Picture {
            width,
            height,
            channels,
        } = self.pixels.picture;
        let last = height - 1;
        let a = self.pixels.row((4 * g).min(last));
        let b = self.pixels.row((4 * g + 1).min(last));
        let c = self.pixels.row((4 * g + 2).min(last));
        let d = self.pixels.row((4 * g + 3).min(last));
        // by number: a pixel of each of four rows, side by side
        for x in 0..width {
            let p = x * channels;
            let t = self.shares.luma(a, p);
            let u = self.shares.luma(b, p);
            let v = self.shares.luma(c, p);
            let w = self.shares.luma(d, p);
            put_four(line, 4 * x, 1, t, u, v, w);
        }
    }

    // Value x of each of the four rows: as `resample::axis` makes it, one sum beside the other.
    fn values_across(&self, x: usize, line: &[f32]) -> [f32; 4]
        requires { (x < 256) × (4 * self.now.pixels.picture.width ≤ length line.now) }
        ensures { result ≡ tab (λ l. across self.now.pixels.picture.width 256 (lane line.now l) x) 4 }
    {
        let (index, weight) = self.taps.of(x);
        let mut t = -0.0f32;
        let mut u = -0.0f32;
        let mut v = -0.0f32;
        let mut w = -0.0f32;
        // by number, and not over a zip, whose two tests a turn are slower here
        for (n, from) in index.iter().enumerate() {
            let k = 4 * usize::from(*from);
            let q = weight[n];
            t += q * line[k];
            u += q * line[k + 1];
            v += q * line[k + 2];
            w += q * line[k + 3];
        }
        [t, u, v, w]
    }

    // The four rows brought to 256 values each, one row behind the other.
    fn across_four(&self, line: &[f32], out: &mut [f32])
        requires { (4 * self.now.pixels.picture.width ≤ length line.now) × (length out.old ≡ 1024) }
        ensures { out.new ≡ lines (λ l. tab (across self.now.pixels.picture.width 256 (lane line.now l)) 256) 4 }
    {
        for x in 0..256usize {
            let [t, u, v, w] = self.values_across(x, line);
            put_four(out, x, 256, t, u, v, w);
        }
    }

    // The rows 4 g to 4 g + 3 of the picture, the last row in place of those that it has not, brought to 256 values
    // each, one row behind the other. `line` has room for four rows of lumas, which are left in it.
    pub fn narrow_four(&self, g: usize, line: &mut [f32], out: &mut [f32])
        requires { (4 * g < self.now.pixels.picture.height) × (4 * self.now.pixels.picture.width ≤ length line.old) × (length out.old ≡ 1024) }
        ensures line { line.new ≡ luma_line self.now.pixels.picture.width self.now.pixels.picture.height self.now.pixels.picture.channels
            self.now.pixels.samples.now g line.old }
        ensures rows { out.new ≡ narrow_four self.now.pixels.picture.width self.now.pixels.picture.height self.now.pixels.picture.channels
            self.now.pixels.samples.now g }
    {
        self.luma_four(g, line);
        self.across_four(line, out);
    }
}
