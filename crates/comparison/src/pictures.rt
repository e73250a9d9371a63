// Crates `resample_window`, `resample_four`, `resample_down` and `resample_up`.
ghost use Rattle.std.specs.Prelude.{◌≡◌, ◌*◌, ◌≤◌, length};
ghost use Rattle.seq.specs.Lists.{tab};
ghost use Rattle.resample.specs.Samples.{luma_at};
ghost use Rattle.resample_window.specs.Window.{window_of, weight_of};
ghost use Rattle.comparison.specs.Stages.{numbers_of, parts_of, has_weight, weight_value, has_sides, has_luma, luma_into, has_plane, plane_into, has_change, change_into};

use picture::{PLANE, Picture};
use resample_four::shares::Shares;
use resample_window::{Window, is_side};

// The first and the last source number; centre, support and sum.
#[unsafe(no_mangle)]
pub extern "C" fn vk_window(
    src: usize,
    dst: usize,
    i: usize,
    numbers: &mut [i64; 2],
    parts: &mut [f64; 3],
)
    ensures numbers { numbers.new ≡ numbers_of (window_of src dst i) }
    ensures parts { parts.new ≡ parts_of (window_of src dst i) }
{
    let w = Window::new(src, dst, i);
    *numbers = [w.first, w.last];
    *parts = [w.center, w.support, w.sum];
}

// Whether the window reaches number j, and with what weight, or 0.
#[unsafe(no_mangle)]
pub extern "C" fn vk_weight(src: usize, dst: usize, i: usize, j: i64, weight: &mut f32) -> bool
    ensures answer { result ≡ has_weight (weight_of (window_of src dst i) j) }
    ensures lent { weight.new ≡ weight_value (weight_of (window_of src dst i) j) }
{
    let found = Window::new(src, dst, i).weight(j);
    *weight = found.unwrap_or(0.0);
    found.is_some()
}

fn has_sides(width: usize, height: usize, channels: usize) -> bool
    ensures { result ≡ has_sides width height channels }
{
    is_side(width) && is_side(height) && 3 <= channels && channels <= 4
}

fn has_luma(row: usize, channels: usize, pixels: usize) -> bool
    ensures { result ≡ has_luma row channels pixels }
{
    has_sides(pixels, 1, channels) && row == pixels * channels
}

// The luma of each pixel of a row, one by one.
fn luma(row: &[u8], channels: usize, out: &mut [f32])
    requires { (3 ≤ channels) × (channels ≤ 4) × (length row.now ≡ length out.old * channels) × (length out.old ≤ 8192) }
    ensures { out.new ≡ tab (luma_at channels row.now) (length out.old) }
{
    let shares = Shares::new();
    for (x, value) in out.iter_mut().enumerate() {
        *value = shares.luma(row, x * channels);
    }
}

// Whether the samples are a row of a picture and there is room for exactly its pixels' luma, which is then theirs.
#[unsafe(no_mangle)]
pub extern "C" fn vk_luma(row: &[u8], channels: usize, out: &mut [f32]) -> bool
    ensures answer { result ≡ has_luma (length row.now) channels (length out.old) }
    ensures lent { out.new ≡ luma_into channels row.now out.old }
{
    let done = has_luma(row.len(), channels, out.len());
    if done {
        luma(row, channels, out);
    }
    done
}

fn has_plane(width: usize, height: usize, channels: usize, samples: usize, plane: usize) -> bool
    ensures { result ≡ has_plane width height channels samples plane }
{
    has_sides(width, height, channels) && plane == PLANE && samples == width * channels * height
}

// Whether the samples are a picture's and there is room for exactly a plane, which is then theirs.
#[unsafe(no_mangle)]
pub extern "C" fn vk_plane(
    samples: &[u8],
    width: usize,
    height: usize,
    channels: usize,
    plane: &mut [f32],
) -> bool
    ensures answer { result ≡ has_plane width height channels (length samples.now) (length plane.old) }
    ensures lent { plane.new ≡ plane_into width height channels samples.now plane.old }
{
    let done = has_plane(width, height, channels, samples.len(), plane.len());
    if done {
        let picture = Picture {
            width,
            height,
            channels,
        };
        resample_down::plane(samples, picture, plane);
    }
    done
}

fn has_change(width: usize, height: usize, channels: usize, change: usize, samples: usize) -> bool
    ensures { result ≡ has_change width height channels change samples }
{
    256 <= width && 256 <= height && has_plane(width, height, channels, samples, change)
}

// Whether the samples are those of a picture no smaller than the plane and the change is a plane's, which is then put onto them.
#[unsafe(no_mangle)]
pub extern "C" fn vk_change(
    change: &[f32],
    width: usize,
    height: usize,
    channels: usize,
    samples: &mut [u8],
) -> bool
    ensures answer { result ≡ has_change width height channels (length change.now) (length samples.old) }
    ensures lent { samples.new ≡ change_into width height channels change.now samples.old }
{
    let done = has_change(width, height, channels, change.len(), samples.len());
    if done {
        let picture = Picture {
            width,
            height,
            channels,
        };
        resample_up::change_samples(change, picture, samples);
    }
    done
}
