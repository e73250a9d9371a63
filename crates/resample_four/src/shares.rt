// The luma of a pixel, from products that are looked up.
ghost use Rattle.std.specs.Prelude.{◌≡◌, ◌+◌, ◌≤◌, length, get_or};
ghost use Rattle.std.specs.Float.{nan};
ghost use Rattle.seq.specs.Lists.{tab};
ghost use Rattle.resample.specs.Samples.{luma_from};
ghost use Rattle.resample_four.specs.Four.{share_at};

use std::marker::Model;

// What each byte adds to the luma as a red sample, then as a green one, then as a blue one.
#[derive(Drop)]
pub struct Shares {
    products: [f32; 768],
}

// A contract sees the products.
impl Model for Shares {
    ghost use Rattle.std.specs.Prelude.{◌≡◌, List, Float};
    ghost use Rattle.seq.specs.Lists.{tab};
    ghost use Rattle.resample_four.specs.Four.{share_at};

    ghost Value = { List Float };

    ghost view = { λ s. s.products };

    ghost invariant = { λ s. s.products ≡ tab share_at 768 };
}

fn products() -> [f32; 768]
    ensures { result ≡ tab share_at 768 }
{
    let weight = [0.299f32, 0.587, 0.114];
    let mut products = [0.0f32; 768];
    for (k, product) in products.iter_mut().enumerate() {
        *product = weight[k / 256] * f32::from((k % 256) as u8);
    }
    products
}

impl Shares {
    // The products, made once for a picture.
    pub fn new() -> Shares
        ensures { result ≡ tab share_at 768 }
    {
        Shares {
            products: products(),
        }
    }

    fn share(&self, at: usize, v: u8) -> f32
        requires { at ≤ 512 }
        ensures { result ≡ get_or (tab share_at 768) (at + v) nan }
    {
        self.products[at + usize::from(v)]
    }

    // The luma of the pixel of a row whose samples start at place p.
    pub fn luma(&self, row: &[u8], p: usize) -> f32
        requires { p + 3 ≤ length row.now }
        ensures { result ≡ luma_from row.now p }
    {
        self.share(0, row[p]) + self.share(256, row[p + 1]) + self.share(512, row[p + 2])
    }
}
