// The samples of a picture, row behind row.
ghost use Rattle.std.specs.Prelude.{◌≡◌, ◌*◌, ◌<◌};
ghost use Rattle.picture.specs.Sizes.{Sized, row_of};

use picture::Picture;

#[derive(Clone, Copy)]
pub struct Pixels<'a> {
    pub picture: Picture,
    pub samples: &'a [u8],
    ghost sized: { Sized picture.width picture.height picture.channels samples.now },
}

impl<'a> Pixels<'a> {
    pub fn row(&self, i: usize) -> &'a [u8]
        requires { i < self.now.picture.height }
        ensures { result.now ≡ row_of (self.now.picture.width * self.now.picture.channels) self.now.samples.now i }
    {
        let n = self.picture.width * self.picture.channels;
        &self.samples[i * n..i * n + n]
    }
}
