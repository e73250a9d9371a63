// A picture: what a caller says of the samples that it lends, and the sizes that pictures and the plane have. Its rows are
// defined in specs/Sizes.antt.
#![tactic(auto)]

// The longest side, and the shorter side that writing needs.
pub const LONGEST: usize = 8192;

pub const SHORTEST_TO_WRITE: usize = 512;

// Values of the plane that a picture is brought to, and its blocks.
pub const PLANE: usize = 65536;

pub const BLOCKS: usize = 1024;

// Sides in pixels, and the samples of a pixel: red, green, blue, and a fourth that is left alone.
#[derive(Clone, Copy)]
pub struct Picture {
    pub width: usize,
    pub height: usize,
    pub channels: usize,
}
