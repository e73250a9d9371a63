// Resampling with the triangle kernel, as `resample_down` and `resample_up` do it (sections 16 and 17 of the scope): the
// definitions of both ways in specs/Samples.antt, the taps of an axis and a row put through them, a row added to another
// with a weight, rows that are kept for use again, and the rows of a picture. Four rows at once are the crate
// `resample_four`.
#![tactic(auto)]

pub mod axis;
pub mod kept;
pub mod pixels;
pub mod rows;
