// Whether a picture with its samples and a work area can be used: the limits on sides, channels, samples and work area,
// with the refusals in their order. For `resilient`. From the scope, which specs/Admission.antt states.
#![tactic(auto)]

ghost use Rattle.std.specs.Prelude.{◌≡◌, ◌||◌, ◌*◌, ◌≤◌, eqb};
ghost use Rattle.admission.specs.Admission.{shorter, longer, admission, write_admission, read_admission};
ghost use Rattle.picture.specs.Sizes.{longest_side};

use picture::{LONGEST, PLANE, Picture, SHORTEST_TO_WRITE};
use refusal::Refusal;

// Functions and no methods: these belong to the admission, and a method of `Picture` would stand in its crate.
#[tactic(auto, unfolding(crate::specs::Admission::shorter))]
fn shorter(p: Picture) -> usize
    ensures { result ≡ shorter p }
{
    p.width.min(p.height)
}

#[tactic(auto, unfolding(crate::specs::Admission::longer))]
fn longer(p: Picture) -> usize
    ensures { result ≡ longer p }
{
    p.width.max(p.height)
}

#[tactic(auto, unfolding(crate::specs::Admission::shorter))]
fn empty(p: Picture) -> bool
    ensures { result ≡ (eqb p.width 0 || eqb p.height 0) }
{
    shorter(p) == 0
}

// How many pixels a picture has whose sides are not too long.
fn pixels(p: Picture) -> usize
    requires { longer p ≤ longest_side }
    ensures { (result ≡ p.width * p.height) × (result ≤ longest_side * longest_side) }
{
    p.width * p.height
}

// Whether a picture with so many samples and so much work area can be used, `parts` times its room being needed.
#[tactic(auto, unfolding(crate::specs::Admission::admission, crate::specs::Admission::room_of))]
fn admit(parts: usize, p: Picture, samples: usize, work: usize) -> Result<(), Refusal>
    requires { parts ≤ 2 }
    ensures { result ≡ admission parts p samples work }
{
    let side = longer(p);
    let channels = p.channels;
    if LONGEST < side {
        return Err(Refusal::ImageTooLarge(side));
    }
    if !(3..=4).contains(&channels) {
        return Err(Refusal::BadChannels(channels));
    }
    let count = pixels(p);
    let all = count * channels;
    let needed = parts * (PLANE + count);
    if samples != all {
        return Err(Refusal::BadLength(samples));
    }
    if work < needed {
        return Err(Refusal::WorkTooSmall(needed));
    }
    Ok(())
}

// Whether a text can be written into a picture with so many samples, with so much work area.
#[tactic(auto, unfolding(crate::specs::Admission::write_admission))]
pub fn may_write(p: Picture, samples: usize, work: usize) -> Result<(), Refusal>
    ensures { result ≡ write_admission p samples work }
{
    let side = shorter(p);
    if side < SHORTEST_TO_WRITE {
        return Err(Refusal::ImageTooSmall(side));
    }
    admit(2, p, samples, work)
}

// Whether a text can be read from it.
#[tactic(auto, unfolding(crate::specs::Admission::read_admission))]
pub fn may_read(p: Picture, samples: usize, work: usize) -> Result<(), Refusal>
    ensures { result ≡ read_admission p samples work }
{
    if empty(p) {
        return Err(Refusal::NoWatermark);
    }
    admit(1, p, samples, work)
}
