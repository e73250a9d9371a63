// Pictures of a few pixels and damaged ones, and votes under a key.
use crate::expected::{Expected, seen};
use crate::lent::{Samples, THREE, Work, draw, reads};
use crate::{shape, square};
use extract::read_votes;
use picture::BLOCKS;
use record::{Key, Text};
use refusal::Refusal;
use replay_lists::Tally;
use std::io;
use std::rt::Files;

// The text that is written into the picture that is damaged, and laid over the votes.
const TEXT: &[u8] = b"Svalbard pass 4711";

fn marked() -> Expected<Text> {
    (Ok(Text::new(TEXT)), 0, 0)
}

fn unmarked() -> Expected<Text> {
    (Err(Refusal::NoWatermark), 8, 0)
}

// Pictures of a few pixels have all the blocks, and no mark in them.
fn small(t: &mut Tally, s: &Samples, w: &mut Work) {
    t.count(reads(&s[..3], w, shape(1, 1, 3), unmarked()));
    t.count(reads(&s[..24], w, shape(2, 3, 4), unmarked()));
    t.count(reads(&s[..768], w, shape(16, 16, 3), unmarked()));
    t.count(reads(&s[..1024], w, shape(16, 16, 4), unmarked()));
}

// Only the bits of the mask are left of each sample.
fn coarsen(samples: &mut [u8], mask: u8) {
    for sample in samples {
        *sample &= mask;
    }
}

// A mark in samples that lose their six low bits is read, and with seven lost it is not.
fn damaged(t: &mut Tally, samples: &mut Samples, w: &mut Work) {
    let s = &mut samples[..THREE];
    let _ = resilient::write(s, square(3), TEXT, None, w);
    coarsen(s, 0xc0);
    t.count(reads(s, w, square(3), marked()));
    coarsen(s, 0x80);
    t.count(reads(s, w, square(3), unmarked()));
}

pub fn pictures(samples: &mut Samples, work: &mut Work) -> Tally {
    let mut tally = Tally::default();
    draw(samples);
    small(&mut tally, samples, work);
    damaged(&mut tally, samples, work);
    tally
}

// The votes of a record under the first key, read with it, with another and with none.
fn with_keys(votes: &[f32]) -> Tally {
    let right = Key {
        bytes: *b"\x66\x3e\x52\x8c\xaa\xab\x0d\xa3\xdd\xb3\x79\x35\x3b\xa6\xc1\x00\x19\x82\x7d\x44\x70\xf1\xb0\x0f\x55\x37\x41\xb3\xad\x1c\x32\xb0",
    };
    let wrong = Key { bytes: [0; 32] };
    let damaged = (Err(Refusal::WrongPasswordOrDamaged), 13, 0);
    let required = (Err(Refusal::PasswordRequired(0xeec1_11a4)), 11, 0xeec1_11a4);
    let mut tally = Tally::default();
    tally.count(seen(read_votes(votes, Some(right))) == marked());
    tally.count(seen(read_votes(votes, Some(wrong))) == damaged);
    tally.count(seen(read_votes(votes, None)) == required);
    tally
}

// The file has a digit for each block: the bit that the Rust lays there of the text's record under the first key. A vote
// without doubt stands for each, also where the file cannot be read to its end.
pub fn keyed(rt: &(impl Files + Print + Eprint), name: &str) -> io::Result<()> {
    let mut digits = replay_lists::room();
    replay_lists::load(rt, name, &mut digits)?;
    let mut votes = [1.0; BLOCKS];
    for (vote, digit) in votes.iter_mut().zip(&digits) {
        if *digit == b'1' {
            *vote = -1.0;
        }
    }
    with_keys(&votes).report(rt, name)
}
