// Each limit from both sides; samples and work area are what the picture needs, but where they are tried. Of two sides that are
// too long the longer is given.
use crate::expected::{Expected, seen};
use crate::lent::{FOUR, THREE};
use crate::{shape, square};
use admission::{may_read, may_write};
use refusal::Refusal;
use replay_lists::Tally;

const TAKEN: Expected<()> = (Ok(()), 0, 0);

const SMALL: Expected<()> = (Err(Refusal::ImageTooSmall(511)), 3, 511);

const NONE: Expected<()> = (Err(Refusal::NoWatermark), 8, 0);

fn large(side: usize) -> Expected<()> {
    (Err(Refusal::ImageTooLarge(side)), 4, side as u64)
}

fn channels(count: usize) -> Expected<()> {
    (Err(Refusal::BadChannels(count)), 5, count as u64)
}

fn length(samples: usize) -> Expected<()> {
    (Err(Refusal::BadLength(samples)), 6, samples as u64)
}

fn work(needed: usize) -> Expected<()> {
    (Err(Refusal::WorkTooSmall(needed)), 7, needed as u64)
}

fn write_sides(t: &mut Tally) {
    t.count(seen(may_write(square(3), THREE, 655360)) == TAKEN);
    t.count(seen(may_write(shape(511, 512, 3), 784896, 654336)) == SMALL);
    t.count(seen(may_write(shape(512, 511, 3), 784896, 654336)) == SMALL);
    t.count(seen(may_write(shape(8192, 512, 3), 12582912, 8519680)) == TAKEN);
    t.count(seen(may_write(shape(512, 8192, 3), 12582912, 8519680)) == TAKEN);
    t.count(seen(may_write(shape(8193, 512, 3), 12584448, 8520704)) == large(8193));
    t.count(seen(may_write(shape(512, 8193, 3), 12584448, 8520704)) == large(8193));
    t.count(seen(may_write(shape(8193, 9000, 3), 221211000, 147605072)) == large(9000));
    t.count(seen(may_write(shape(9000, 8193, 3), 221211000, 147605072)) == large(9000));
}

fn write_counts(t: &mut Tally) {
    t.count(seen(may_write(square(0), 0, 655360)) == channels(0));
    t.count(seen(may_write(square(1), 262144, 655360)) == channels(1));
    t.count(seen(may_write(square(2), 524288, 655360)) == channels(2));
    t.count(seen(may_write(square(4), FOUR, 655360)) == TAKEN);
    t.count(seen(may_write(square(5), 1310720, 655360)) == channels(5));
    t.count(seen(may_write(square(3), 786431, 655360)) == length(786431));
    t.count(seen(may_write(square(3), 786433, 655360)) == length(786433));
    t.count(seen(may_write(square(3), THREE, 655359)) == work(655360));
}

fn read_sides(t: &mut Tally) {
    t.count(seen(may_read(shape(1, 1, 3), 3, 65537)) == TAKEN);
    t.count(seen(may_read(shape(0, 1, 3), 0, 65536)) == NONE);
    t.count(seen(may_read(shape(1, 0, 3), 0, 65536)) == NONE);
    t.count(seen(may_read(shape(8192, 1, 3), 24576, 73728)) == TAKEN);
    t.count(seen(may_read(shape(1, 8192, 3), 24576, 73728)) == TAKEN);
    t.count(seen(may_read(shape(8193, 1, 3), 24579, 73729)) == large(8193));
    t.count(seen(may_read(shape(1, 8193, 3), 24579, 73729)) == large(8193));
    t.count(seen(may_read(shape(8193, 9000, 3), 221211000, 73802536)) == large(9000));
    t.count(seen(may_read(shape(9000, 8193, 3), 221211000, 73802536)) == large(9000));
}

fn read_counts(t: &mut Tally) {
    t.count(seen(may_read(shape(1, 1, 0), 0, 65537)) == channels(0));
    t.count(seen(may_read(shape(1, 1, 1), 1, 65537)) == channels(1));
    t.count(seen(may_read(shape(1, 1, 2), 2, 65537)) == channels(2));
    t.count(seen(may_read(shape(1, 1, 4), 4, 65537)) == TAKEN);
    t.count(seen(may_read(shape(1, 1, 5), 5, 65537)) == channels(5));
    t.count(seen(may_read(shape(1, 1, 3), 2, 65537)) == length(2));
    t.count(seen(may_read(shape(1, 1, 3), 4, 65537)) == length(4));
    t.count(seen(may_read(shape(1, 1, 3), 3, 65536)) == work(65537));
}

pub fn limits() -> Tally {
    let mut tally = Tally::default();
    write_sides(&mut tally);
    write_counts(&mut tally);
    read_sides(&mut tally);
    read_counts(&mut tally);
    tally
}
