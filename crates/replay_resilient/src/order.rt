// Where two neighbouring refusals apply at once, the first is given.
use crate::expected::seen;
use crate::lent::{Samples, THREE, Work, refuses_to_read, refuses_to_write};
use crate::{shape, square};
use admission::may_write;
use refusal::Refusal;
use replay_lists::Tally;

// 1 and 2 at once, 2 and 3.
fn text_order(t: &mut Tally, s: &mut Samples, w: &mut Work) {
    let long = (Refusal::TextTooLong(33), 1, 33);
    t.count(refuses_to_write(
        &mut s[..THREE],
        &mut w[..655360],
        square(3),
        &[0xff; 33],
        long,
    ));
    let bytes = (Refusal::TextNotUtf8, 2, 0);
    let narrow = shape(511, 512, 3);
    t.count(refuses_to_write(&mut s[..784896], &mut w[..654336], narrow, b"\xff", bytes));
}

// 3 and 4, 4 and 5, of pictures for which there is no room.
fn large_order(t: &mut Tally) {
    let small = (Err(Refusal::ImageTooSmall(511)), 3, 511);
    t.count(seen(may_write(shape(511, 8193, 3), 12559869, 8504318)) == small);
    let large = (Err(Refusal::ImageTooLarge(8193)), 4, 8193);
    t.count(seen(may_write(shape(8193, 512, 2), 8389632, 8520704)) == large);
}

// 5 and 6, 6 and 7.
fn write_order(t: &mut Tally, s: &mut Samples, w: &mut Work) {
    let channels = (Refusal::BadChannels(2), 5, 2);
    t.count(refuses_to_write(&mut s[..524287], &mut w[..655360], square(2), b"", channels));
    let length = (Refusal::BadLength(786431), 6, 786431);
    t.count(refuses_to_write(&mut s[..786431], &mut w[..655359], square(3), b"", length));
}

// 8 for a zero side and 4, 4 and 5.
fn side_order(t: &mut Tally, s: &Samples, w: &mut Work) {
    let none = (Refusal::NoWatermark, 8, 0);
    t.count(refuses_to_read(&[], &mut w[..65536], shape(0, 8193, 3), none));
    let large = (Refusal::ImageTooLarge(8193), 4, 8193);
    t.count(refuses_to_read(&s[..16386], &mut w[..73729], shape(8193, 1, 2), large));
}

// 5 and 6, 6 and 7.
fn read_order(t: &mut Tally, s: &Samples, w: &mut Work) {
    let channels = (Refusal::BadChannels(2), 5, 2);
    t.count(refuses_to_read(&s[..3], &mut w[..65537], shape(1, 1, 2), channels));
    let length = (Refusal::BadLength(4), 6, 4);
    t.count(refuses_to_read(&s[..4], &mut w[..65536], shape(1, 1, 3), length));
}

pub fn order(samples: &mut Samples, work: &mut Work) -> Tally {
    let mut tally = Tally::default();
    large_order(&mut tally);
    text_order(&mut tally, samples, work);
    write_order(&mut tally, samples, work);
    side_order(&mut tally, samples, work);
    read_order(&mut tally, samples, work);
    tally
}
