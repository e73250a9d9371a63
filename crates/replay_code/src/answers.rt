// The stored lists: records with their coded bits, and votes with the record and the metric that they give.
use encoder::{CODED, RECORD};
use replay_lists::cases::Fields;
use replay_lists::stored::floats;
use std::io;
use std::num::f32_to_bits_with_nan;
use std::rt::Files;

// Whether a byte has the bits, from its highest on.
fn has_bits(byte: u8, bits: &[u8]) -> bool {
    let masks = [0x80, 0x40, 0x20, 0x10, 8, 4, 2, 1];
    bits.iter()
        .zip(masks)
        .all(|(bit, mask)| *bit == u8::from(byte & mask != 0))
}

fn same_coded(coded: &[u8; CODED], packed: &[u8; 94]) -> bool {
    coded
        .chunks(8)
        .zip(packed)
        .all(|(bits, byte)| has_bits(*byte, bits))
}

// A record, and its coded bits, eight to a byte. Here and below the rest of a short field is zeros, which `array` refuses.
fn encodes(mut case: Fields<'_>) -> Option<bool> {
    let mut record = [0; RECORD];
    case.bytes(&mut record)?;
    let mut packed = [0; 94];
    case.bytes(&mut packed)?;
    Some(same_coded(&encoder::encode(&record), &packed))
}

// Votes, the record and its metric.
fn decodes(mut case: Fields<'_>) -> Option<bool> {
    let mut votes = [0; 4 * CODED];
    case.bytes(&mut votes)?;
    let mut record = [0; RECORD];
    case.bytes(&mut record)?;
    let metric = case.number()?;
    let found = decoder::decode(&floats(&votes));
    Some(found.bytes == record && u64::from(f32_to_bits_with_nan(found.metric)) == metric)
}

pub fn replay(rt: &(impl Files + Print + Eprint)) -> io::Result<()> {
    replay_lists::replay_as(rt, "encode.txt", "encode", 2, encodes)?;
    replay_lists::replay_as(rt, "decode.txt", "decode", 3, decodes)
}
