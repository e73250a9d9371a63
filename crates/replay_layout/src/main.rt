// Replays stored answers for the crates `layout`, `shuffle` and `dither`. The Rust's own: the layout, which our shuffle makes
// again, the dither, and shuffles of many keys and lengths. No key at hand brings about a number that is drawn again, and the
// Rust has no function for a single draw, so the answers for the draw on chosen values (accepted.txt) are the
// oracle's: it computes them in oracle/judge/src/shuffles.rs by the formula that stands within the Rust's shuffle.
// A case is two strings of bytes, the operand and the result, in which a number has its high byte first.
#![tactic(auto)]

use encoder::CODED;
use picture::BLOCKS;
use replay_lists::cases::Fields;
use replay_lists::stored::{Packed, floats};
use std::array::from_fn;
use std::io;

// Whether the bytes are just the entries.
fn same_entries(entries: &[u16], bytes: &[u8]) -> bool {
    let (pairs, rest) = bytes.as_chunks();
    rest.is_empty()
        && pairs.len() == entries.len()
        && entries
            .iter()
            .zip(pairs)
            .all(|(entry, pair)| *entry == u16::from_be_bytes(*pair))
}

// Whether the block of each place, as listed, carries what stands for the place's coded bit.
fn carries(blocks: &[u8], coded: &[u8; CODED]) -> bool {
    let bits = layout::block_bits(coded);
    blocks.as_chunks().0.iter().zip(coded.iter().cycle()).all(|(block, bit)| bits.get(usize::from(
        u16::from_be_bytes(*block),
    )) == Some(bit))
}

// A key, and the 1,024 blocks: those of the shuffle, and those over which the layout lays the coded bits, told apart by
// the two bytes of their numbers.
fn lays(mut case: Fields<'_>) -> Option<bool> {
    let key = case.array()?;
    let blocks = case.array::<2048>()?;
    let mut made = [0; BLOCKS];
    let found = shuffle::shuffle(&key, BLOCKS, BLOCKS, &mut made);
    Some(
        found == BLOCKS
            && same_entries(&made, &blocks)
            && carries(&blocks, &from_fn(|k: usize| (k % 256) as u8))
            && carries(&blocks, &from_fn(|k: usize| (k / 256) as u8)),
    )
}

// The number of a group, and its sixteen numbers by their bits. None of them is a zero, so that equal ones have equal bits.
fn dithers(mut case: Fields<'_>) -> Option<bool> {
    let group = u32::from_be_bytes(case.array()?);
    let numbers = case.array::<64>()?;
    Some(dither::dither(group) == floats(&numbers))
}

// Key, len, count and room; the number of entries and every place lent, in which other numbers stand before.
fn shuffles(mut case: Fields<'_>) -> Option<bool> {
    let operand = case.array::<50>()?;
    let mut operand = Packed::of(&operand);
    let key = operand.array()?;
    let len = operand.number()? as usize;
    let count = operand.number()? as usize;
    let lent = usize::from(operand.pair()?);
    let mut room = [0; 8202];
    let mut expected = Packed::of(case.bytes(&mut room)?);
    let mut places = [43690; 4100];
    let places = places.get_mut(..lent)?;
    let found = shuffle::shuffle(&key, len, count, places);
    Some(found == usize::from(expected.pair()?) && same_entries(places, expected.rest()))
}

// A number drawn and the range, and 1 where it is taken.
fn accepts(mut case: Fields<'_>) -> Option<bool> {
    let operand = case.array::<16>()?;
    let mut operand = Packed::of(&operand);
    let is_taken = case.array()? == [1];
    Some(shuffle::accepted(operand.number()?, operand.number()?) == is_taken)
}

fn main(rt: HostRuntime) -> io::Result<()> {
    replay_lists::replay(&rt, "layout.txt", 2, lays)?;
    replay_lists::replay(&rt, "dither.txt", 2, dithers)?;
    replay_lists::replay(&rt, "shuffle.txt", 2, shuffles)?;
    replay_lists::replay(&rt, "accepted.txt", 2, accepts)
}
