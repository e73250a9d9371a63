// Demand 3, run: a record laid over the 1,024 blocks, a vote zeroed or reversed in each block in turn; and the limit, where all
// votes are +1 but zero in the ten blocks in which the zero record and the record with last byte 01 differ.
use decoder::viterbi;
use encoder::{RECORD, encode};
use picture::BLOCKS;
use replay_lists::Tally;
use std::io;

// The votes of a record's blocks, +1 for a 0 and -1 for a 1.
fn laid(bytes: &[u8; RECORD]) -> [f32; BLOCKS] {
    layout::block_bits(&encode(bytes)).map(|bit| if bit == 0 { 1.0 } else { -1.0 })
}

fn reads(votes: &[f32; BLOCKS], bytes: &[u8; RECORD]) -> bool {
    viterbi(&layout::gather(votes)) == *bytes
}

// Each block's vote made `fate` times as strong, one at a time.
fn single_faults(bytes: &[u8; RECORD], fate: f32) -> Tally {
    let whole = laid(bytes);
    let mut tally = Tally::default();
    // By number, since one vote of all is changed at a time.
    for b in 0..BLOCKS {
        let mut votes = whole;
        votes[b] *= fate;
        tally.count(reads(&votes, bytes));
    }
    tally
}

// Two records that differ in just ten blocks: with these zeroed the votes of both are the same.
fn limit() -> Tally {
    let zero = [0; RECORD];
    let mut last = [0; RECORD];
    last[45] = 1;
    let mut votes = laid(&zero);
    for (vote, other) in votes.iter_mut().zip(laid(&last)) {
        if *vote != other {
            *vote = 0.0;
        }
    }
    let zeroed = votes.iter().filter(|vote| **vote == 0.0).count();
    let mut tally = Tally::default();
    tally.count(zeroed == 10 && reads(&votes, &zero));
    tally
}

pub fn run(rt: &impl Print) -> io::Result<()> {
    let mut bytes = [0; RECORD];
    bytes[0] = 0x31;
    bytes[5] = 3;
    bytes[6] = b'V';
    bytes[40] = 0xa5;
    single_faults(&bytes, 0.0).report(rt, "one block zeroed")?;
    single_faults(&bytes, -1.0).report(rt, "one block reversed")?;
    limit().report(rt, "limit of demand 3")
}
