// Where the coded bits stand in the picture. Place j of 1,024 stands in block `block_of j` and carries coded bit
// j mod 748, so that bits 0 to 275 are carried twice and the others once. The definitions are specs/Layout.antt and
// specs/Places.antt.
#![tactic(auto)]

mod table;

ghost use Rattle.std.specs.Prelude.{◌≡◌};
ghost use Rattle.encoder.specs.Ccsds131.{coded_bits};
ghost use Rattle.layout.specs.Places.{block_bits, gathered};

use encoder::CODED;
use picture::BLOCKS;
use table::Layout;

// The bit that each block carries.
pub fn block_bits(coded: &[u8; CODED]) -> [u8; BLOCKS]
    ensures { result ≡ block_bits coded_bits coded.now }
{
    let layout = Layout::new();
    let mut bits = [0u8; BLOCKS];
    // j is a place: it names a block and a coded bit, and runs along neither list.
    for j in 0..BLOCKS {
        bits[layout.block(j)] = coded[j % CODED];
    }
    bits
}

// The vote of each coded bit: the sum of its places' votes, in rising order from +0.0.
pub fn gather(votes: &[f32; BLOCKS]) -> [f32; CODED]
    ensures { result ≡ gathered coded_bits votes.now }
{
    let layout = Layout::new();
    let mut soft = [0.0f32; CODED];
    for j in 0..BLOCKS {
        let b = layout.block(j);
        soft[j % CODED] += votes[b];
    }
    soft
}
