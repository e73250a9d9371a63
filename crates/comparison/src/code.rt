// Crates `crc32`, `utf8`, `shuffle`, `layout`, `dither`, `encoder` and `decoder`.
ghost use Rattle.std.specs.Prelude.{◌≡◌, ◌+◌, ◌*◌, length};
ghost use Rattle.seq.specs.Lists.{tab};
ghost use Rattle.crc32.specs.Ieee8023.{crc_of};
ghost use Rattle.utf8.specs.Rfc3629.{well_formed};
ghost use Rattle.utf8.specs.Counted.{counted};
ghost use Rattle.dither.specs.Dither.{dither_of};
ghost use Rattle.layout.specs.Places.{block_bits, gathered};
ghost use Rattle.shuffle.specs.Shuffle.{shuffle_of, lent_for};
ghost use Rattle.encoder.specs.Ccsds131.{record_size, coded_bits, encode_of};
ghost use Rattle.decoder.specs.Decoder.{floats, decoded, strength, bytes_of};

use encoder::{CODED, RECORD};
use picture::BLOCKS;

#[unsafe(no_mangle)]
pub extern "C" fn vk_crc32(bytes: &[u8]) -> u32
    ensures { result ≡ crc_of bytes.now }
{
    crc32::crc32(bytes)
}

#[unsafe(no_mangle)]
pub extern "C" fn vk_utf8_well_formed(bytes: &[u8]) -> bool
    ensures { result ≡ well_formed bytes.now }
{
    utf8::well_formed(bytes)
}

#[unsafe(no_mangle)]
pub extern "C" fn vk_utf8_counted(bytes: &[u8]) -> bool
    ensures { result ≡ counted bytes.now }
{
    utf8::counted(bytes)
}

#[unsafe(no_mangle)]
pub extern "C" fn vk_block_bits(coded: &[u8; CODED], bits: &mut [u8; BLOCKS])
    ensures { bits.new ≡ block_bits coded_bits coded.now }
{
    *bits = layout::block_bits(coded);
}

#[unsafe(no_mangle)]
pub extern "C" fn vk_gather(votes: &[f32; BLOCKS], soft: &mut [f32; CODED])
    ensures { soft.new ≡ gathered coded_bits votes.now }
{
    *soft = layout::gather(votes);
}

#[unsafe(no_mangle)]
pub extern "C" fn vk_dither(group: u32, numbers: &mut [f32; 16])
    ensures { numbers.new ≡ tab (λ k. dither_of (16 * group + k)) 16 }
{
    *numbers = dither::dither(group);
}

#[unsafe(no_mangle)]
pub extern "C" fn vk_shuffle(key: &[u8; 32], len: usize, count: usize, entries: &mut [u16]) -> usize
    ensures number { result ≡ length (shuffle_of key.now len count (length entries.old)) }
    ensures lent { entries.new
        ≡ lent_for (length entries.old) (shuffle_of key.now len count (length entries.old)) }
{
    shuffle::shuffle(key, len, count, entries)
}

#[unsafe(no_mangle)]
pub extern "C" fn vk_encode(bytes: &[u8; RECORD], coded: &mut [u8; CODED])
    ensures { coded.new ≡ encode_of bytes.now }
{
    *coded = encoder::encode(bytes);
}

// The record, and the metric with which state 0 ended.
#[unsafe(no_mangle)]
pub extern "C" fn vk_decode(soft: &[f32; CODED], bytes: &mut [u8; RECORD]) -> f32
    ensures { (bytes.new ≡ bytes_of record_size (decoded floats soft.now)) × (result ≡ strength floats soft.now) }
{
    let survivor = decoder::decode(soft);
    // By a name of its own, since an array is stored through a reference only as a whole local.
    let found = survivor.bytes;
    *bytes = found;
    survivor.metric
}
