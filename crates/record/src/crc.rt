// Numbers of four bytes, the highest first, and the CRC-32 behind the bytes that it is of.
ghost use Rattle.std.specs.Prelude.{◌≡◌, ◌++◌, ◌+◌, ◌≤◌, length, take, drop};
ghost use Rattle.record.specs.Record.{with_crc, intact};
ghost use Rattle.seq.specs.Bytes.{number_at};

// The number that four bytes from place k on are.
#[tactic(auto, unfolding(seq::specs::Bytes::number_at))]
pub fn number_at(bytes: &[u8], k: usize) -> u32
    requires { k + 4 ≤ length bytes.now }
    ensures { result ≡ number_at k bytes.now }
{
    seq::from_big_endian(bytes[k], bytes[k + 1], bytes[k + 2], bytes[k + 3])
}

// The CRC-32 of the bytes before place k is put there.
#[tactic(auto, unfolding(crate::specs::Record::with_crc, seq::specs::Bytes::big_endian))]
pub fn put_crc(bytes: &mut [u8], k: usize)
    requires { k + 4 ≤ length bytes.old }
    ensures { bytes.new ≡ with_crc (take k bytes.old) ++ drop (k + 4) bytes.old }
{
    let crc = seq::big_endian(crc32::crc32(&bytes[..k]));
    seq::copy(&crc, bytes, k);
}

// The CRC-32 of the bytes before place k stands there.
#[tactic(auto, unfolding(crate::specs::Record::intact))]
pub fn intact(bytes: &[u8], k: usize) -> bool
    requires { k + 4 ≤ length bytes.now }
    ensures { result ≡ intact k bytes.now }
{
    number_at(bytes, k) == crc32::crc32(&bytes[..k])
}
