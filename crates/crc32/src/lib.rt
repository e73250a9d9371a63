// CRC-32 as IEEE Std 802.3 defines it in 3.2.9 (specs/Ieee8023.antt), for checks of records and files: the one of zlib, gzip
// and PNG. The message goes through the shift register of that polynomial eight bytes at a time, by a table of what the
// register's turns make of four bits.
#![tactic(auto)]

mod table;

ghost use Rattle.std.specs.Prelude.{◌≡◌};
ghost use Rattle.crc32.specs.Ieee8023.{crc_of};
ghost use Rattle.crc32.specs.Shift.{register_after};

use table::Table;

// The register after all bytes, from all ones.
fn update(table: &Table, bytes: &[u8]) -> u64
    ensures { result ≡ register_after 0xffff_ffff bytes.now }
{
    let blocks = bytes.chunks_exact(8);
    let rest = blocks.remainder();
    let mut x = 0xffff_ffff;
    for block in blocks {
        x = table.feed(x, block);
    }
    table.feed(x, rest)
}

// The CRC-32 of the bytes, however many.
pub fn crc32(bytes: &[u8]) -> u32
    ensures { result ≡ crc_of bytes.now }
{
    // A table is built anew wherever a constant stands: once here, and lent.
    let table = Table::new();
    (update(&table, bytes) ^ 0xffff_ffff) as u32
}
