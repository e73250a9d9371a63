// The end of the keystream: its last block, and requests at and past its end.
use crate::{apply, array, report};
use std::io;

const END: u64 = 1 << 38;

// The answer to a request under a key of the bytes 0 to 31 and a nonce of zeros.
fn request(from: u64, bytes: &mut [u8]) -> Option<u64> {
    let key = array(b"000102030405060708090a0b0c0d0e0f101112131415161718191a1b1c1d1e1f")?;
    apply(&key, &[0; 12], from, bytes)
}

pub fn last_block(rt: &impl Print) -> io::Result<()> {
    let mut bytes = [0; 64];
    let next = request(END - 64, &mut bytes);
    let expected = array(
        b"1ce0deb8925fccea2d5587e850054559edcbbeb1a6c8e1c02c1e89abba08b01cad6048fe5ab5242ed6befbef6b4040fcb666a5f3858d942a912c4e8800301a42",
    );
    report(
        rt,
        "the last block",
        next == Some(END) && expected == Some(bytes),
    )
}

// A request that needs one byte too many, from within the last block and at the end.
pub fn past_the_end(rt: &impl Print) -> io::Result<()> {
    let mut bytes = [7; 65];
    let mut one = [7; 1];
    let within = request(END - 64, &mut bytes);
    let at_end = request(END, &mut one);
    let is_unchanged = bytes == [7; 65] && one == [7];
    report(
        rt,
        "one byte past the end",
        within.is_none() && at_end.is_none() && is_unchanged,
    )
}

pub fn nothing_past_the_end(rt: &impl Print) -> io::Result<()> {
    let at_end = request(END, &mut []);
    let far = request(u64::MAX, &mut []);
    report(
        rt,
        "no byte past the end",
        at_end == Some(END) && far == Some(u64::MAX),
    )
}
