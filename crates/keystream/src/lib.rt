// The keystream of a key and a nonce, RFC 8439, section 2.4, put onto lent bytes from any position on. For
// the record's cipher and the shuffle. Held to chacha20's specs/Rfc8439.antt and, for the keystream's end,
// to specs/Apply.antt.
#![tactic(auto)]

ghost use Rattle.std.specs.Prelude.{◌≡◌, ◌+◌, ◌-◌, ◌≤◌, length, get_or};
ghost use Rattle.chacha20.specs.Rfc8439.{xored, encrypted};
ghost use Rattle.keystream.specs.Apply.{left_at, applied_of, bytes_after, applied_number};

// A place in the keystream, as the number of a byte: block n is bytes 64 * n to 64 * n + 63. Blocks
// are counted in 32 bits, so 2^38 is the end, and any number from there on is at or beyond it.
pub type Position = u64;

const END: Position = 1 << 38;

// The keystream ends before the bytes that were asked for do.
#[derive(Clone, Copy, PartialEq, Eq, Debug)]
pub struct KeystreamEnd;

// The number of bytes from a position on.
fn left(from: Position) -> u64
    ensures { result ≡ left_at from }
{
    END.saturating_sub(from)
}

// The position after a request. Granted if as many bytes are left, which for no bytes is everywhere.
#[tactic(auto, unfolding(crate::specs::Apply::applied_of))]
fn next(from: Position, wanted: u64) -> Result<Position, KeystreamEnd>
    ensures { result ≡ applied_of from wanted }
{
    if left(from) < wanted {
        Err(KeystreamEnd)
    } else {
        Ok(from + wanted)
    }
}

// A block from its byte `at` on, put onto bytes that it has enough for.
fn xor_bytes(stream: &[u8; 64], at: usize, bytes: &mut [u8])
    requires { at + length bytes.old ≤ 64 }
    ensures { bytes.new ≡ xored (λ k. get_or stream.now k 0) at bytes.old }
{
    for (i, byte) in bytes.iter_mut().enumerate() {
        *byte ^= stream[at + i];
    }
}

// 2.4: the keystream put onto bytes of which there are no more than are left, a block at a time.
// Counted by hand: the first block may be a part, and a proof knows nothing of what is written through `chunks_mut`.
fn encrypt(key: &[u8; 32], nonce: &[u8; 12], from: Position, bytes: &mut [u8])
    requires { length bytes.old ≤ left_at from }
    ensures { bytes.new ≡ encrypted key.now nonce.now from bytes.old }
{
    let first = chacha20::first_state(key, nonce);
    let mut done = 0;
    while done < bytes.len() {
        let p = from + done as u64;
        let stream = chacha20::block_from(&first, (p / 64) as u32);
        let at = (p % 64) as usize;
        let end = done + (64 - at).min(bytes.len() - done);
        xor_bytes(&stream, at, &mut bytes[done..end]);
        done = end;
    }
}

// Puts the keystream from a position on onto the lent bytes, by exclusive or, and gives the position
// after it; the same again from the same position undoes it. Where fewer bytes are left than are lent
// the answer is KeystreamEnd and the bytes are unchanged. A request for no bytes is never refused.
#[tactic(auto, unfolding(crate::specs::Apply::applied_of, crate::specs::Apply::bytes_after))]
pub fn apply(
    key: &[u8; 32],
    nonce: &[u8; 12],
    from: Position,
    bytes: &mut [u8],
) -> Result<Position, KeystreamEnd>
    ensures answer { result ≡ applied_of from (length bytes.old) }
    ensures lent { bytes.new ≡ bytes_after key.now nonce.now from bytes.old }
{
    let after = next(from, bytes.len() as u64)?;
    encrypt(key, nonce, from, bytes);
    Ok(after)
}

// The answer as a number: 0, or 14, as `refusal` numbers KeystreamEnd. The number stands here once more, since the cipher
// knows nothing of what a record or a picture is refused for.
pub fn number(answer: Result<Position, KeystreamEnd>) -> u8
    ensures { result ≡ applied_number answer }
{
    match answer {
        Ok(_) => 0,
        Err(KeystreamEnd) => 14,
    }
}
