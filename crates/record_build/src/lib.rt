// The writing of a record: a text checked, laid out with its CRC-32 and put under a key where one is given. The Rust's
// `build_record`; the definition stands in record/specs/Record.antt.
#![tactic(auto)]

ghost use Rattle.std.specs.Prelude.{◌≡◌, ◌++◌, ◌≤◌, length, replicate};
ghost use Rattle.record.specs.Record.{short, size, locked, head_of, laid_out, record_of, built_of};

use record::{INNER, LENGTH, Lock, Mode, OUTER, ROOM, SIZE, TEXT, cover, crc};
use refusal::Refusal;

// Length to inner CRC put under the lock's key, if there is one.
#[tactic(auto, unfolding(record::specs::Record::locked))]
fn lock_up(bytes: &mut [u8], lock: Option<Lock>)
    requires { length bytes.old ≡ size short }
    ensures { bytes.new ≡ locked short lock bytes.old }
{
    if let Some(lock) = lock {
        cover(bytes, &lock.key);
    }
}

// Mode and salt.
#[tactic(auto, unfolding(record::specs::Record::head_of))]
fn head(lock: Option<Lock>) -> [u8; 5]
    ensures { result ≡ head_of short lock }
{
    match lock {
        Some(lock) => {
            let [a, b, c, d] = lock.salt;
            [Mode::Keyed as u8, a, b, c, d]
        }
        None => [Mode::Plain as u8, 0, 0, 0, 0],
    }
}

// Mode, salt, length, text and padding, and zeros for the rest.
fn lay(text: &[u8], lock: Option<Lock>) -> [u8; SIZE]
    requires { length text.now ≤ short.room }
    ensures { result ≡ laid_out short text.now lock ++ replicate 8 0 }
{
    let mut bytes = [0; SIZE];
    seq::copy(&head(lock), &mut bytes, 0);
    bytes[LENGTH] = text.len() as u8;
    seq::copy(text, &mut bytes, TEXT);
    bytes
}

// The record of a text that fits.
fn seal(text: &[u8], lock: Option<Lock>) -> [u8; SIZE]
    requires { length text.now ≤ short.room }
    ensures { result ≡ record_of short text.now lock }
{
    let mut bytes = lay(text, lock);
    crc::put_crc(&mut bytes, INNER);
    lock_up(&mut bytes, lock);
    crc::put_crc(&mut bytes, OUTER);
    bytes
}

// The record of a text, plain or under the lock's key. Refused: a text over 32 bytes, and one that does
// not pass the check on writing.
#[tactic(auto, unfolding(record::specs::Record::built_of))]
pub fn build_record(text: &[u8], lock: Option<Lock>) -> Result<[u8; SIZE], Refusal>
    ensures { result ≡ built_of short text.now lock }
{
    if text.len() > ROOM {
        return Err(Refusal::TextTooLong(text.len()));
    }
    if !utf8::counted(text) {
        return Err(Refusal::TextNotUtf8);
    }
    Ok(seal(text, lock))
}
