// The record: 46 bytes that hold a text of at most 32, in the clear or under a key. From the scope, section 6, which
// specs/Record.antt states. Here are its places, what it is written and read with, and what writing (`record_build`) and
// reading (`record_parse`) share: the cipher, the CRC-32 and the text that was read.
#![tactic(auto)]

pub mod crc;

ghost use Rattle.std.specs.Prelude.{◌≡◌, ◌≤◌, [], length, replicate};
ghost use Rattle.chacha20.specs.Rfc8439.{encrypted};
ghost use Rattle.keystream.specs.Apply.{left_at};
ghost use Rattle.record.specs.Record.{short, size, covered};
ghost use Rattle.record.specs.Answers.{text_given, padded};
ghost use Rattle.record.specs.Given.{lock_from, key_from};
ghost use Rattle.record.specs.Modes.{mode_of};

use refusal::Refusal;
use std::marker::Model;

// How the text stands in a record, in the clear or under a key. Byte 0 says it.
#[derive(Clone, Copy, PartialEq, Eq, Debug)]
pub enum Mode {
    Plain = 0x31,
    Keyed = 0x32,
}

// Refused: a byte that is no mode.
impl TryFrom<u8> for Mode {
    type Error = Refusal;

    ghost try_from_gives = { λ byte answer. answer ≡ mode_of byte };

    #[tactic(auto, unfolding(crate::specs::Modes::mode_of))]
    fn try_from(byte: u8) -> Result<Mode, Refusal> {
        match byte {
            0x31 => Ok(Mode::Plain),
            0x32 => Ok(Mode::Keyed),
            _ => Err(Refusal::UnsupportedVersion(byte)),
        }
    }
}

// Where the parts start, and the room for text.
pub const SALT: usize = 1;

pub const LENGTH: usize = 5;

pub const TEXT: usize = 6;

pub const ROOM: usize = 32;

pub const INNER: usize = TEXT + ROOM;

pub const OUTER: usize = INNER + 4;

// `encoder` has it too, as RECORD: the code knows nothing of the record, nor the record of the code.
pub const SIZE: usize = OUTER + 4;

// What a text is written with: a key, and the salt that goes into the record. A record without a lock is plain.
// The key's bytes, not a `Key`: the cipher takes bytes, so that a `Key` would be taken apart wherever it is used.
#[derive(Clone, Copy)]
pub struct Lock {
    pub key: [u8; 32],
    pub salt: [u8; 4],
}

impl Lock {
    // The lock of a key and a salt, if one is asked for.
    pub fn when(asked: bool, key: &[u8; 32], salt: &[u8; 4]) -> Option<Lock>
        ensures { result ≡ lock_from asked key.now salt.now }
    {
        asked.then_some(Lock {
            key: *key,
            salt: *salt,
        })
    }
}

// What a record under a lock is read with.
#[derive(Clone, Copy)]
pub struct Key {
    pub bytes: [u8; 32],
}

impl Key {
    // The key of these bytes, if one is asked for.
    pub fn when(asked: bool, bytes: &[u8; 32]) -> Option<Key>
        ensures { result ≡ key_from asked bytes.now }
    {
        asked.then_some(Key { bytes: *bytes })
    }
}

// A text of at most 32 bytes, with zeros after it.
#[derive(Clone, Copy, PartialEq, Eq)]
pub struct Text {
    bytes: [u8; ROOM],
    len: usize,
}

// A contract sees the text's bytes.
impl Model for Text {
    ghost use Rattle.std.specs.Prelude.{◌≡◌, ◌≤◌, ◌-◌, ◌++◌, ℕ, List, length, replicate, take};
    ghost use Rattle.record.specs.Held.{text_held};

    ghost Value = { List ℕ };

    ghost view = { λ t. take t.len t.bytes };

    ghost invariant = { λ t. (t.len ≤ 32) × (length t.bytes ≡ 32) × (t.bytes ≡ take t.len t.bytes ++ replicate (32 - t.len) 0) };

    ghost inverse = { λ text. record { bytes = text ++ replicate (32 - length text) 0; len = length text } };

    ghost inverse_ok = { λ a h. text_held a h };
}

impl Text {
    // The text of no bytes.
    pub fn empty() -> Text
        ensures { result ≡ [] }
    {
        Text {
            bytes: [0; ROOM],
            len: 0,
        }
    }

    // A text of these bytes.
    pub fn new(text: &[u8]) -> Text
        requires { length text.now ≤ short.room }
        ensures { result ≡ text.now }
    {
        let mut bytes = [0; ROOM];
        seq::copy(text, &mut bytes, 0);
        Text {
            bytes,
            len: text.len(),
        }
    }

    // The text's bytes.
    pub fn as_slice(&self) -> &[u8]
        ensures { result.now ≡ self.now }
    {
        &self.bytes[..self.len]
    }

    // The number of the text's bytes.
    pub fn len(&self) -> usize
        ensures same { result ≡ length self.now }
        ensures within { result ≤ short.room }
    {
        self.len
    }

    // The text with zeros after it.
    pub fn bytes(&self) -> [u8; ROOM]
        ensures { result ≡ padded self.now }
    {
        self.bytes
    }
}

// The text of an answer, and none where it is refused.
pub fn text_given(answer: Result<Text, Refusal>) -> Text
    ensures { result ≡ text_given answer }
{
    answer.unwrap_or(Text::empty())
}

// The keystream put onto the bytes from its start. It has as many bytes, so that it never ends too early.
#[tactic(auto, unfolding(keystream::specs::Apply::applied_of, keystream::specs::Apply::bytes_after))]
fn apply_cipher(key: &[u8; 32], bytes: &mut [u8])
    requires { length bytes.old ≤ left_at 0 }
    ensures { bytes.new ≡ encrypted key.now (replicate 12 0) 0 bytes.old }
{
    keystream::apply(key, &[0; 12], 0, bytes).unwrap();
}

// Length to inner CRC put under a key, or taken from under it.
#[tactic(auto, unfolding(crate::specs::Record::covered, seq::specs::Lists::on_part))]
pub fn cover(bytes: &mut [u8], key: &[u8; 32])
    requires { length bytes.old ≡ size short }
    ensures { bytes.new ≡ covered short key.now bytes.old }
{
    apply_cipher(key, &mut bytes[LENGTH..OUTER]);
}
