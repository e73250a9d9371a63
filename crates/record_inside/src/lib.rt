// The inside of a record in the clear: length, padding, inner CRC and text, tested in this order. For `record_parse`. The
// definition stands in record/specs/Record.antt.
#![tactic(auto)]

ghost use Rattle.std.specs.Prelude.{◌≡◌, length};
ghost use Rattle.record.specs.Record.{short, size, all_zero, sound, inside_of};

use record::{INNER, LENGTH, ROOM, TEXT, Text, crc};
use refusal::Refusal;

// Whether the padding is what it must be.
fn all_zero(bytes: &[u8]) -> bool
    ensures { result ≡ all_zero bytes.now }
{
    bytes.iter().all(|b| *b == 0)
}

// Whether length, padding, inner CRC and text are right.
#[tactic(auto, unfolding(record::specs::Record::sound, record::specs::Record::text_in, record::specs::Record::padding_in))]
pub fn sound(bytes: &[u8]) -> bool
    requires { length bytes.now ≡ size short }
    ensures { result ≡ sound short bytes.now }
{
    let length = usize::from(bytes[LENGTH]);
    length <= ROOM
        && all_zero(&bytes[TEXT + length..INNER])
        && crc::intact(bytes, INNER)
        && utf8::well_formed(&bytes[TEXT..TEXT + length])
}

// The text of a record that is in the clear, and where the inside is not right, that refusal.
#[tactic(auto, using(record::specs::Laws::sound_length), unfolding(record::specs::Record::inside_of, record::specs::Record::text_in))]
pub fn inside(bytes: &[u8], wrong: Refusal) -> Result<Text, Refusal>
    requires { length bytes.now ≡ size short }
    ensures { result ≡ inside_of short wrong bytes.now }
{
    if !sound(bytes) {
        return Err(wrong);
    }
    let length = usize::from(bytes[LENGTH]);
    Ok(Text::new(&bytes[TEXT..TEXT + length]))
}
