// The reading of a record, with every refusal in its order. The Rust's `parse_record`; the definition stands in
// record/specs/Record.antt.
#![tactic(auto)]

ghost use Rattle.std.specs.Prelude.{◌≡◌};
ghost use Rattle.record.specs.Record.{short, parsed_of};

use record::{Key, Mode, OUTER, SALT, SIZE, Text, cover, crc};
use record_inside::inside;
use refusal::Refusal;

// The text that a record holds, read with a key or with none. The salt of a plain record counts for the
// CRCs only.
#[tactic(auto, unfolding(record::specs::Record::parsed_of, record::specs::Record::opened_of, record::specs::Modes::mode_of))]
pub fn parse_record(bytes: &[u8; SIZE], key: Option<Key>) -> Result<Text, Refusal>
    ensures { result ≡ parsed_of short bytes.now key }
{
    if !crc::intact(bytes, OUTER) {
        return Err(Refusal::NoWatermark);
    }
    match (Mode::try_from(bytes[0])?, key) {
        (Mode::Plain, None) => inside(bytes, Refusal::Damaged),
        (Mode::Plain, Some(_)) => Err(Refusal::NotEncrypted),
        (Mode::Keyed, None) => Err(Refusal::PasswordRequired(crc::number_at(bytes, SALT))),
        (Mode::Keyed, Some(key)) => {
            let mut opened = *bytes;
            cover(&mut opened, &key.bytes);
            inside(&opened, Refusal::WrongPasswordOrDamaged)
        }
    }
}
