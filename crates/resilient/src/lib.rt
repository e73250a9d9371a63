// The mark as a whole: a text written into a picture's samples, and read from them, with every refusal in its order. For
// hosts. From the scope, sections 3, 4 and 18, which specs/Resilient.antt states.
#![tactic(auto)]

ghost use Rattle.std.specs.Prelude.{◌≡◌};
ghost use Rattle.resilient.specs.Resilient.{written_of, reading_of};

use picture::Picture;
use record::{Key, Lock, Text};
use refusal::Refusal;

// Writes the text into the picture, plain or under the lock's key. Refused, with samples and work area as they were
// lent: 1 to 7, the first that applies. Otherwise the work area ends as zeros.
#[tactic(auto, using(crate::specs::Sized::write_ready, crate::specs::Sized::record_built), unfolding(crate::specs::Resilient::written_of, crate::specs::Resilient::write_answer, crate::specs::Resilient::if_done, crate::specs::Resilient::text_bits))]
pub fn write(
    samples: &mut [u8],
    picture: Picture,
    text: &[u8],
    lock: Option<Lock>,
    work: &mut [f32],
) -> Result<(), Refusal>
    ensures answer { result ≡ (written_of text.now lock picture samples.old work.old).answer }
    ensures samples { samples.new ≡ (written_of text.now lock picture samples.old work.old).samples }
    ensures work { work.new ≡ (written_of text.now lock picture samples.old work.old).work }
{
    let record = record_build::build_record(text, lock)?;
    admission::may_write(picture, samples.len(), work.len())?;
    let bits = layout::block_bits(&encoder::encode(&record));
    carrier::mark(samples, picture, &bits, work);
    Ok(())
}

// The text that the picture carries, read with a key or with none. Refused, with the work area as it was lent: a zero
// side, and 4 to 7. Refused behind these is what `parse_record` refuses; then, and where the
// text is read, the work area ends as zeros.
#[tactic(auto, using(crate::specs::Sized::read_ready), unfolding(crate::specs::Resilient::reading_of, crate::specs::Resilient::reading_from, crate::specs::Resilient::if_done))]
pub fn read(
    samples: &[u8],
    picture: Picture,
    key: Option<Key>,
    work: &mut [f32],
) -> Result<Text, Refusal>
    ensures reading { result ≡ (reading_of key picture samples.now work.old).reading }
    ensures work { work.new ≡ (reading_of key picture samples.now work.old).work }
{
    admission::may_read(picture, samples.len(), work.len())?;
    let votes = carrier::votes(samples, picture, work);
    extract::text_of(&votes, key)
}
