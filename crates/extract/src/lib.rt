// From the votes of a picture's blocks to the record that they decode to, and to its text. For the crate `resilient`, whose
// votes are a picture's, and for those who have votes only; the one place that knows the order in which votes are refused.
// The definition is specs/Extract.antt; what may be relied on beyond it is specs/Theorems.antt and specs/EndToEnd.antt.
#![tactic(auto)]

ghost use Rattle.std.specs.Prelude.{◌≡◌};
ghost use Rattle.correction.specs.Demand3.{decoded_from};
ghost use Rattle.extract.specs.Extract.{first_bad, text_of, record_reading, votes_reading};

use encoder::RECORD;
use picture::BLOCKS;
use record::{Key, Text};
use refusal::Refusal;

// The record that the blocks' votes decode to, whatever the votes.
#[tactic(auto, unfolding(correction::specs::Demand3::decoded_from))]
fn decode(votes: &[f32; BLOCKS]) -> [u8; RECORD]
    ensures { result ≡ decoded_from votes.now }
{
    let soft = layout::gather(votes);
    decoder::viterbi(&soft)
}

// The text of the record that the blocks' votes decode to, whatever the votes. Refused: what `parse_record` refuses.
pub fn text_of(votes: &[f32; BLOCKS], key: Option<Key>) -> Result<Text, Refusal>
    ensures { result ≡ text_of votes.now key }
{
    record_parse::parse_record(&decode(votes), key)
}

// The place of the first vote that is not a number from -1 to 1.
fn first_bad(votes: &[f32]) -> Option<usize>
    ensures { result ≡ first_bad votes.now }
{
    votes.iter().position(|v| !float::in_unit(*v))
}

// The record that the blocks' votes decode to. Refused: another number of votes than blocks, and a vote that is not a
// number from -1 to 1.
#[tactic(auto, unfolding(crate::specs::Extract::record_reading))]
pub fn record_of(votes: &[f32]) -> Result<[u8; RECORD], Refusal>
    ensures { result ≡ record_reading votes.now }
{
    let Some(all) = votes.as_array::<BLOCKS>() else {
        return Err(Refusal::BadLength(votes.len()));
    };
    if let Some(bad) = first_bad(votes) {
        return Err(Refusal::BadVote(bad));
    }
    Ok(decode(all))
}

// The text that the blocks' votes give, read with a key or with none. Refused: what `record_of` and then what
// `parse_record` refuses.
#[tactic(auto, unfolding(crate::specs::Extract::votes_reading))]
pub fn read_votes(votes: &[f32], key: Option<Key>) -> Result<Text, Refusal>
    ensures { result ≡ votes_reading votes.now key }
{
    let bytes = record_of(votes)?;
    record_parse::parse_record(&bytes, key)
}
