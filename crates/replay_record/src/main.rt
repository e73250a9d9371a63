// Replays the Rust's stored answers for the crates `record_build` and `record_parse`: data/build.txt has records built and
// texts refused, data/parse.txt records read, damaged and refused. A case is six fields in both. Then texts too long for a
// list are built.
#![tactic(auto)]

use record::{Key, Lock, SIZE, Text};
use refusal::Refusal;
use replay_lists::Tally;
use replay_lists::cases::Fields;
use replay_lists::stored::told;
use std::io;

// A key, or none where the field has no bytes.
fn key_of(case: &mut Fields<'_>) -> Option<Option<[u8; 32]>> {
    let mut room = [0; 32];
    let key = case.bytes(&mut room)?;
    if key.is_empty() {
        return Some(None);
    }
    Some(Some(key.try_into().ok()?))
}

// Text, key, salt; the refusal, the number given, the record. A salt goes with a key.
fn built(mut case: Fields<'_>) -> Option<bool> {
    let mut room = [0; 512];
    let text = case.bytes(&mut room)?;
    let key = key_of(&mut case)?;
    let mut salt = [0; 4];
    let salted = case.bytes(&mut salt)?.len();
    let refusal = (case.number()?, case.number()?);
    let record = case.array()?;
    let lock = key.map(|key| Lock { key, salt });
    let answer = record_build::build_record(text, lock);
    let is_salted = salted == if key.is_some() { 4 } else { 0 };
    Some(is_salted && told(&answer) == refusal && answer.unwrap_or([0; SIZE]) == record)
}

// Record, key; the refusal, the number given, the length, the text with zeros after it.
fn parsed(mut case: Fields<'_>) -> Option<bool> {
    let record = case.array()?;
    let key = key_of(&mut case)?;
    let refusal = (case.number()?, case.number()?);
    let length = case.number()?;
    let bytes = case.array()?;
    let answer = record_parse::parse_record(&record, key.map(|bytes| Key { bytes }));
    let text = answer.unwrap_or(Text::empty());
    Some(told(&answer) == refusal && text.len() as u64 == length && text.bytes() == bytes)
}

// Whether the text is refused as too long, with its own length.
fn is_too_long(text: &[u8]) -> bool {
    let answer = record_build::build_record(text, None);
    answer == Err(Refusal::TextTooLong(text.len())) && told(&answer) == (1, text.len() as u64)
}

// Lengths that a byte or two would hold as 255, 0, 32 and 0.
fn long_texts(rt: &impl Print) -> io::Result<()> {
    let text = [b'a'; 65536];
    let mut tally = Tally::default();
    tally.count(is_too_long(&text[..255]));
    tally.count(is_too_long(&text[..256]));
    tally.count(is_too_long(&text[..288]));
    tally.count(is_too_long(&text));
    tally.report(rt, "long")
}

fn main(rt: HostRuntime) -> io::Result<()> {
    replay_lists::replay_whole(&rt, "build.txt", "build", 6, built)?;
    replay_lists::replay_whole(&rt, "parse.txt", "parse", 6, parsed)?;
    long_texts(&rt)
}
