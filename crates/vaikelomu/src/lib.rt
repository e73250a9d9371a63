// The mark as C sees it, for the archive and everyone who links the static library: writing a text into a picture,
// reading it, and reading it from votes. Numbers and lent memory only; nothing is asked of the caller but that the memory
// is there. A flag is a byte, since C may lend a `bool` that is neither true nor false. `include/vaikelomu.h` says in words
// what is promised here; `vaikelomu_c` exports these functions.
#![tactic(auto)]

ghost use Rattle.std.specs.Prelude.{◌≡◌};
ghost use Rattle.refusal.specs.Numbers.{code_of, given_for};
ghost use Rattle.record.specs.Answers.{text_given, padded};
ghost use Rattle.extract.specs.Extract.{record_reading};
ghost use Rattle.vaikelomu.specs.C.{version, picture_of, length_of, record_lent, written_for, read_for, votes_for};

use encoder::RECORD;
use picture::Picture;
use record::{Key, Lock, Text};
use refusal::Refusal;

// The version of what C links, 0.1.0, as include/vaikelomu.h has it.
const MAJOR: u32 = 0;

const MINOR: u32 = 1;

const PATCH: u32 = 0;

// The version as one number, by which a host sees that header and archive belong together.
pub fn vaikelomu_version() -> u32
    ensures { result ≡ version }
{
    MAJOR << 16 | MINOR << 8 | PATCH
}

// The fields say which number is which, as a `new` of three numbers would not.
fn picture_of(width: usize, height: usize, channels: usize) -> Picture
    ensures { result ≡ picture_of width height channels }
{
    Picture {
        width,
        height,
        channels,
    }
}

// Writes the text into the picture, plain where `locked` is 0, else under the key. The answer is 0, or the refusal's
// number, with samples and work area as they were lent; `given` becomes the number given with it.
pub fn vaikelomu_write(
    samples: &mut [u8],
    width: usize,
    height: usize,
    channels: usize,
    text: &[u8],
    locked: u8,
    key: &[u8; 32],
    salt: &[u8; 4],
    work: &mut [f32],
    given: &mut u64,
) -> u8
    ensures answer { result
        ≡ code_of (written_for samples.old width height channels text.now locked key.now salt.now
        work.old).answer }
    ensures samples { samples.new
        ≡ (written_for samples.old width height channels text.now locked key.now salt.now
        work.old).samples }
    ensures work { work.new
        ≡ (written_for samples.old width height channels text.now locked key.now salt.now
        work.old).work }
    ensures number { given.new
        ≡ given_for (written_for samples.old width height channels text.now locked key.now salt.now
        work.old).answer }
{
    let picture = picture_of(width, height, channels);
    let lock = Lock::when(locked != 0, key, salt);
    let answer = resilient::write(samples, picture, text, lock, work);
    *given = refusal::given_for(&answer);
    refusal::code(&answer)
}

// What was read, put where C looks for it: no text where it is refused.
fn tell(
    reading: &Result<Text, Refusal>,
    text: &mut [u8; 32],
    length: &mut usize,
    given: &mut u64,
) -> u8
    ensures answer { result ≡ code_of reading.now }
    ensures text { text.new ≡ padded (text_given reading.now) }
    ensures length { length.new ≡ length_of (text_given reading.now) }
    ensures number { given.new ≡ given_for reading.now }
{
    let read = record::text_given(*reading);
    *text = read.bytes();
    *length = read.len();
    *given = refusal::given_for(reading);
    refusal::code(reading)
}

// Reads the picture's text, with no key where `keyed` is 0, else with the key. The answer is 0, with the text, zeros
// after it, and its length; or the refusal's number, with zeros for both, and `given` becomes the number given with it.
pub fn vaikelomu_read(
    samples: &[u8],
    width: usize,
    height: usize,
    channels: usize,
    keyed: u8,
    key: &[u8; 32],
    work: &mut [f32],
    text: &mut [u8; 32],
    length: &mut usize,
    given: &mut u64,
) -> u8
    ensures answer { result ≡ code_of (read_for samples.now width height channels keyed key.now work.old).reading }
    ensures work { work.new ≡ (read_for samples.now width height channels keyed key.now work.old).work }
    ensures text { text.new
        ≡ padded (text_given (read_for samples.now width height channels keyed key.now work.old).reading) }
    ensures length { length.new
        ≡ length_of (text_given (read_for samples.now width height channels keyed key.now work.old).reading) }
    ensures number { given.new
        ≡ given_for (read_for samples.now width height channels keyed key.now work.old).reading }
{
    let picture = picture_of(width, height, channels);
    let reading = resilient::read(samples, picture, Key::when(keyed != 0, key), work);
    tell(&reading, text, length, given)
}

// The same from the votes of the picture's blocks.
pub fn vaikelomu_read_votes(
    votes: &[f32],
    keyed: u8,
    key: &[u8; 32],
    text: &mut [u8; 32],
    length: &mut usize,
    given: &mut u64,
) -> u8
    ensures answer { result ≡ code_of (votes_for votes.now keyed key.now) }
    ensures text { text.new ≡ padded (text_given (votes_for votes.now keyed key.now)) }
    ensures length { length.new ≡ length_of (text_given (votes_for votes.now keyed key.now)) }
    ensures number { given.new ≡ given_for (votes_for votes.now keyed key.now) }
{
    let reading = extract::read_votes(votes, Key::when(keyed != 0, key));
    tell(&reading, text, length, given)
}

// The record that the votes decode to. The answer is 0, with the record; or the refusal's number, with zeros, and `given`
// becomes the number given with it.
pub fn vaikelomu_record(votes: &[f32], bytes: &mut [u8; RECORD], given: &mut u64) -> u8
    ensures answer { result ≡ code_of (record_reading votes.now) }
    ensures bytes { bytes.new ≡ record_lent (record_reading votes.now) }
    ensures number { given.new ≡ given_for (record_reading votes.now) }
{
    let found = extract::record_of(votes);
    *bytes = found.unwrap_or([0; RECORD]);
    *given = refusal::given_for(&found);
    refusal::code(&found)
}
