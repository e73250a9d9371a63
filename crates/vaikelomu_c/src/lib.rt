// The static library for C: the functions of `vaikelomu` under their own names, each with the promise of what it calls.
// `include/vaikelomu.h` says in words what is promised here.
#![tactic(auto)]

ghost use Rattle.std.specs.Prelude.{◌≡◌};
ghost use Rattle.refusal.specs.Numbers.{code_of, given_for};
ghost use Rattle.record.specs.Answers.{text_given, padded};
ghost use Rattle.extract.specs.Extract.{record_reading};
ghost use Rattle.vaikelomu.specs.C.{version, length_of, record_lent, written_for, read_for, votes_for};

use encoder::RECORD;

// The version as one number, by which a host sees that header and archive belong together.
#[unsafe(no_mangle)]
pub extern "C" fn vaikelomu_version() -> u32
    ensures { result ≡ version }
{
    vaikelomu::vaikelomu_version()
}

// Writes the text into the picture, plain where `locked` is 0, else under the key. The answer is 0, or the refusal's
// number, with samples and work area as they were lent; `given` becomes the number given with it.
#[unsafe(no_mangle)]
pub extern "C" fn vaikelomu_write(
    samples: &mut [u8],
    width: usize,
    height: usize,
    channels: usize,
    text: &[u8],
    locked: u8,
    key: &[u8; 32],
    salt: &[u8; 4],
    work: &mut [f32],
    given: &mut u64,
) -> u8
    ensures answer { result
        ≡ code_of (written_for samples.old width height channels text.now locked key.now salt.now
        work.old).answer }
    ensures samples { samples.new
        ≡ (written_for samples.old width height channels text.now locked key.now salt.now
        work.old).samples }
    ensures work { work.new
        ≡ (written_for samples.old width height channels text.now locked key.now salt.now
        work.old).work }
    ensures number { given.new
        ≡ given_for (written_for samples.old width height channels text.now locked key.now salt.now
        work.old).answer }
{
    vaikelomu::vaikelomu_write(
        samples, width, height, channels, text, locked, key, salt, work, given,
    )
}

// Reads the picture's text, with no key where `keyed` is 0, else with the key. The answer is 0, with the text, zeros
// after it, and its length; or the refusal's number, with zeros for both, and `given` becomes the number given with it.
#[unsafe(no_mangle)]
pub extern "C" fn vaikelomu_read(
    samples: &[u8],
    width: usize,
    height: usize,
    channels: usize,
    keyed: u8,
    key: &[u8; 32],
    work: &mut [f32],
    text: &mut [u8; 32],
    length: &mut usize,
    given: &mut u64,
) -> u8
    ensures answer { result ≡ code_of (read_for samples.now width height channels keyed key.now work.old).reading }
    ensures work { work.new ≡ (read_for samples.now width height channels keyed key.now work.old).work }
    ensures text { text.new
        ≡ padded (text_given (read_for samples.now width height channels keyed key.now work.old).reading) }
    ensures length { length.new
        ≡ length_of (text_given (read_for samples.now width height channels keyed key.now work.old).reading) }
    ensures number { given.new
        ≡ given_for (read_for samples.now width height channels keyed key.now work.old).reading }
{
    vaikelomu::vaikelomu_read(
        samples, width, height, channels, keyed, key, work, text, length, given,
    )
}

// The same from the votes of the picture's blocks.
#[unsafe(no_mangle)]
pub extern "C" fn vaikelomu_read_votes(
    votes: &[f32],
    keyed: u8,
    key: &[u8; 32],
    text: &mut [u8; 32],
    length: &mut usize,
    given: &mut u64,
) -> u8
    ensures answer { result ≡ code_of (votes_for votes.now keyed key.now) }
    ensures text { text.new ≡ padded (text_given (votes_for votes.now keyed key.now)) }
    ensures length { length.new ≡ length_of (text_given (votes_for votes.now keyed key.now)) }
    ensures number { given.new ≡ given_for (votes_for votes.now keyed key.now) }
{
    vaikelomu::vaikelomu_read_votes(votes, keyed, key, text, length, given)
}

// The record that the votes decode to. The answer is 0, with the record; or the refusal's number, with zeros, and `given`
// becomes the number given with it.
#[unsafe(no_mangle)]
pub extern "C" fn vaikelomu_record(votes: &[f32], bytes: &mut [u8; RECORD], given: &mut u64) -> u8
    ensures answer { result ≡ code_of (record_reading votes.now) }
    ensures bytes { bytes.new ≡ record_lent (record_reading votes.now) }
    ensures number { given.new ≡ given_for (record_reading votes.now) }
{
    vaikelomu::vaikelomu_record(votes, bytes, given)
}
