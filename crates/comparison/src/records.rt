// Crates `record_build` and `record_parse`. C gives a flag and what it speaks of beside it. An answer is given as 0 or as the
// refusal's number, and the number that goes with it at `given`.
ghost use Rattle.std.specs.Prelude.{◌≡◌};
ghost use Rattle.record.specs.Record.{short, built_of, parsed_of};
ghost use Rattle.record.specs.Answers.{text_given, padded};
ghost use Rattle.refusal.specs.Numbers.{code_of, given_for};
ghost use Rattle.record.specs.Given.{lock_from, key_from};
ghost use Rattle.comparison.specs.Records.{record_given, length_given};

use record::{Key, Lock, SIZE};

#[unsafe(no_mangle)]
pub extern "C" fn vk_record(
    text: &[u8],
    keyed: bool,
    key: &[u8; 32],
    salt: &[u8; 4],
    bytes: &mut [u8; SIZE],
    given: &mut u64,
) -> u8
    ensures answer { result ≡ code_of (built_of short text.now (lock_from keyed key.now salt.now)) }
    ensures lent { bytes.new ≡ record_given (built_of short text.now (lock_from keyed key.now salt.now)) }
    ensures number { given.new ≡ given_for (built_of short text.now (lock_from keyed key.now salt.now)) }
{
    let built = record_build::build_record(text, Lock::when(keyed, key, salt));
    *bytes = built.unwrap_or([0; SIZE]);
    *given = refusal::given_for(&built);
    refusal::code(&built)
}

#[unsafe(no_mangle)]
pub extern "C" fn vk_parse(
    bytes: &[u8; SIZE],
    keyed: bool,
    key: &[u8; 32],
    text: &mut [u8; 32],
    length: &mut usize,
    given: &mut u64,
) -> u8
    ensures answer { result ≡ code_of (parsed_of short bytes.now (key_from keyed key.now)) }
    ensures lent { text.new ≡ padded (text_given (parsed_of short bytes.now (key_from keyed key.now))) }
    ensures long { length.new ≡ length_given (parsed_of short bytes.now (key_from keyed key.now)) }
    ensures number { given.new ≡ given_for (parsed_of short bytes.now (key_from keyed key.now)) }
{
    let read = record_parse::parse_record(bytes, Key::when(keyed, key));
    let held = record::text_given(read);
    *text = held.bytes();
    *length = held.len();
    *given = refusal::given_for(&read);
    refusal::code(&read)
}
