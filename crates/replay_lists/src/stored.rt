// Numbers, floats and answers of stored cases: a number with its high byte first, a float by its bits, where every NaN is stored
// as one pattern, and an answer by the two numbers that hosts see of it.
ghost use Rattle.std.specs.Prelude.{◌≡◌, ◌<◌, ◌++◌, length, MatchOption};
ghost use Rattle.refusal.specs.Numbers.{code_of, given_for};

use refusal::Refusal;
use std::num::{f32_from_bits_with_nan, f32_to_bits_with_nan};

// What is left of a string of bytes, from which one number after the other is taken.
#[derive(Clone, Copy)]
pub struct Packed<'a> {
    rest: &'a [u8],
}

impl<'a> Packed<'a> {
    pub fn of(bytes: &'a [u8]) -> Self
        ensures { result.rest.now ≡ bytes.now }
    {
        Packed { rest: bytes }
    }

    // The next N bytes.
    pub fn array<const N: usize>(&mut self) -> Option<[u8; N]>
        ensures { MatchOption result (length self.old.rest.now < N) (λ next. self.old.rest.now ≡ next ++ self.new.rest.now) }
    {
        let (next, rest) = self.rest.split_first_chunk()?;
        self.rest = rest;
        Some(*next)
    }

    pub fn byte(&mut self) -> Option<u8> {
        self.array().map(u8::from_be_bytes)
    }

    pub fn pair(&mut self) -> Option<u16> {
        self.array().map(u16::from_be_bytes)
    }

    pub fn word(&mut self) -> Option<u32> {
        self.array().map(u32::from_be_bytes)
    }

    pub fn number(&mut self) -> Option<u64> {
        self.array().map(u64::from_be_bytes)
    }

    // The bytes that are left.
    pub fn rest(self) -> &'a [u8]
        ensures { result.now ≡ self.entry.rest.now }
    {
        self.rest
    }
}

// N floats from the start of the bytes, 0.0 where there are none.
pub fn floats<const N: usize>(bytes: &[u8]) -> [f32; N] {
    let mut values = [0.0; N];
    for (value, word) in values.iter_mut().zip(bytes.as_chunks().0) {
        *value = f32_from_bits_with_nan(u32::from_be_bytes(*word));
    }
    values
}

// Whether the values are those whose bits the bytes have.
pub fn same(values: &[f32], bytes: &[u8]) -> bool {
    let (words, rest) = bytes.as_chunks();
    rest.is_empty()
        && words.len() == values.len()
        && values.iter().zip(words).all(|(x, word)| f32_to_bits_with_nan(*x)
            == u32::from_be_bytes(*word))
}

// The refusal's number and the number given with it, or zeros for none.
pub fn told<T>(answer: &Result<T, Refusal>) -> (u64, u64)
    ensures number { result.0 ≡ code_of answer.now }
    ensures given { result.1 ≡ given_for answer.now }
{
    (u64::from(refusal::code(answer)), refusal::given_for(answer))
}
