// The reasons to refuse a call, in the order of their numbers, each with the value that the number given is made of;
// and the two numbers that hosts see of a call's answer, `code` and `given_for`. The one place that knows them.
#![tactic(auto)]

ghost use Rattle.std.specs.Prelude.{◌≡◌};
ghost use Rattle.refusal.specs.Numbers.{number_of, given_of, code_of, given_for, first};

#[derive(Clone, Copy, PartialEq, Eq, Debug)]
pub enum Refusal {
    // The text's length, over 32 bytes.
    TextTooLong(usize),
    TextNotUtf8,
    // The shorter side, under 512.
    ImageTooSmall(usize),
    // The longer side, over 8,192.
    ImageTooLarge(usize),
    // The channels, neither 3 nor 4.
    BadChannels(usize),
    // The length of the samples or of the votes.
    BadLength(usize),
    // How many `f32` are needed.
    WorkTooSmall(usize),
    NoWatermark,
    // The record's mode.
    UnsupportedVersion(u8),
    NotEncrypted,
    // The record's salt, read big-endian.
    PasswordRequired(u32),
    Damaged,
    WrongPasswordOrDamaged,
    KeystreamEnd,
    // The place of the first bad vote.
    BadVote(usize),
}

impl Refusal {
    // The refusal's number, 1 to 15.
    pub fn number(self) -> u8
        ensures { result ≡ number_of self }
    {
        match self {
            Refusal::TextTooLong(_) => 1,
            Refusal::TextNotUtf8 => 2,
            Refusal::ImageTooSmall(_) => 3,
            Refusal::ImageTooLarge(_) => 4,
            Refusal::BadChannels(_) => 5,
            Refusal::BadLength(_) => 6,
            Refusal::WorkTooSmall(_) => 7,
            Refusal::NoWatermark => 8,
            Refusal::UnsupportedVersion(_) => 9,
            Refusal::NotEncrypted => 10,
            Refusal::PasswordRequired(_) => 11,
            Refusal::Damaged => 12,
            Refusal::WrongPasswordOrDamaged => 13,
            Refusal::KeystreamEnd => 14,
            Refusal::BadVote(_) => 15,
        }
    }

    // The number given with it, 0 where there is none to give.
    pub fn given(self) -> u64
        ensures { result ≡ given_of self }
    {
        match self {
            Refusal::TextTooLong(length) => length as u64,
            Refusal::TextNotUtf8 => 0,
            Refusal::ImageTooSmall(side) => side as u64,
            Refusal::ImageTooLarge(side) => side as u64,
            Refusal::BadChannels(count) => count as u64,
            Refusal::BadLength(length) => length as u64,
            Refusal::WorkTooSmall(needed) => needed as u64,
            Refusal::NoWatermark => 0,
            Refusal::UnsupportedVersion(mode) => u64::from(mode),
            Refusal::NotEncrypted => 0,
            Refusal::PasswordRequired(salt) => u64::from(salt),
            Refusal::Damaged => 0,
            Refusal::WrongPasswordOrDamaged => 0,
            Refusal::KeystreamEnd => 0,
            Refusal::BadVote(index) => index as u64,
        }
    }
}

// 0 where nothing is refused, else the refusal's number.
pub fn code<T>(answer: &Result<T, Refusal>) -> u8
    ensures { result ≡ code_of answer.now }
{
    match answer {
        Ok(_) => 0,
        Err(r) => r.number(),
    }
}

// 0 where nothing is refused, else the number given with the refusal.
pub fn given_for<T>(answer: &Result<T, Refusal>) -> u64
    ensures { result ≡ given_for answer.now }
{
    match answer {
        Ok(_) => 0,
        Err(r) => r.given(),
    }
}

// The first of two answers that is a refusal.
pub fn first(a: Result<(), Refusal>, b: Result<(), Refusal>) -> Result<(), Refusal>
    ensures { result ≡ first a b }
{
    a.and(b)
}
