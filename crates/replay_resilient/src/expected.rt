// What is expected of an answer: what it is, and the two numbers that hosts see of it, the refusal's and the one given with it.
use refusal::Refusal;
use replay_lists::stored::told;

pub type Expected<T> = (Result<T, Refusal>, u64, u64);

pub type Refused = (Refusal, u64, u64);

// An answer, as what is expected is written.
pub fn seen<T: Copy>(answer: Result<T, Refusal>) -> Expected<T> {
    let (number, given) = told(&answer);
    (answer, number, given)
}
