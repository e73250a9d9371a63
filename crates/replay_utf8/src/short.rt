// All strings of one byte and of two, in order. The list has 257 lines of eight words: line 0 for the strings of one byte,
// line 1 + b for those of two that start with b. Each string has two bits of a word, in the order of the last byte.
ghost use Rattle.std.specs.Prelude.{◌≤◌, ◌<◌};

use replay_lists::Tally;
use replay_lists::cases::Fields;
use std::io;
use std::rt::Files;

// The answer for the string of a line that ends in `last`.
fn answer_on(line: usize, last: u8) -> u64
    requires { line ≤ 256 }
{
    if line == 0 {
        return super::answer(&[last]);
    }
    super::answer(&[(line - 1) as u8, last])
}

// Compares the 32 strings of word k. All of them differ where there is no word.
fn compare(k: usize, word: Option<u64>, tally: &mut Tally)
    requires { k < 2056 }
{
    // By number, since the number is the string.
    for j in 0..32 {
        let answer = answer_on(k / 8, (k % 8 * 32 + j) as u8);
        tally.count(word.is_some_and(|word| answer == (word >> (2 * j)) % 4));
    }
}

pub fn replay(rt: &(impl Files + Print + Eprint), name: &str) -> io::Result<()> {
    let mut room = replay_lists::room();
    let mut words = Fields::of(replay_lists::load(rt, name, &mut room)?);
    let mut tally = Tally::default();
    // By number, since words that are not in the list count too.
    for k in 0..2056 {
        compare(k, words.number(), &mut tally);
    }
    tally.report(rt, name)
}
