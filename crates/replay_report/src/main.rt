// The scope's lines for the program `votes`, and others: the line for each stored input, by the function that the
// program calls.
#![tactic(auto)]

use std::io;
use std::rt::Files;

fn file(rt: &(impl Files + Print + Eprint), path: &str) -> io::Result<()> {
    let mut room = replay_lists::room();
    let bytes = replay_lists::load(rt, path, &mut room)?;
    rt.write_all(report::say(bytes).as_slice())
}

// One call for each file, since the comments between them say what the files are.
fn main(rt: HostRuntime) -> io::Result<()> {
    // No bytes, one too few and one too many, and votes of zero, of either sign.
    file(&rt, "empty")?;
    file(&rt, "short")?;
    file(&rt, "long")?;
    file(&rt, "zeros")?;
    file(&rt, "minus_zeros")?;
    // Vote 3 is a NaN, just above 1, just below -1, minus infinity; votes 3 and 2 are bad; every vote is 1 or -1.
    file(&rt, "nan")?;
    file(&rt, "above")?;
    file(&rt, "below")?;
    file(&rt, "infinite")?;
    file(&rt, "two_bad")?;
    file(&rt, "ends")?;
    // The first vote is a NaN with a minus sign; the last is infinity.
    file(&rt, "negative_nan")?;
    file(&rt, "infinite_last")?;
    // Vote 3 is a NaN, but there is one byte too few, or one too many: the length is refused.
    file(&rt, "bad_short")?;
    file(&rt, "bad_long")?;
    // A mark, nine of its votes made zero, four reversed and one zero; one without text; one under a key.
    file(&rt, "mark")?;
    file(&rt, "nine_zeroed")?;
    file(&rt, "four_reversed")?;
    file(&rt, "no_text")?;
    file(&rt, "keyed")?;
    // The limit of demand 3: ten votes made zero leave two records alike, and the zero record is read, as
    // `replay_code` shows. The line is refused since the CRC in this record is not that of its bytes.
    file(&rt, "limit")
}
