// Reads votes from standard input and prints the line that crate `report` answers them with: `text 5 68656c6c6f`, `text 0 -`,
// or `refused 8 0`.
#![tactic(auto)]

ghost use Rattle.std.specs.Io.{ReadsAtMost};

use report::INPUT;
use std::io;
use std::io::Read;

// Reads until `bytes` is full or the input ends, and answers how many stand at its start. A loop over a lent array, and not
// `read_to_end`, whose vector can fail for want of memory.
fn read_full(input: &mut impl Read, bytes: &mut [u8]) -> io::Result<usize>
    ensures { ReadsAtMost result bytes.new }
{
    let mut count = 0;
    while count < bytes.len() {
        let more = input.read(&mut bytes[count..])?;
        if more == 0 {
            break;
        }
        count += more;
    }
    Ok(count)
}

fn main(rt: HostRuntime) -> io::Result<()> {
    let mut bytes = [0; INPUT];
    let count = read_full(&mut rt.reader(), &mut bytes)?;
    rt.write_all(report::say(&bytes[..count]).as_slice())
}
