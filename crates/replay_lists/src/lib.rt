// Lists of stored cases, which the replay programs compare with: text in lines, where a line that begins with # says what the
// list is and each other line is a case, of fields with a space between them. A field is a number or a string of bytes in
// hexadecimal, or - for no bytes. A program replays a list by a closure that says of one case whether it agrees.
// Only `main` may take the `HostRuntime`: a function below it names by bounds what it uses of the host.
#![tactic(auto)]

pub mod cases;
mod hex;
pub mod stored;

ghost use Rattle.std.specs.Prelude.{◌+◌, ◌-◌, ◌≤◌, ◌≡◌, min, cond, length, IfOk};
ghost use Rattle.std.specs.Io.{ReadsAtMost};

use cases::{Cases, Fields};
use std::io::Read;
use std::rt::Files;
use std::{fs, io};

// Room for a list: one byte less than this is the longest that is taken.
pub fn room() -> [u8; 262144]
    ensures { 262144 ≡ length result }
{
    [0; 262144]
}

// The text of the list in the file: nothing, with a word on standard error, where it cannot be read or has no room. The room
// has what was read all the same. An error is that of writing this word.
pub fn load<'a>(rt: &(impl Files + Eprint), path: &str, room: &'a mut [u8]) -> io::Result<&'a [u8]>
    ensures { IfOk result (λ text. length text.now ≤ length room.old - 1) }
{
    match read_file(rt, path, room) {
        Ok(count) if count < room.len() => return Ok(&room[..count]),
        Ok(_) => eprintln!(rt; "a list has no room")?,
        Err(error) => eprintln!(rt; "{path}: {error}")?,
    }
    Ok(&[])
}

fn read_file(files: &impl Files, path: &str, room: &mut [u8]) -> io::Result<usize>
    ensures { ReadsAtMost result room.new }
{
    read_full(&mut fs::open(files, path)?, room)
}

// Reads until the room is full or the input ends, and answers how many bytes stand at its start.
fn read_full(input: &mut impl Read, room: &mut [u8]) -> io::Result<usize>
    ensures { ReadsAtMost result room.new }
{
    let mut count = 0;
    while count < room.len() {
        let more = input.read(&mut room[count..])?;
        if more == 0 {
            break;
        }
        count += more;
    }
    Ok(count)
}

// How many cases were compared, and how many of them differ.
#[derive(Clone, Copy, Default)]
pub struct Tally {
    pub compared: u64,
    pub different: u64,
}

impl Tally {
    // One more case, which agrees or differs.
    pub fn count(&mut self, agrees: bool)
        ensures compared { self.new.compared ≡ min (self.old.compared + 1) 18446744073709551615 }
        ensures different { self.new.different ≡
            cond agrees self.old.different (min (self.old.different + 1) 18446744073709551615) }
    {
        self.compared = self.compared.saturating_add(1);
        if !agrees {
            self.different = self.different.saturating_add(1);
        }
    }

    // The line that a replay program ends with.
    pub fn report(self, rt: &impl Print, name: &str) -> io::Result<()> {
        let compared = self.compared;
        let different = self.different;
        println!(rt; "{name}: {compared} compared, {different} different")
    }
}

// Replays cases: of each the closure says whether it agrees, or nothing where a field is not what it has to be, and then the
// case differs.
pub fn compare<F: FnMut(Fields<'_>) -> Option<bool>>(cases: Cases<'_>, mut agrees: F) -> Tally
    requires { F.IsAlwaysCallable agrees }
{
    let mut tally = Tally::default();
    for case in cases {
        tally.count(agrees(case) == Some(true));
    }
    tally
}

// Replays the list in the file `path`, of cases of `size` fields, under the file's name.
pub fn replay<F: FnMut(Fields<'_>) -> Option<bool>>(
    rt: &(impl Files + Print + Eprint),
    path: &str,
    size: usize,
    agrees: F,
) -> io::Result<()>
    requires { F.IsAlwaysCallable agrees }
{
    replay_as(rt, path, path, size, agrees)
}

// The same under the name `name`. Not inlined, here and below: a caller of several lists would hold a room for each.
#[inline(never)]
pub fn replay_as<F: FnMut(Fields<'_>) -> Option<bool>>(
    rt: &(impl Files + Print + Eprint),
    path: &str,
    name: &str,
    size: usize,
    agrees: F,
) -> io::Result<()>
    requires { F.IsAlwaysCallable agrees }
{
    let mut room = room();
    let text = load(rt, path, &mut room)?;
    compare(Cases::of(text, size), agrees).report(rt, name)
}

// The same where a case counts only with all its fields.
#[inline(never)]
pub fn replay_whole<F: FnMut(Fields<'_>) -> Option<bool>>(
    rt: &(impl Files + Print + Eprint),
    path: &str,
    name: &str,
    size: usize,
    agrees: F,
) -> io::Result<()>
    requires { F.IsAlwaysCallable agrees }
{
    let mut room = room();
    let text = load(rt, path, &mut room)?;
    compare(Cases::whole(text, size), agrees).report(rt, name)
}
