// The list of marks: texts written into pictures of 512 x 512, the smallest that can be written, and read from them.
ghost use Rattle.std.specs.Prelude.{◌≤◌};

use crate::lent::{FOUR, Samples, THREE, Work, draw, is_as_lent, is_used, lend};
use crate::square;
use crc32::crc32;
use record::{Key, Lock};
use replay_lists::cases::Fields;
use replay_lists::stored::told;
use std::io;
use std::rt::Files;

// The fields of a case, in their order: a text written with key and salt, what was said, the samples' CRC-32 after it; the key
// to read with, what was said.
#[derive(Clone, Copy)]
struct Case<'a> {
    channels: usize,
    text: &'a [u8],
    lock: Option<Lock>,
    written: (u64, u64),
    crc: u64,
    key: Option<Key>,
    read: (u64, u64),
}

// A key, or none where the field is not one.
fn key_of(fields: &mut Fields<'_>) -> Option<Key> {
    let bytes = fields.array()?;
    Some(Key { bytes })
}

// A key and a salt, of which the bytes count that are there.
fn lock_of(fields: &mut Fields<'_>) -> Option<Lock> {
    let key = key_of(fields);
    let mut salt = [0; 4];
    let _ = fields.bytes(&mut salt);
    let Key { bytes } = key?;
    Some(Lock { key: bytes, salt })
}

// None where a field is not what it has to be. The text goes into the room.
fn case_of<'a>(mut fields: Fields<'_>, room: &'a mut [u8; 64]) -> Option<Case<'a>> {
    let channels = fields.number()? as usize;
    let text = fields.bytes(room)?;
    let lock = lock_of(&mut fields);
    let written = (fields.number()?, fields.number()?);
    let crc = fields.number()?;
    let key = key_of(&mut fields);
    let read = (fields.number()?, fields.number()?);
    Some(Case {
        channels,
        text,
        lock,
        written,
        crc,
        key,
        read,
    })
}

fn samples_in(channels: usize) -> usize
    ensures { result ≤ 1048576 }
{
    if channels == 4 { FOUR } else { THREE }
}

// Whether the text is written as it is stored, or refused, and the work area used or not.
fn writes(case: &Case<'_>, samples: &mut [u8], work: &mut Work) -> bool {
    lend(work);
    let answer = resilient::write(samples, square(case.channels), case.text, case.lock, work);
    let is_left = if answer.is_ok() {
        is_used(work)
    } else {
        is_as_lent(work)
    };
    is_left && told(&answer) == case.written && u64::from(crc32(samples)) == case.crc
}

// Whether the picture is read as is stored. The work area is used, whatever the record says.
fn reads(case: &Case<'_>, samples: &[u8], work: &mut Work) -> bool {
    lend(work);
    let answer = resilient::read(samples, square(case.channels), case.key, work);
    let is_right = match &answer {
        Ok(found) => found.as_slice() == case.text,
        Err(_) => true,
    };
    is_right && told(&answer) == case.read && is_used(work)
}

fn agrees(case: &Case<'_>, samples: &mut Samples, work: &mut Work) -> bool {
    let samples = &mut samples[..samples_in(case.channels)];
    draw(samples);
    writes(case, samples, work) && reads(case, samples, work)
}

// The list in the file `name`. A case counts only with all its ten fields.
pub fn list(
    rt: &(impl Files + Print + Eprint),
    name: &str,
    samples: &mut Samples,
    work: &mut Work,
) -> io::Result<()> {
    replay_lists::replay_whole(rt, name, name, 10, |fields| {
        Some(agrees(&case_of(fields, &mut [0; 64])?, samples, work))
    })
}
