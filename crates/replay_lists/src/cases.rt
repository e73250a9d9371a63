// The fields of a text, what they hold, and its cases.
ghost use Rattle.std.specs.Prelude.{◌≤◌, length, IfSome};
ghost use Rattle.std.specs.Iterator.{at_most};
ghost use Rattle.replay_lists.specs.Fields.{IsNextField, IsPartBehind};

use crate::hex::{hex_bytes, hex_number};

// The fields of a text from here on, past blanks and past lines that begin with #.
#[derive(Clone, Copy)]
pub struct Fields<'a> {
    rest: &'a [u8],
}

impl<'a> Iterator for Fields<'a> {
    type Item = &'a [u8];

    ghost next_gives = { λ s r t. IsNextField s.rest.now r t.rest.now };

    ghost remaining = { λ s. at_most (length s.rest.now) };

    fn next(&mut self) -> Option<&'a [u8]> {
        self.rest = past_blanks(self.rest);
        let (_, behind) = self.rest.split_first()?;
        let more = behind
            .iter()
            .position(|byte| is_blank(*byte))
            .unwrap_or(behind.len());
        let (field, rest) = self.rest.split_at(1 + more);
        self.rest = rest;
        Some(field)
    }
}

impl<'a> Fields<'a> {
    pub fn of(text: &'a [u8]) -> Self {
        Fields { rest: text }
    }

    // The next field as a string of bytes, which goes to the start of `room`: the part that it fills. None where the field is no
    // such string, or has no room there. Past the text's end a field has no bytes.
    pub fn bytes<'b>(&mut self, room: &'b mut [u8]) -> Option<&'b [u8]>
        ensures { IfSome result (λ part. length part.now ≤ length room.old) }
    {
        hex_bytes(self.next().unwrap_or(&[]), room)
    }

    // The next field as a string of just N bytes.
    pub fn array<const N: usize>(&mut self) -> Option<[u8; N]> {
        self.bytes(&mut [0; N])?.try_into().ok()
    }

    // The next field as a number of at most sixteen digits.
    pub fn number(&mut self) -> Option<u64> {
        hex_number(self.next()?)
    }
}

fn is_blank(byte: u8) -> bool {
    byte == b' ' || byte == b'\n'
}

// What follows blanks and lines that begin with #.
fn past_blanks(text: &[u8]) -> &[u8]
    ensures { IsPartBehind text.now result.now }
{
    let mut rest = text;
    while let Some((first, behind)) = rest.split_first() {
        if is_blank(*first) {
            rest = behind;
        } else if *first == b'#' {
            rest = past_line(behind);
        } else {
            break;
        }
    }
    rest
}

// What follows the line, from its end on.
fn past_line(text: &[u8]) -> &[u8]
    ensures { IsPartBehind text.now result.now }
{
    let end = text
        .iter()
        .position(|byte| *byte == b'\n')
        .unwrap_or(text.len());
    text.split_at(end).1
}

// The cases of a text: each has `size` fields, and counts where `needed` of them are there.
#[derive(Clone, Copy)]
pub struct Cases<'a> {
    fields: Fields<'a>,
    size: usize,
    needed: usize,
}

impl<'a> Cases<'a> {
    // The last case counts although fields are missing.
    pub fn of(text: &'a [u8], size: usize) -> Self {
        Cases {
            fields: Fields::of(text),
            size,
            needed: 1,
        }
    }

    // A case counts only with all its fields.
    pub fn whole(text: &'a [u8], size: usize) -> Self {
        Cases {
            fields: Fields::of(text),
            size,
            needed: size,
        }
    }
}

impl<'a> Iterator for Cases<'a> {
    type Item = Fields<'a>;

    ghost remaining = { λ s. at_most (length s.fields.rest.now) };

    // The fields from the case's first on.
    fn next(&mut self) -> Option<Fields<'a>> {
        let case = self.fields;
        // Counted by hand: no proof knows how far a closure goes on in `self.fields`.
        let mut found = 0;
        while found < self.size && self.fields.next().is_some() {
            found += 1;
        }
        if 0 < found && self.needed <= found {
            Some(case)
        } else {
            None
        }
    }
}
