// A line, piece behind piece.
ghost use Rattle.std.specs.Prelude.{◌≡◌, ◌+◌, ◌≤◌, ◌<◌, ◌++◌, ◌∷◌, [], length};
ghost use Rattle.report.specs.Line.{digit, decimal, pairs, hex, room_of_line};

use std::marker::Model;

// The longest is "text 32 ", 64 digits and the line's end.
const ROOM: usize = 73;

// A line with its end, and zeros behind it. No `record::Text` with more room: a line grows piece by piece.
#[derive(Clone, Copy)]
pub struct Line {
    bytes: [u8; ROOM],
    len: usize,
}

// A contract sees the bytes that were put.
impl Model for Line {
    ghost use Rattle.std.specs.Prelude.{◌≡◌, ◌≤◌, ◌-◌, ◌++◌, ℕ, List, length, replicate, take};
    ghost use Rattle.report.specs.Held.{line_held};

    ghost Value = { List ℕ };

    ghost view = { λ l. take l.len l.bytes };

    ghost invariant = { λ l. (l.len ≤ 73) × (length l.bytes ≡ 73) × (l.bytes ≡ take l.len l.bytes ++ replicate (73 - l.len) 0) };

    ghost inverse = { λ line. record { bytes = line ++ replicate (73 - length line) 0; len = length line } };

    ghost inverse_ok = { λ a h. line_held a h };
}

// Digits by hand, here and below: `write!` promises its bytes only where it answers Ok, and a line is promised always.
#[tactic(auto, unfolding(crate::specs::Line::digit))]
fn glyph(d: u8) -> u8
    requires { d < 16 }
    ensures { result ≡ digit d }
{
    if d < 10 { b'0' + d } else { b'a' + (d - 10) }
}

impl Line {
    pub(crate) fn new() -> Line
        ensures { result ≡ [] }
    {
        Line {
            bytes: [0; ROOM],
            len: 0,
        }
    }

    // The bytes that were put.
    pub fn as_slice(&self) -> &[u8]
        ensures { result.now ≡ self.now }
    {
        &self.bytes[..self.len]
    }

    pub(crate) fn put(&mut self, piece: &[u8])
        requires { length self.old + length piece.now ≤ room_of_line }
        ensures { self.new ≡ self.old ++ piece.now }
    {
        seq::copy(piece, &mut self.bytes, self.len);
        self.len += piece.len();
    }

    fn put_digit(&mut self, d: u8)
        requires { (d < 16) × (length self.old < room_of_line) }
        ensures { self.new ≡ self.old ++ (digit d ∷ []) }
    {
        self.bytes[self.len] = glyph(d);
        self.len += 1;
    }

    // The last digit behind those of the tenth; they are at most 20.
    pub(crate) fn put_decimal(&mut self, n: u64)
        requires { length self.old + length (decimal n) ≤ room_of_line }
        ensures { self.new ≡ self.old ++ decimal n }
    {
        if n < 10 {
            self.put_digit(n as u8);
        } else {
            self.put_decimal(n / 10);
            self.put_digit((n % 10) as u8);
        }
    }

    fn put_pairs(&mut self, bytes: &[u8])
        requires { length self.old + length (pairs bytes.now) ≤ room_of_line }
        ensures { self.new ≡ self.old ++ pairs bytes.now }
    {
        for byte in bytes {
            self.put_digit(*byte / 16);
            self.put_digit(*byte % 16);
        }
    }

    // Two digits a byte, "-" if there is none.
    #[tactic(auto, using(crate::specs::Laws::hex_none, crate::specs::Laws::hex_some))]
    pub(crate) fn put_hex(&mut self, bytes: &[u8])
        requires { length self.old + length (hex bytes.now) ≤ room_of_line }
        ensures { self.new ≡ self.old ++ hex bytes.now }
    {
        if bytes.is_empty() {
            self.put(b"-");
        } else {
            self.put_pairs(bytes);
        }
    }
}
