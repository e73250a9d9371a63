// Text as bytes. `well_formed` is UTF-8 by RFC 3629, which decides on reading. `counted` is the scope's check on
// writing: it counts the bytes that follow a lead byte, and lets overlong forms, surrogates and numbers above 10FFFF pass.
#![tactic(auto)]

ghost use Rattle.std.specs.Prelude.{◌≡◌, [], List};
ghost use Rattle.utf8.specs.Forms.{Form, following, forms, accepts};
ghost use Rattle.utf8.specs.Rfc3629.{UTF8-char, well_formed};
ghost use Rattle.utf8.specs.Counted.{counted_char, counted};
ghost use Rattle.utf8.specs.Reading.{due, due_of, expected};

// What has to follow: so many bytes, the first of them from a lowest to a highest, and the others from 80 to BF.
#[derive(Clone, Copy)]
struct Due {
    left: u8,
    low: u8,
    high: u8,
}

impl Due {
    fn new(left: u8, low: u8, high: u8) -> Self
        ensures { due_of result ≡ due left low high }
    {
        Due { left, low, high }
    }

    // So many bytes, all of them from 80 to BF.
    fn tails(left: u8) -> Self
        ensures { due_of result ≡ due left 0x80 0xBF }
    {
        Due::new(left, 0x80, 0xBF)
    }
}

// A grammar that tells a character's form by its first byte. One reading serves every such grammar.
trait Grammar {
    ghost characters: { List Form };

    // What follows a first byte, or `None` where it starts no character.
    fn after(lead: u8) -> Option<Due>
        ensures { expected result ≡ following characters lead };
}

// RFC 3629, section 4.
struct Rfc3629;

impl Grammar for Rfc3629 {
    ghost characters = { forms UTF8-char };

    fn after(lead: u8) -> Option<Due> {
        // Before the others: as an arm of the `match` a byte up to 7F costs 6 % more.
        if lead <= 0x7F {
            return Some(Due::tails(0));
        }
        match lead {
            0xC2..=0xDF => Some(Due::tails(1)),
            0xE0 => Some(Due::new(2, 0xA0, 0xBF)),
            0xE1..=0xEC => Some(Due::tails(2)),
            0xED => Some(Due::new(2, 0x80, 0x9F)),
            0xEE..=0xEF => Some(Due::tails(2)),
            0xF0 => Some(Due::new(3, 0x90, 0xBF)),
            0xF1..=0xF3 => Some(Due::tails(3)),
            0xF4 => Some(Due::new(3, 0x80, 0x8F)),
            _ => None,
        }
    }
}

// The check on writing.
struct Counting;

impl Grammar for Counting {
    ghost characters = { forms counted_char };

    fn after(lead: u8) -> Option<Due> {
        if lead <= 0x7F {
            return Some(Due::tails(0));
        }
        match lead {
            0xC0..=0xDF => Some(Due::tails(1)),
            0xE0..=0xEF => Some(Due::tails(2)),
            0xF0..=0xF7 => Some(Due::tails(3)),
            _ => None,
        }
    }
}

// Whether the grammar takes the text, byte by byte.
fn takes<G: Grammar>(bytes: &[u8]) -> bool
    ensures { result ≡ accepts G.characters [] bytes.now }
{
    let mut due = Due::tails(0);
    for b in bytes {
        if due.left != 0 {
            if *b < due.low || due.high < *b {
                return false;
            }
            due = Due::tails(due.left - 1);
        } else {
            let Some(next) = G::after(*b) else {
                return false;
            };
            due = next;
        }
    }
    due.left == 0
}

// Whether the bytes are UTF-8.
pub fn well_formed(bytes: &[u8]) -> bool
    ensures { result ≡ well_formed bytes.now }
{
    takes::<Rfc3629>(bytes)
}

// Whether the bytes pass the check on writing.
pub fn counted(bytes: &[u8]) -> bool
    ensures { result ≡ counted bytes.now }
{
    takes::<Counting>(bytes)
}
