// The line that the program `votes` answers its input with: the input as votes, read with no key, and the
// answer in words. From the scope, section 20, which specs/Input.antt and specs/Line.antt state.
#![tactic(auto)]

mod pieces;

ghost use Rattle.std.specs.Prelude.{◌≡◌, ◌≤◌, length};
ghost use Rattle.seq.specs.Lists.{tab};
ghost use Rattle.picture.specs.Sizes.{block_count};
ghost use Rattle.report.specs.Input.{vote_from, bytes_reading};
ghost use Rattle.report.specs.Line.{text_line, refused_line, line_of};

use picture::BLOCKS;
pub use pieces::Line;
use record::Text;
use refusal::Refusal;

// Four for each vote.
const BYTES: usize = 4 * BLOCKS;

// How many bytes of input are looked at: one more than is wanted tells that there are too many.
pub const INPUT: usize = BYTES + 1;

fn votes_in(bytes: &[u8]) -> [f32; BLOCKS]
    requires { length bytes.now ≡ 4096 }
    ensures { result ≡ tab (vote_from bytes.now) block_count }
{
    std::array::from_fn(|k: usize| {
        let i = 4 * k;
        let word = seq::little_endian(bytes[i], bytes[i + 1], bytes[i + 2], bytes[i + 3]);
        float::f32_from_bits(word)
    })
}

// What the bytes say, each four of them a vote, the lowest byte first. Refused: another number of bytes than
// 4,096, and what `read_votes` refuses.
pub fn read_bytes(bytes: &[u8]) -> Result<Text, Refusal>
    ensures { result ≡ bytes_reading bytes.now }
{
    if bytes.len() != BYTES {
        return Err(Refusal::BadLength(bytes.len()));
    }
    extract::read_votes(&votes_in(bytes), None)
}

// The line of a text of at most 32 bytes.
fn text_line(text: &[u8]) -> Line
    requires { length text.now ≤ 32 }
    ensures { result ≡ text_line text.now }
{
    let mut line = Line::new();
    line.put(b"text ");
    line.put_decimal(text.len() as u64);
    line.put(b" ");
    line.put_hex(text);
    line.put(b"\n");
    line
}

// The line of a refusal's number and the number given. They come as numbers of 64 bits, of at most 20 digits each: with the
// refusal itself the goals on the line's room stay open.
fn refused_line(number: u64, given: u64) -> Line
    ensures { result ≡ refused_line number given }
{
    let mut line = Line::new();
    line.put(b"refused ");
    line.put_decimal(number);
    line.put(b" ");
    line.put_decimal(given);
    line.put(b"\n");
    line
}

// The line that says what the bytes are read as: "text", its length and its bytes in lowercase hex, "-" if
// there are none; or "refused", the refusal's number and the number given, in decimal.
#[tactic(auto, unfolding(crate::specs::Line::line_of))]
pub fn say(bytes: &[u8]) -> Line
    ensures { result ≡ line_of (bytes_reading bytes.now) }
{
    match read_bytes(bytes) {
        Ok(text) => text_line(text.as_slice()),
        Err(r) => refused_line(u64::from(r.number()), r.given()),
    }
}
