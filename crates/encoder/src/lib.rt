// The encoder of the convolutional code that carries the record: the rate 1/2 code of constraint length 7 of CCSDS 131.0-B,
// generators octal 171 and 133, without the inversion of its second output. Each bit of the record, most significant
// first, and then six zeros give two coded bits. The definition is specs/Ccsds131.antt; the decoder is the crate
// `decoder`.
#![tactic(auto)]

ghost use Rattle.std.specs.Prelude.{◌≡◌, ◌+◌, ◌*◌, ◌≤◌, length, get_or};
ghost use Rattle.encoder.specs.Ccsds131.{parity, encode_of, record_bits, six_zeros};

// The record's bytes, and its coded bits: two for each of its bits and of the six zeros.
pub const RECORD: usize = 46;

pub const CODED: usize = 16 * RECORD + 12;

// The generators of the two outputs, as octal numbers: the bits of the register that an output is the parity of.
const GENERATOR_0: u32 = 0o171;

const GENERATOR_1: u32 = 0o133;

// The coded bits of a record.
pub fn encode(bytes: &[u8; RECORD]) -> [u8; CODED]
    ensures { result ≡ encode_of bytes.now }
{
    let mut coded = [0; CODED];
    encode_into(bytes, &mut coded);
    coded
}

// The same for a record of any length, as the definition has it, into as many places as it has coded bits: t is a bit, two places.
fn encode_into(bytes: &[u8], coded: &mut [u8])
    requires { (length coded.old ≡ 16 * length bytes.now + 12) × (length bytes.now ≤ 4096) }
    ensures { coded.new ≡ encode_of bytes.now }
{
    let mut state = 0;
    for t in 0..8 * bytes.len() + 6 {
        let register = u32::from(bit_at(bytes, t)) * 64 + state;
        coded[2 * t] = parity_of(GENERATOR_0, register);
        coded[2 * t + 1] = parity_of(GENERATOR_1, register);
        state = register / 2;
    }
}

// Bit t of the bytes, most significant first, and 0 behind them.
fn bit_at(bytes: &[u8], t: usize) -> u8
    ensures { result ≡ get_or (record_bits bytes.now six_zeros) t 0 }
{
    (bytes.get(t / 8).copied().unwrap_or(0) >> (7 - t % 8)) % 2
}

// The parity of a register's bits under a generator.
fn parity_of(g: u32, r: u32) -> u8
    ensures { result ≡ parity g r }
{
    ((r & g).count_ones() % 2) as u8
}
