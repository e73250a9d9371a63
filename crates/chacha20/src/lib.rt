// ChaCha20's block function from RFC 8439, sections 2.1 to 2.3. For the keystream and the dither. Everything is held to
// specs/Rfc8439.antt, which is that document's text as a definition; the numbers in the comments are its sections.
#![tactic(auto)]

ghost use Rattle.std.specs.Prelude.{◌≡◌, ◌+◌, ◌*◌, ◌<◌, length, slice_set};
ghost use Rattle.chacha20.specs.Rfc8439.{quarter, quarter_round, inner_block, rounds, initial, sums, serialized, block_from, chacha_block};
ghost use Rattle.seq.specs.Bytes.{word};

// 2.1: the quarter round.
pub fn quarter(a: u32, b: u32, c: u32, d: u32) -> [u32; 4]
    ensures { result ≡ quarter a b c d }
{
    let a = a.wrapping_add(b);
    let d = (d ^ a).rotate_left(16);
    let c = c.wrapping_add(d);
    let b = (b ^ c).rotate_left(12);
    let a = a.wrapping_add(b);
    let d = (d ^ a).rotate_left(8);
    let c = c.wrapping_add(d);
    let b = (b ^ c).rotate_left(7);
    [a, b, c, d]
}

// 2.2: the quarter round on four words of the state.
fn quarter_round(s: &mut [u32; 16], x: usize, y: usize, z: usize, w: usize)
    requires { (x < 16) × (y < 16) × (z < 16) × (w < 16) }
    ensures { s.new ≡ quarter_round x y z w s.old }
{
    let [a, b, c, d] = quarter(s[x], s[y], s[z], s[w]);
    s[x] = a;
    s[y] = b;
    s[z] = c;
    s[w] = d;
}

// 2.3: four quarter rounds on the columns, four on the diagonals. The first and the third diagonal are
// exchanged, since no two share a word, and the processor then waits less.
fn inner_block(s: &mut [u32; 16])
    ensures { s.new ≡ inner_block s.old }
{
    quarter_round(s, 0, 4, 8, 12);
    quarter_round(s, 1, 5, 9, 13);
    quarter_round(s, 2, 6, 10, 14);
    quarter_round(s, 3, 7, 11, 15);
    quarter_round(s, 2, 7, 8, 13);
    quarter_round(s, 1, 6, 11, 12);
    quarter_round(s, 0, 5, 10, 15);
    quarter_round(s, 3, 4, 9, 14);
}

// 2.3: twenty rounds, two in each inner block.
fn ten_times(state: &[u32; 16]) -> [u32; 16]
    ensures { result ≡ rounds 10 state.now }
{
    let mut s = *state;
    for _ in 0..10usize {
        inner_block(&mut s);
    }
    s
}

// 2.3: word k of a key or a nonce.
fn word_at(bytes: &[u8], k: usize) -> u32
    requires { 4 * k + 3 < length bytes.now }
    ensures { result ≡ word bytes.now k }
{
    let i = 4 * k;
    u32::from_le_bytes([bytes[i], bytes[i + 1], bytes[i + 2], bytes[i + 3]])
}

// 2.3: the initial state of block 0. Other blocks differ in word 12, so it is made once for all of them.
pub fn first_state(key: &[u8; 32], nonce: &[u8; 12]) -> [u32; 16]
    ensures { result ≡ initial key.now 0 nonce.now }
{
    [
        0x6170_7865,
        0x3320_646e,
        0x7962_2d32,
        0x6b20_6574,
        word_at(key, 0),
        word_at(key, 1),
        word_at(key, 2),
        word_at(key, 3),
        word_at(key, 4),
        word_at(key, 5),
        word_at(key, 6),
        word_at(key, 7),
        0,
        word_at(nonce, 0),
        word_at(nonce, 1),
        word_at(nonce, 2),
    ]
}

// 2.3: the words of two states added, and the sums one after the other as bytes. By a number, since over `s.iter().enumerate()`
// a block takes 8 instructions more.
fn sum_bytes(s: &[u32; 16], t: &[u32; 16]) -> [u8; 64]
    ensures { result ≡ serialized (sums s.now t.now) }
{
    let mut out = [0; 64];
    for i in 0..16 {
        let w = s[i].wrapping_add(t[i]);
        out[4 * i..4 * i + 4].copy_from_slice(&w.to_le_bytes());
    }
    out
}

// 2.3: a block, from the state of block 0.
pub fn block_from(first: &[u32; 16], counter: u32) -> [u8; 64]
    ensures { result ≡ block_from (slice_set first.now 12 counter) }
{
    let mut state = *first;
    state[12] = counter;
    sum_bytes(&ten_times(&state), &state)
}

// 2.3: the block function, 64 bytes of keystream.
pub fn block(key: &[u8; 32], counter: u32, nonce: &[u8; 12]) -> [u8; 64]
    ensures { result ≡ chacha_block key.now counter nonce.now }
{
    let first = first_state(key, nonce);
    block_from(&first, counter)
}
