// The decoder of the convolutional code that carries the record, for what the crate `encoder` codes: Viterbi's algorithm
// on soft decisions. It finds the record whose coded bits the votes favour most. A positive vote speaks for a coded 0, a
// negative one for a 1. The path begins in state 0 and ends there. The definition is specs/Decoder.antt; what may be
// relied on beyond it is proved in the crate `correction`.
#![tactic(auto)]

mod outputs;

ghost use Rattle.std.specs.Prelude.{◌≡◌, true, ◌+◌, ◌*◌, ◌/◌, ◌%◌, ◌^◌, ◌<◌, ◌≤◌, length, get_or};
ghost use Rattle.std.specs.Float.{nan, inf};
ghost use Rattle.std.specs.Float.Ieee.{neg, lt};
ghost use Rattle.encoder.specs.Ccsds131.{record_size, Bits};
ghost use Rattle.decoder.specs.Decoder.{floats, pick, voted, best_at, odd_at, next_metrics, metrics_after, starting, decoded, strength, byte_at, bytes_of};
ghost use Rattle.decoder.specs.Decisions.{packed, decision_rows, traced_path};

use encoder::{CODED, RECORD};
use outputs::{first_out, second_out};

// The steps of a record's path: two coded bits each.
const STEPS: usize = CODED / 2;

// A record, and the metric with which state 0 ended: what is left of the path that survived.
#[derive(Clone, Copy)]
pub struct Survivor {
    pub bytes: [u8; RECORD],
    pub metric: f32,
}

// The record that the votes of its coded bits give, for one who needs no metric.
pub fn viterbi(soft: &[f32; CODED]) -> [u8; RECORD]
    ensures { result ≡ bytes_of record_size (decoded floats soft.now) }
{
    decode(soft).bytes
}

// The same with the metric of its path.
pub fn decode(soft: &[f32; CODED]) -> Survivor
    ensures { (result.bytes ≡ bytes_of record_size (decoded floats soft.now)) × (result.metric ≡ strength floats soft.now) }
{
    let mut decisions = [0; STEPS];
    let metrics = forward(soft, &mut decisions);
    // State 0, to which the six zeros after the record lead, whatever the metrics of the other states.
    let end = 0;
    let mut bits = [0; STEPS];
    backward(&decisions, end, &mut bits);
    Survivor {
        bytes: pack(&bits),
        metric: metrics[end],
    }
}

// All steps: for each, which states were reached from their odd predecessor; and the metrics in which they end.
fn forward(soft: &[f32], decisions: &mut [u64]) -> [f32; 64]
    requires { length soft.now ≡ 2 * length decisions.old }
    ensures { (result ≡ metrics_after floats (starting floats) soft.now)
        × (decisions.new ≡ decision_rows floats (starting floats) soft.now) }
{
    let mut metric = [f32::NEG_INFINITY; 64];
    metric[0] = 0.0;
    for (t, decision) in decisions.iter_mut().enumerate() {
        let s = advance(&metric, soft[2 * t], soft[2 * t + 1]);
        metric = s.metric;
        *decision = s.odd;
    }
    metric
}

// One step: the next metrics, and a bit for each state that says whether its odd predecessor won.
#[derive(Clone, Copy)]
struct Stepped {
    metric: [f32; 64],
    odd: u64,
}

// Two loops, for the states below 32 and the others, so that no predecessor's number takes a remainder: this is the inner loop of
// the decoder.
fn advance(m: &[f32; 64], s0: f32, s1: f32) -> Stepped
    ensures { (result.metric ≡ next_metrics floats m.now s0 s1) × (result.odd ≡ packed (odd_at floats m.now s0 s1) 64) }
{
    let mut next = [0.0; 64];
    let mut odd = 0;
    for k in 0..32 {
        let w = winner_of(m, 2 * k, k, s0, s1);
        next[k] = w.metric;
        odd = put(odd, w.odd, k);
    }
    for k in 32..64 {
        let w = winner_of(m, 2 * k - 64, k, s0, s1);
        next[k] = w.metric;
        odd = put(odd, w.odd, k);
    }
    Stepped { metric: next, odd }
}

// A state's winner: its metric, and 1 where the odd predecessor won, as the bit that is put into a step's number.
#[derive(Clone, Copy)]
struct Winner {
    metric: f32,
    odd: u8,
}

// State k is reached from states `even` and `even + 1`, whose registers give complementary outputs.
fn winner_of(m: &[f32; 64], even: usize, k: usize, s0: f32, s1: f32) -> Winner
    requires { (k < 64) × (even ≡ 2 * k % 64) }
    ensures { (result.metric ≡ best_at floats m.now s0 s1 k) × (result.odd ≡ odd_at floats m.now s0 s1 k) }
{
    let a = vote(first_out(k), s0);
    let b = vote(second_out(k), s1);
    let best = found(m[even] + a + b);
    let candidate = m[even + 1] - a - b;
    if best < candidate {
        Winner {
            metric: candidate,
            odd: 1,
        }
    } else {
        Winner {
            metric: best,
            odd: 0,
        }
    }
}

// A vote, turned round where the coded bit is 1: an output of the code, which is a number in its definition too.
fn vote(c: u8, v: f32) -> f32
    ensures { result ≡ voted neg c v }
{
    if c == 0 { v } else { -v }
}

// A state's best after its first candidate: minus infinity where the candidate is no greater, as a NaN is not.
fn found(c: f32) -> f32
    ensures { result ≡ pick (lt (inf true) c) c (inf true) }
{
    let lost = f32::NEG_INFINITY;
    if lost < c { c } else { lost }
}

// Bit k put above the lower ones.
fn put(d: u64, bit: u8, k: usize) -> u64
    requires { (k < 64) × (bit < 2) × (d < 2 ^ k) }
    ensures { result ≡ d + bit * 2 ^ k }
{
    d + (u64::from(bit) << k)
}

fn bit_of(d: u64, k: usize) -> usize
    requires { k < 64 }
    ensures { result ≡ d / 2 ^ k % 2 }
{
    ((d >> k) % 2) as usize
}

// Traceback: the bits on the way back from the state in which the path ends. A step has its place in both lists.
fn backward(decisions: &[u64], end: usize, bits: &mut [u8])
    requires { (end < 64) × (length bits.old ≡ length decisions.now) }
    ensures { bits.new ≡ traced_path decisions.now end }
{
    let mut state = end;
    for t in (0..decisions.len()).rev() {
        bits[t] = (state / 32) as u8;
        state = (2 * state + bit_of(decisions[t], state)) % 64;
    }
}

// The bytes of a record's bits, most significant first.
fn pack(bits: &[u8; STEPS]) -> [u8; RECORD]
    requires { Bits bits.now }
    ensures { result ≡ bytes_of record_size bits.now }
{
    std::array::from_fn(|i: usize| byte_of(bits, i))
}

// A `fold` is no shorter than the loop, and its closure would have to bound the value so far.
fn byte_of(bits: &[u8], i: usize) -> u8
    requires { (8 * i + 8 ≤ length bits.now) × Bits bits.now }
    ensures { result ≡ byte_at bits.now i }
{
    let mut v = 0;
    for bit in &bits[8 * i..8 * i + 8] {
        v = v * 2 + *bit;
    }
    v
}
