// Each stage of the port under a C name, for the comparison with the Rust and for the benchmarks: thin calls,
// each with the promise of what it calls.
#![tactic(auto)]

mod block8;
mod cipher;
mod code;
mod float32;
mod float64;
mod pictures;
mod records;
