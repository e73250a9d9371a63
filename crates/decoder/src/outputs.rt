// The two outputs of the register 2 * k, by which state k is reached from its even predecessor; the register 2 * k + 1
// gives the complement of both. A table for each output, since each has its generator and its definition.
ghost use Rattle.std.specs.Prelude.{◌≡◌, ◌*◌, ◌<◌};
ghost use Rattle.encoder.specs.Ccsds131.{out1, out2};

const OUT1: [u8; 64] = [
    0, 0, 0, 0, 1, 1, 1, 1, 1, 1, 1, 1, 0, 0, 0, 0, 1, 1, 1, 1, 0, 0, 0, 0, 0, 0, 0, 0, 1, 1, 1, 1,
    1, 1, 1, 1, 0, 0, 0, 0, 0, 0, 0, 0, 1, 1, 1, 1, 0, 0, 0, 0, 1, 1, 1, 1, 1, 1, 1, 1, 0, 0, 0, 0,
];

const OUT2: [u8; 64] = [
    0, 1, 0, 1, 1, 0, 1, 0, 1, 0, 1, 0, 0, 1, 0, 1, 0, 1, 0, 1, 1, 0, 1, 0, 1, 0, 1, 0, 0, 1, 0, 1,
    1, 0, 1, 0, 0, 1, 0, 1, 0, 1, 0, 1, 1, 0, 1, 0, 1, 0, 1, 0, 0, 1, 0, 1, 0, 1, 0, 1, 1, 0, 1, 0,
];

// The first output, by octal 171.
pub fn first_out(k: usize) -> u8
    requires { k < 64 }
    ensures { result ≡ out1 (2 * k) }
{
    OUT1[k]
}

// The second output, by octal 133.
pub fn second_out(k: usize) -> u8
    requires { k < 64 }
    ensures { result ≡ out2 (2 * k) }
{
    OUT2[k]
}
