// The 8x8 transform of a block and its inverse (section 13 of the scope), for the crate `plane`. Every promise is an equation
// over the definitions in specs/Dct.antt, for every value, finite or not.
#![tactic(auto)]

mod matrix;

ghost use Rattle.std.specs.Prelude.{◌≡◌, ◌<◌};
ghost use Rattle.dct.specs.Grid.{grid, column};
ghost use Rattle.dct.specs.Matrix.{dct_entry, dct_turned};
ghost use Rattle.dct.specs.Dct.{forward_of, inverse_of, dot_of};

use matrix::MATRIX;

// The matrix, line by line. Public for its promise; a `Transform` owns it, since a constant is rebuilt at every use.
pub fn dct_matrix() -> [f32; 64]
    ensures { result ≡ grid dct_entry }
{
    let rows = MATRIX;
    std::array::from_fn(|p: usize| rows[p / 8][p % 8])
}

// The same with its lines and columns exchanged. Public for its promise too.
pub fn dct_turned() -> [f32; 64]
    ensures { result ≡ grid dct_turned }
{
    let matrix = dct_matrix();
    std::array::from_fn(|p: usize| matrix[p % 8 * 8 + p / 8])
}

// Line r of a times column c of b, summed in index order from -0.0, as rustc starts a float sum.
fn dot(a: &[f32; 64], b: &[f32; 64], r: usize, c: usize) -> f32
    requires { (r < 8) × (c < 8) }
    ensures { result ≡ dot_of a.now b.now r c }
{
    let mut t = -0.0f32;
    for j in 0..8usize {
        t = t + a[r * 8 + j] * b[j * 8 + c];
    }
    t
}

fn product_column(a: &[f32; 64], b: &[f32; 64], c: usize, p: &mut [f32; 64])
    requires { c < 8 }
    ensures { p.new ≡ column (λ r. dot_of a.now b.now r c) c 8 p.old }
{
    for r in 0..8usize {
        p[r * 8 + c] = dot(a, b, r, c);
    }
}

// The product of two 8x8 matrices. Columns are the outer loop, which the compiler then vectorises: neighbours in a line
// stand side by side in b and in the product. Made place by place it takes three times as long.
fn product(a: &[f32; 64], b: &[f32; 64]) -> [f32; 64]
    ensures { result ≡ grid (dot_of a.now b.now) }
{
    let mut p = [0.0f32; 64];
    for c in 0..8usize {
        product_column(a, b, c, &mut p);
    }
    p
}

// The transform of a block and its inverse, with the matrix of both made once for all blocks.
#[derive(Drop)]
pub struct Transform {
    matrix: [f32; 64],
    turned: [f32; 64],
    ghost matrix_is: { matrix ≡ grid dct_entry },
    ghost turned_is: { turned ≡ grid dct_turned },
}

impl Transform {
    pub fn new() -> Self {
        Transform {
            matrix: dct_matrix(),
            turned: dct_turned(),
        }
    }

    // The transform of a block: rows, then columns. Line k, column l is afterwards the vertical frequency k and the
    // horizontal one l. The inner product has no name, so that it is not copied.
    pub fn forward(&self, block: &mut [f32; 64])
        ensures { block.new ≡ forward_of block.old }
    {
        *block = product(&self.matrix, &product(block, &self.turned));
    }

    // The way back: columns, then rows.
    pub fn inverse(&self, block: &mut [f32; 64])
        ensures { block.new ≡ inverse_of block.old }
    {
        *block = product(&product(&self.turned, block), &self.matrix);
    }
}
