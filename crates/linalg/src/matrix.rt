// Products, sums and transposes. A matrix has six rows and columns, and its 36 numbers stand by rows.
ghost use Rattle.std.specs.Prelude.{◌≡◌, ◌<◌};
ghost use Rattle.scalar.specs.F64.{f64};
ghost use Rattle.linalg.specs.Matrix as Matrix;
ghost use Rattle.linalg.specs.Rows as Rows;

use crate::rows::{column, put_row, row};
use std::array::from_fn;

// Six products: the one at index 0, the rest added upwards.
fn dot6(u: &[f64; 6], v: &[f64; 6]) -> f64
    ensures { result ≡ Rows.dot_of f64 u.now v.now }
{
    u[0] * v[0] + u[1] * v[1] + u[2] * v[2] + u[3] * v[3] + u[4] * v[4] + u[5] * v[5]
}

// The row u times column j of b.
fn times_column(u: &[f64; 6], b: &[f64; 36], j: usize) -> f64
    requires { j < 6 }
    ensures { result ≡ Rows.dot_of f64 u.now (Rows.column f64 b.now j) }
{
    let v = column(b, j);
    dot6(u, &v)
}

// Row i of the product of a and b.
fn mul_row(a: &[f64; 36], i: usize, b: &[f64; 36]) -> [f64; 6]
    requires { i < 6 }
    ensures { result ≡ Rows.mul_row f64 a.now i b.now }
{
    let u = row(a, i);
    from_fn(|j| times_column(&u, b, j))
}

// The product: an entry is the product at index 0, the rest added upwards.
// As it is: written where it is wanted. Tried by value, a product is copied and takes 464 instructions in place of 381,
// and so a step of the backward pass 4,352 in place of 4,026. In bench/run's hall with lag 16, smooth makes 82 steps a
// frame, and would take 26 in 1,000 more. The bar is 10 in 1,000.
pub fn mul6(a: &[f64; 36], b: &[f64; 36], out: &mut [f64; 36])
    ensures { out.new ≡ Matrix.mul f64 a.now b.now }
{
    for i in 0..6 {
        let r = mul_row(a, i, b);
        put_row(out, i, &r);
    }
}

// The matrix times the vector.
pub fn mul_vec6(a: &[f64; 36], v: &[f64; 6]) -> [f64; 6]
    ensures { result ≡ Matrix.mul_vec f64 a.now v.now }
{
    from_fn(|i| {
        let u = row(a, i);
        dot6(&u, v)
    })
}

// The transpose.
pub fn transpose6(a: &[f64; 36]) -> [f64; 36]
    ensures { result ≡ Matrix.transpose f64 a.now }
{
    let mut out = [0.0; 36];
    for j in 0..6 {
        let r = column(a, j);
        put_row(&mut out, j, &r);
    }
    out
}

// The sum of two vectors, or of two matrices.
pub fn add<const N: usize>(a: &[f64; N], b: &[f64; N]) -> [f64; N]
    ensures { result ≡ Matrix.add f64 N a.now b.now }
{
    from_fn(
        |k|
            requires { k < N }
            ensures { result ≡ f64.add (Matrix.at f64 a.entry.now k) (Matrix.at f64 b.entry.now k) }
        { a[k] + b[k] },
    )
}

// The difference of two vectors, or of two matrices.
pub fn sub<const N: usize>(a: &[f64; N], b: &[f64; N]) -> [f64; N]
    ensures { result ≡ Matrix.sub f64 N a.now b.now }
{
    from_fn(
        |k|
            requires { k < N }
            ensures { result ≡ f64.sub (Matrix.at f64 a.entry.now k) (Matrix.at f64 b.entry.now k) }
        { a[k] - b[k] },
    )
}

// Half the sum of a matrix and its transpose.
pub fn half_sum6(a: &[f64; 36]) -> [f64; 36]
    ensures { result ≡ Matrix.half_sum f64 a.now }
{
    let t = transpose6(a);
    from_fn(|n| 0.5 * (a[n] + t[n]))
}
