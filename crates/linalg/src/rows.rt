// Rows and columns of a matrix: six numbers at a time. A matrix's 36 numbers stand by rows.
ghost use Rattle.std.specs.Prelude.{◌≡◌, ◌+◌, ◌*◌, ◌<◌};
ghost use Rattle.scalar.specs.F64.{f64};
ghost use Rattle.linalg.specs.Rows as Rows;

use std::array::from_fn;

// Row i.
pub fn row(a: &[f64; 36], i: usize) -> [f64; 6]
    requires { i < 6 }
    ensures { result ≡ Rows.row f64 a.now i }
{
    from_fn(|k| a[i * 6 + k])
}

// Column j.
pub fn column(a: &[f64; 36], j: usize) -> [f64; 6]
    requires { j < 6 }
    ensures { result ≡ Rows.column f64 a.now j }
{
    from_fn(|k| a[k * 6 + j])
}

// Stores six numbers, s places apart from place p on.
fn put_strided(m: &mut [f64; 36], p: usize, s: usize, v: &[f64; 6])
    requires { p + 5 * s < 36 }
    ensures { m.new ≡ Rows.stored f64 m.old p s v.now }
{
    for (k, x) in v.iter().enumerate() {
        m[p + s * k] = *x;
    }
}

// Stores row i.
pub fn put_row(m: &mut [f64; 36], i: usize, v: &[f64; 6])
    requires { i < 6 }
    ensures { m.new ≡ Rows.put_row f64 m.old i v.now }
{
    put_strided(m, i * 6, 1, v);
}

// Stores column j.
pub fn put_column(m: &mut [f64; 36], j: usize, v: &[f64; 6])
    requires { j < 6 }
    ensures { m.new ≡ Rows.put_column f64 m.old j v.now }
{
    put_strided(m, j, 6, v);
}
