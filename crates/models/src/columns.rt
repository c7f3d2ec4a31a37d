// Sums down the columns of a table, row by row: each column's fold keeps its order, and the columns
// run side by side.
ghost use Rattle.std.specs.Prelude.{◌+◌, ◌*◌, ◌≤◌, ◌<◌, length};
ghost use Rattle.arithmetic.specs.Floats.{◌⊗◌, +0};
ghost use Rattle.arithmetic.specs.Tables.{at, grid, Filled};
ghost use Rattle.models.specs.Columns.{unit_diagonal, column_sum, unit_at};
ghost use Rattle.models.specs.Steps.Columns.{Added};

use crate::terms;

// Adds w·row[j] to sums[j] for each j below n.
pub fn add_row(row: &[f64], w: f64, n: usize, sums: &mut [f64])
    requires { (n ≤ length row.now) × (n ≤ length sums.old) }
    ensures { Added n (λ j. w ⊗ at row.now j) sums }
{
    terms::add(n, |j| w * row[j], sums);
}

// The same where the row's entry i counts as 1.
pub fn add_unit_row(n: usize, w: f64, row: &[f64], i: usize, sums: &mut [f64])
    requires { (n ≤ length row.now) × (i < n) × (n ≤ length sums.old) }
    ensures { Added n (λ j. w ⊗ unit_at i (at row.now) j) sums }
{
    terms::add_with_own(n, |j| w * row[j], i, w * 1.0, sums);
}

// The column sums of w over a table by rows of n with 1 on its diagonal, whose places don't count; sums has
// zeros at first.
pub fn unit_column_sums(n: usize, table: &[f64], w: &[f64], sums: &mut [f64])
    requires { (n * n ≤ length table.now)
        × (n ≤ length w.now)
        × (n ≤ length sums.old)
        × Filled (λ _. +0) n sums.old }
    ensures { let each = column_sum n (unit_diagonal (grid n table.now)) (at w.now) in
        Filled each n sums.new }
{
    for i in 0..n {
        let start = i * n;
        add_unit_row(n, w[i], &table[start..], i, sums);
    }
}
