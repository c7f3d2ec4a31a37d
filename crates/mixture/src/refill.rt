// A query's stale cells: each is worked out from its inputs, and marked 1.
ghost use Rattle.std.specs.Prelude.{◌≡◌, Bool, true, false, ℕ, ◌+◌, ◌*◌, ◌-◌, ◌≤◌, ◌<◌, length};
ghost use Rattle.arithmetic.specs.Exponential.{exp_of};
ghost use Rattle.arithmetic.specs.Tables.{at, flat, Filled, Vector};
ghost use Rattle.models.specs.Limits.{most_components, most_groups, table_size};
ghost use Rattle.mixture.specs.Lists.{how_many};
ghost use Rattle.mixture.specs.Steps.Refills.{cell_of, row_count, stale_cell, stale_in, table_count, unmarked};
ghost use Rattle.mixture.specs.Steps.Refills.{AllStale, Gathered, OffDiagonalTaken, RowFits, RowRefilled};
ghost use Rattle.mixture.specs.Steps.Refills.{SquareFits, Swapped, TableFits, TableRefilled, Takes};

use crate::inputs::Inputs;
use models::limits::{COMPONENTS, GROUPS, PAIRS};

// The mark of a fresh cell.
const FRESH: u8 = 1;

// Whether i, j is a cell with a mark other than 1, `diagonal` being whether there are cells on the diagonal.
fn is_stale(diagonal: bool, mark: u8, i: usize, j: usize) -> bool
    ensures { result ≡ stale_cell diagonal mark i j }
{
    mark != FRESH && (diagonal || i != j)
}

// Each stale cell of row i takes its value and the mark 1; the answer is their number. The value goes by the
// column and by how many cells before it are stale. Both slices start at the row.
fn fill_stale<I: Inputs, F: Fn(usize, usize) -> f64>(
    inputs: I,
    i: usize,
    cells: &mut [f64],
    marks: &mut [u8],
    value: F,
) -> usize
    requires fits { RowFits (I.rows inputs) i cells.old marks.old }
    requires asked { (j k : ℕ) → j < I.rows inputs → k ≤ j → F.pre value j k }
    ensures { (f : Vector)
        → Takes (I.rows inputs) (stale_in I.diagonal marks.old i) (F.post value) f
        → RowRefilled I.diagonal (I.rows inputs) f i cells marks result }
{
    let mut count: usize = 0;
    for j in 0..inputs.rows() {
        if is_stale(inputs.has_diagonal(), marks[j], i, j) {
            cells[j] = value(j, count);
            marks[j] = FRESH;
            count += 1;
        }
    }
    count
}

// Works out the stale cells of row i one by one.
fn refill_cells<I: Inputs>(inputs: I, i: usize, cells: &mut [f64], marks: &mut [u8]) -> usize
    requires { RowFits (I.rows inputs) i cells.old marks.old }
    ensures { RowRefilled I.diagonal (I.rows inputs) (λ j. exp_of (I.argument inputs i j)) i
        cells marks result }
{
    fill_stale(inputs, i, cells, marks, |j, _| inputs.exponential(i, j))
}

// How many marks are other than 1. The count has two bytes, so that more marks are counted side by side.
fn count_unmarked(marks: &[u8]) -> u16
    requires { length marks.now ≤ table_size }
    ensures { result ≡ how_many (length marks.now) (unmarked marks.now) }
{
    let mut count: u16 = 0;
    for mark in marks {
        if *mark != FRESH {
            count += 1;
        }
    }
    count
}

// Writes what the stale cells of row i are the exp of, one after the other.
fn gather<I: Inputs>(inputs: I, i: usize, marks: &[u8], out: &mut [f64])
    requires { RowFits (I.rows inputs) i out.old marks.now }
    ensures { Gathered (I.rows inputs) (stale_in I.diagonal marks.now i) (I.argument inputs i) out.new
        (row_count I.diagonal (I.rows inputs) marks.now i) }
{
    let mut count: usize = 0;
    for j in 0..inputs.rows() {
        if is_stale(inputs.has_diagonal(), marks[j], i, j) {
            out[count] = inputs.argument(i, j);
            count += 1;
        }
    }
}

// The same, `count` being their number. Where each place of the row is a stale cell they are written without
// a test for each.
fn gather_row<I: Inputs>(inputs: I, i: usize, marks: &[u8], count: usize, out: &mut [f64])
    requires { RowFits (I.rows inputs) i out.old marks.now
        × (count ≡ row_count I.diagonal (I.rows inputs) marks.now i) }
    ensures { Gathered (I.rows inputs) (stale_in I.diagonal marks.now i) (I.argument inputs i) out.new
        count }
{
    if count == inputs.rows() {
        inputs.fill_arguments(i, out);
    } else {
        gather(inputs, i, marks, out);
    }
}

// How many cells of row i are stale.
fn count_row<I: Inputs>(inputs: I, i: usize, marks: &[u8]) -> usize
    requires { (i < I.rows inputs) × (I.rows inputs ≤ length marks.now) }
    ensures { result ≡ row_count I.diagonal (I.rows inputs) marks.now i }
{
    let count = count_unmarked(&marks[..inputs.rows()]) as usize;
    if inputs.has_diagonal() || marks[i] == FRESH {
        return count;
    }
    count - 1
}

// Works out the stale cells of row i, and answers with their number: exp runs over so many places, side by
// side. A short row goes one by one.
fn refill_row<I: Inputs>(inputs: I, i: usize, cells: &mut [f64], marks: &mut [u8]) -> usize
    requires { RowFits (I.rows inputs) i cells.old marks.old }
    ensures { RowRefilled I.diagonal (I.rows inputs) (λ j. exp_of (I.argument inputs i j)) i
        cells marks result }
{
    if inputs.rows() < 4 {
        return refill_cells(inputs, i, cells, marks);
    }
    let count = count_row(inputs, i, marks);
    if count == 0 {
        return 0;
    }
    let mut worked = [0.0; GROUPS];
    gather_row(inputs, i, marks, count, &mut worked[..]);
    arithmetic::exp_each(&mut worked[..], count);
    fill_stale(inputs, i, cells, marks, |_, k| worked[k]);
    count
}

// Works out every stale cell, row by row, and counts them.
fn refill_rows<I: Inputs>(inputs: I, cells: &mut [f64], marks: &mut [u8]) -> usize
    requires { TableFits (I.rows inputs) cells.old marks.old }
    ensures { TableRefilled I.diagonal (I.rows inputs) (cell_of (I.rows inputs) (I.argument inputs))
        cells marks result }
{
    let w = inputs.rows();
    let mut count: usize = 0;
    for i in 0..w {
        let place = i * w;
        count += refill_row(inputs, i, &mut cells[place..], &mut marks[place..]);
    }
    count
}

// How many marks on the diagonal of w rows are other than 1.
fn count_diagonal(w: usize, marks: &[u8]) -> u16
    requires { (w ≤ most_groups) × (w * w ≤ length marks.now) }
    ensures { result ≡ how_many w (λ i. unmarked marks.now (i * w + i)) }
{
    let mut count: u16 = 0;
    for i in 0..w {
        if marks[i * w + i] != FRESH {
            count += 1;
        }
    }
    count
}

// How many cells are stale: marks other than 1, less those on a diagonal that has no cells.
fn count_table<I: Inputs>(inputs: I, marks: &[u8]) -> usize
    requires { I.rows inputs * I.rows inputs ≤ length marks.now }
    ensures { result ≡ table_count I.diagonal (I.rows inputs) marks.now }
{
    let w = inputs.rows();
    let count = count_unmarked(&marks[..w * w]) as usize;
    if inputs.has_diagonal() {
        return count;
    }
    count - (count_diagonal(w, marks) as usize)
}

// Writes what each exponential is the exp of, at its place in a table by full rows.
fn fill_table<I: Inputs>(inputs: I, out: &mut [f64])
    requires { I.rows inputs * I.rows inputs ≤ length out.old }
    ensures { Filled (flat (I.rows inputs) (I.argument inputs)) (I.rows inputs * I.rows inputs) out.new }
{
    let w = inputs.rows();
    for i in 0..w {
        let at = i * w;
        inputs.fill_arguments(i, &mut out[at..]);
    }
}

// Of a table by rows of w, the last row's entries, but for its own diagonal, change places with those on the
// diagonal of the rows above it.
fn swap_last(w: usize, a: &mut [f64])
    requires { SquareFits w a.old }
    ensures { Swapped w (w - 1) a.old a.new }
{
    let last = (w - 1) * w;
    for i in 0..w - 1 {
        a.swap(last + i, i * w + i);
    }
}

// Each place off the diagonal takes its exp; there are `count`. Meanwhile the last row stands on the diagonal
// of the others, so that exp runs over so many places in one go, and over no other.
fn exp_off_diagonal(w: usize, count: usize, a: &mut [f64])
    requires { SquareFits w a.old × (count ≡ (w - 1) * w) }
    ensures { OffDiagonalTaken w a.old a.new }
{
    swap_last(w, a);
    arithmetic::exp_each(a, count);
    swap_last(w, a);
}

// Takes the stale cells over from their exponentials, row by row, and counts them.
fn take_rows<I: Inputs>(inputs: I, worked: &[f64], cells: &mut [f64], marks: &mut [u8]) -> usize
    requires { TableFits (I.rows inputs) cells.old marks.old
        × (I.rows inputs * I.rows inputs ≤ length worked.now) }
    ensures { TableRefilled I.diagonal (I.rows inputs) (at worked.now) cells marks result }
{
    let w = inputs.rows();
    let mut count: usize = 0;
    for i in 0..w {
        let place = i * w;
        let row = &worked[place..];
        count += fill_stale(
            inputs,
            i,
            &mut cells[place..],
            &mut marks[place..],
            |j, _| row[j],
        );
    }
    count
}

// Works out all cells of a table without any on the diagonal, all of them stale: every argument first, in a
// table of its own, then exp of those off the diagonal. `count` is their number, and the answer.
fn refill_whole<I: Inputs, const N: usize>(
    inputs: I,
    count: usize,
    cells: &mut [f64],
    marks: &mut [u8],
) -> usize
    requires { AllStale I.diagonal (I.rows inputs) marks.old count
        × TableFits (I.rows inputs) cells.old marks.old
        × (I.rows inputs * I.rows inputs ≤ N)
        × (N ≤ table_size) }
    ensures { TableRefilled I.diagonal (I.rows inputs) (cell_of (I.rows inputs) (I.argument inputs))
        cells marks result }
{
    let mut worked = [0.0; N];
    fill_table(inputs, &mut worked[..]);
    exp_off_diagonal(inputs.rows(), count, &mut worked[..]);
    take_rows(inputs, &worked[..], cells, marks);
    count
}

// Whether `count` stale cells are all cells there are, in a table of at most 12 rows with none on the
// diagonal.
fn is_whole<I: Inputs>(inputs: I, count: usize) -> bool
    requires { 1 ≤ I.rows inputs }
    ensures { result ≡ true → (I.rows inputs ≤ most_components)
        × (count ≡ (I.rows inputs - 1) * I.rows inputs)
        × (I.diagonal ≡ false) }
{
    let w = inputs.rows();
    !inputs.has_diagonal() && w <= COMPONENTS && count == (w - 1) * w
}

// Works out every stale cell, and answers with their number: no row is gone through where no cell is stale, a
// table of E or G that is stale as a whole goes in one run, a small one in a small table, and any other row by
// row. Fewer than four rows aren't counted beforehand.
pub fn refill<I: Inputs>(inputs: I, cells: &mut [f64], marks: &mut [u8]) -> usize
    requires { TableFits (I.rows inputs) cells.old marks.old }
    ensures { TableRefilled I.diagonal (I.rows inputs) (cell_of (I.rows inputs) (I.argument inputs))
        cells marks result }
{
    let w = inputs.rows();
    if 3 < w {
        let count = count_table(inputs, marks);
        if count == 0 {
            return 0;
        }
        if is_whole(inputs, count) {
            if w < 5 {
                return refill_whole::<I, 16>(inputs, count, cells, marks);
            }
            return refill_whole::<I, PAIRS>(inputs, count, cells, marks);
        }
    }
    refill_rows(inputs, cells, marks)
}
