// Marks made stale: a block of rows and columns, off the diagonal where that has no cells.
ghost use Rattle.std.specs.Prelude.{◌≡◌, ◌+◌, ◌^◌, ◌<◌, ◌≤◌, length};
ghost use Rattle.mixture.specs.Steps.Blocks.{Staled, in_row, in_block, BlockFits};

// So many rows from top on, and so many columns from left on.
#[derive(Clone, Copy)]
pub struct Block {
    pub top: usize,
    pub rows: usize,
    pub left: usize,
    pub columns: usize,
}

// Writes 0 to the marks of row i in the block's columns; the row begins at start.
fn stale_row(start: usize, diagonal: bool, block: Block, i: usize, marks: &mut [u8])
    requires { (block.left + block.columns < 2 ^ 64)
        × (start + (block.left + block.columns) ≤ length marks.old) }
    ensures { Staled (in_row start block.left (block.left + block.columns) diagonal i) marks }
{
    for j in block.left..block.left + block.columns {
        if diagonal || i != j {
            marks[start + j] = 0;
        }
    }
}

// Writes 0 to the marks of the block's cells in rows of w, those of the diagonal only where it has cells.
pub fn stale(w: usize, diagonal: bool, block: Block, marks: &mut [u8])
    requires { BlockFits w block (length marks.old) }
    ensures { Staled (in_block w diagonal block) marks }
{
    for i in block.top..block.top + block.rows {
        stale_row(i * w, diagonal, block, i, marks);
    }
}
