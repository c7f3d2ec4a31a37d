// Loading a model: document 01, "Mixture".
ghost use Rattle.std.specs.Prelude.{◌≡◌, ◌≤◌, length};
ghost use Rattle.models.specs.declared.model.Model.TheVariants.{Unifac};
ghost use Rattle.mixture.specs.Lists.{written};
ghost use Rattle.mixture.specs.Holdings.{held};
ghost use Rattle.models.specs.Limits.{most_components, most_groups, most_places};
ghost use Rattle.models.specs.Model.{table_width, ModelData};
ghost use Rattle.models.specs.Model.{given as data_given};
ghost use Rattle.arithmetic.specs.Refusals.{number_of};
ghost use Rattle.mixture.specs.Faults.{load_fault};
ghost use Rattle.mixture.specs.Memory.{Memory, OfLengths, memory, left, least_marks};
ghost use Rattle.mixture.specs.Layout.{cell_at};
ghost use Rattle.mixture.specs.Calls.{loaded_head, after_load};

use crate::answers::{Outcome, Reply};
use crate::faults::{Lengths, memory_fault};
use crate::head::{Head, bare_head, listed_head};
use crate::stale::{Block, stale};
use arithmetic::Refusal;
use arithmetic::slices::copy;
use models::model::{has_groups, table_width};
use models::{Data, Model};

// Writes 0 to the marks of all the model's cells.
fn stale_cells(model: Model, n: usize, ng: usize, marks: &mut [u8])
    requires { (1 ≤ table_width model n ng)
        × (table_width model n ng ≤ most_groups)
        × (least_marks ≤ length marks.old) }
    ensures { (d : ModelData) → (d.model ≡ model) × (d.n ≡ n) × (d.ng ≡ ng)
        → marks.new ≡ written (cell_at (held d)) (λ c. 0) marks.old }
{
    let w = table_width(model, n, ng);
    let diagonal = has_groups(model);
    let all = Block {
        top: 0,
        rows: w,
        left: 0,
        columns: w,
    };
    stale(w, diagonal, all, marks);
}

// The head of a load that is accepted, with 0 in its unset and unused fields.
fn loaded_head(given: Data) -> Head
    requires { given.model ≡ Unifac → (length given.lens.now ≤ most_components)
        × (length given.groups.now ≤ most_places) }
    ensures { result ≡ loaded_head (data_given given.entry) }
{
    let number = u8::from(given.model);
    if has_groups(given.model) {
        return listed_head(number, given.n, given.ng, given.lens, given.groups);
    }
    bare_head(number, given.n)
}

// 1, a lent slice is short; then what the models decline. Memory counts by its lengths alone.
fn load_fault(lent: Lengths, given: Data) -> Result<(), Refusal>
    ensures { (m : Memory) → OfLengths lent.values lent.cells lent.marks m
        → number_of result ≡ load_fault m (data_given given.entry) }
{
    memory_fault(lent)?;
    given.fault()
}

// Writes the model's values, unsets T and fractions and makes all cells stale. It goes into its callers, which
// spares them two copies of the head.
#[inline(always)]
pub fn load(values: &mut [f64], cells: &[f64], marks: &mut [u8], head: Head, given: Data) -> Reply
    ensures { left (memory values.new cells.now marks.new) result
        ≡ after_load (memory values.old cells.now marks.old) head (data_given given.entry) }
{
    if let Err(refusal) = load_fault(Lengths::of(values, cells, marks), given) {
        return Reply {
            head,
            answer: Err(refusal),
        };
    }
    copy(given.values, values);
    stale_cells(given.model, given.n, given.ng, marks);
    Reply {
        head: loaded_head(given),
        answer: Ok(Outcome::Done),
    }
}
