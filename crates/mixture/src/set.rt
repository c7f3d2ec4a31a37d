// Settings: document 01, "Mixture".
ghost use Rattle.std.specs.Prelude.{◌≡◌, cond, ◌+◌, ◌*◌, ◌<◌, ◌≤◌, eqb, length};
ghost use Rattle.std.proofs.lemmas.List.Edits.{sets};
ghost use Rattle.models.specs.Limits.{most_groups};
ghost use Rattle.models.specs.Values.{counts_at, start};
ghost use Rattle.mixture.specs.Holdings.{held};
ghost use Rattle.models.specs.Model.{by_model};
ghost use Rattle.arithmetic.specs.Refusals.{number_of};
ghost use Rattle.mixture.specs.Answers.{Done, answer_of, unless};
ghost use Rattle.mixture.specs.Memory.{Memory, memory, left, least_marks};
ghost use Rattle.mixture.specs.Layout.{numbers, place};
ghost use Rattle.mixture.specs.Calls.{stales_at, set_head, after_setting};
ghost use Rattle.mixture.specs.Steps.Blocks.{Staled, entry_block, block_of};
ghost use Rattle.mixture.specs.Steps.Blocks.{head_only, Settable, CountFits, set_after};

use crate::answers::{Answer, Outcome, Reply};
use crate::faults::{Lengths, setting_fault};
use crate::head::Head;
use crate::setting::Setting;
use crate::stale::{Block, stale};
use arithmetic::Refusal;
use models::Model;
use models::limits::COMPONENTS;
use models::model::{by_model, has_groups, model_of, table_width};

// Where entry i, j stands in rows of w.
fn entry_at(model: Model, w: usize, i: usize, j: usize) -> usize
    requires { (w ≤ most_groups) × (i < w) × (j < w) }
    ensures { result ≡ by_model model 0 0 (w * w * 5) 0 + (i * w + j) }
{
    by_model(model, 0, 0, w * w * 5, 0) + (i * w + j)
}

// Where td entry i, j stands in rows of w.
fn td_at(model: Model, w: usize, i: usize, j: usize) -> usize
    requires { (w ≤ most_groups) × (i < w) × (j < w) }
    ensures { result ≡ by_model model 0 0 0 (w + w) + (i * w + j) * 5 }
{
    by_model(model, 0, 0, 0, w + w) + (i * w + j) * 5
}

// Where size i, which stands, w of each.
fn size_at(model: Model, w: usize, i: usize, which: usize) -> usize
    requires { (w ≤ most_groups) × (i < w) × (which < 2) }
    ensures { result ≡ by_model model (w * w) (w * w) 0 0 + (which * w + i) }
{
    by_model(model, w * w, w * w, 0, 0) + (which * w + i)
}

// Where the count of component i at list place j stands.
fn count_at(lens: [u8; COMPONENTS], ng: usize, i: usize, j: usize) -> usize
    requires { CountFits lens ng i j }
    ensures { result ≡ counts_at ng + (start lens i + j) }
{
    let before = models::groups::start_of(&lens[..], i);
    models::groups::counts_at(ng) + (before + j)
}

// Where the numbers of a setting stand.
fn store_at(head: Head, s: Setting) -> usize
    requires { Settable head s }
    ensures { result ≡ place (head_only head) s }
{
    let model = model_of(head.model);
    let w = table_width(model, head.n, head.ng);
    match s {
        Setting::Temperature(_) | Setting::Tolerance(_) => 0,
        Setting::Entry(i, j, _) => entry_at(model, w, i, j),
        Setting::TdEntry(i, j, _) => td_at(model, w, i, j),
        Setting::Size(i, which, _) => size_at(model, w, i, which),
        Setting::Count(i, j, _) => count_at(head.lens, head.ng, i, j),
    }
}

// The numbers of a setting in turn.
fn put(s: Setting, at: usize, values: &mut [f64])
    requires { at + length (numbers s) ≤ length values.old }
    ensures { values.new ≡ sets values.old at (numbers s) }
{
    match s {
        Setting::Temperature(_) | Setting::Tolerance(_) => {}
        Setting::Entry(_, _, v) | Setting::Size(_, _, v) | Setting::Count(_, _, v) => {
            values[at] = v;
        }
        Setting::TdEntry(_, _, p) => {
            values[at] = p.a;
            values[at + 1] = p.b;
            values[at + 2] = p.c;
            values[at + 3] = p.d;
            values[at + 4] = p.e;
        }
    }
}

const NO_CELLS: Block = Block {
    top: 0,
    rows: 0,
    left: 0,
    columns: 0,
};

// The block of the cells that an entry is an input of: its own, and row i's for an energy a_ii.
fn entry_block(model: Model, w: usize, i: usize, j: usize) -> Block
    ensures { result ≡ entry_block model w i j }
{
    if i == j {
        let left = by_model(model, 0, 0, j, j);
        let columns = by_model(model, w, w, 1, 1);
        return Block {
            top: i,
            rows: 1,
            left,
            columns,
        };
    }
    Block {
        top: i,
        rows: 1,
        left: j,
        columns: 1,
    }
}

// The block of the cells that a setting makes stale.
fn block_of(model: Model, w: usize, s: Setting) -> Block
    ensures { result ≡ block_of model w s }
{
    match s {
        Setting::Temperature(_) => Block {
            top: 0,
            rows: w,
            left: 0,
            columns: w,
        },
        Setting::Entry(i, j, _) => entry_block(model, w, i, j),
        Setting::TdEntry(i, j, _) => Block {
            top: i,
            rows: 1,
            left: j,
            columns: 1,
        },
        Setting::Size(..) | Setting::Count(..) | Setting::Tolerance(_) => NO_CELLS,
    }
}

// Writes 0 to the marks of the cells that a setting makes stale.
fn stale_by(head: Head, s: Setting, marks: &mut [u8])
    requires { (Settable head s) × (least_marks ≤ length marks.old) }
    ensures { Staled (stales_at (held (head_only head)) s) marks }
{
    let model = model_of(head.model);
    let w = table_width(model, head.n, head.ng);
    let diagonal = has_groups(model);
    let block = block_of(model, w, s);
    stale(w, diagonal, block, marks);
}

// The head after a setting, by what came of it: T or the tolerance is changed in a copy.
fn head_after(head: Head, changed: Result<(), Refusal>, s: Setting) -> Head
    ensures { result ≡ cond (eqb (number_of changed) 0) (set_head head s) head }
{
    let mut after = head;
    if let Ok(()) = changed {
        match s {
            Setting::Temperature(t) => {
                after.t = t;
                after.has_t = true;
            }
            Setting::Tolerance(tolerance) => {
                after.tolerance = tolerance;
            }
            Setting::Entry(..) | Setting::TdEntry(..) | Setting::Size(..) | Setting::Count(..) => {}
        }
    }
    after
}

// The answer, by the same: done, or what the setting was declined for.
fn answer_by(changed: Result<(), Refusal>) -> Answer
    ensures { answer_of result ≡ unless (number_of changed) Done }
{
    match changed {
        Ok(()) => Ok(Outcome::Done),
        Err(refusal) => Err(refusal),
    }
}

// What a setting does to values and marks, which is nothing where it is declined.
fn change(
    values: &mut [f64],
    cells: &[f64],
    marks: &mut [u8],
    head: Head,
    s: Setting,
) -> Result<(), Refusal>
    ensures { set_after (memory values.new cells.now marks.new) (number_of result) head s
        ≡ after_setting (memory values.old cells.now marks.old) head s }
{
    setting_fault(Lengths::of(values, cells, marks), head, s)?;
    let at = store_at(head, s);
    put(s, at, values);
    stale_by(head, s, marks);
    Ok(())
}

// The reply to a setting, by what came of it.
fn reply_by(head: Head, changed: Result<(), Refusal>, s: Setting) -> Reply
    ensures { (m : Memory) → left m result ≡ set_after m (number_of changed) head s }
{
    Reply {
        head: head_after(head, changed, s),
        answer: answer_by(changed),
    }
}

// Replaces what the setting names and makes the cells that it is an input of stale. Both branches are the
// same on purpose, as in `query`; `change` is handed a copy of the head, so that the head itself needn't be
// put together in memory before it goes back.
pub fn set(values: &mut [f64], cells: &[f64], marks: &mut [u8], head: Head, s: Setting) -> Reply
    ensures { left (memory values.new cells.now marks.new) result
        ≡ after_setting (memory values.old cells.now marks.old) head s }
{
    let copy = head;
    if head.has_t {
        let changed = change(values, cells, marks, copy, s);
        return reply_by(head, changed, s);
    }
    let changed = change(values, cells, marks, copy, s);
    reply_by(head, changed, s)
}
