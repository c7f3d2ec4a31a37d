// The five calls of document 01's mixture, and the plain call. Each does what the mixture's own definition
// says of the head that crossed, and writes what it writes.
ghost use Rattle.std.specs.Prelude.{◌≡◌};
ghost use Rattle.models.specs.Plain.{plain_call};
ghost use Rattle.mixture.specs.Memory.{memory};
ghost use Rattle.mixture.specs.Calls.{after_open, after_load, after_setting, after_fractions, after_query};
ghost use Rattle.kiltgrit.specs.Border.{head_of, left, replied, answered, value_or};
ghost use Rattle.kiltgrit.specs.Arguments.{load_of, setting_of, quantity_asked};

use crate::arguments::{CSetting, data_of, quantity_asked, setting_of};
use crate::border::{CAnswer, CHead, CReply, CValue, reply_of};
use mixture::Head;
use mixture::fractions::fractions;
use mixture::load::load;
use mixture::open::open;
use mixture::query::query;
use mixture::set::set;

// A query leaves the head, so it gives the answer alone.
#[unsafe(no_mangle)]
pub extern "C" fn kiltgrit_mixture_query(
    values: &[f64],
    cells: &mut [f64],
    marks: &mut [u8],
    head: CHead,
    asked: u32,
    i: usize,
) -> CAnswer
    ensures { left (memory values.now cells.new marks.new) result
        ≡ answered (after_query (memory values.now cells.old marks.old) (head_of head)
        (quantity_asked asked i)) }
{
    let q = quantity_asked(asked, i);
    let reply = query(values, cells, marks, Head::from(head), q);
    CAnswer::from(reply.answer)
}

#[unsafe(no_mangle)]
pub extern "C" fn kiltgrit_mixture_open(
    values: &[f64],
    cells: &[f64],
    marks: &[u8],
    head: CHead,
) -> CReply
    ensures { left (memory values.now cells.now marks.now) result
        ≡ replied head (after_open (memory values.now cells.now marks.now) (head_of head)) }
{
    reply_of(head, open(values, cells, marks, Head::from(head)))
}

#[unsafe(no_mangle)]
pub extern "C" fn kiltgrit_mixture_fractions(
    values: &[f64],
    cells: &[f64],
    marks: &[u8],
    head: CHead,
    x: &[f64],
) -> CReply
    ensures { left (memory values.now cells.now marks.now) result
        ≡ replied head (after_fractions (memory values.now cells.now marks.now) (head_of head) x.now) }
{
    reply_of(head, fractions(values, cells, marks, Head::from(head), x))
}

#[unsafe(no_mangle)]
pub extern "C" fn kiltgrit_mixture_set(
    values: &mut [f64],
    cells: &[f64],
    marks: &mut [u8],
    head: CHead,
    s: CSetting,
) -> CReply
    ensures { left (memory values.new cells.now marks.new) result
        ≡ replied head (after_setting (memory values.old cells.now marks.old) (head_of head) (setting_of s)) }
{
    reply_of(
        head,
        set(values, cells, marks, Head::from(head), setting_of(s)),
    )
}

// Groups stand list after list. For models other than UNIFAC ng, lens and groups don't count.
#[unsafe(no_mangle)]
pub extern "C" fn kiltgrit_mixture_load(
    values: &mut [f64],
    cells: &[f64],
    marks: &mut [u8],
    head: CHead,
    model: u32,
    form: u32,
    n: usize,
    ng: usize,
    lens: &[u8],
    groups: &[u8],
    given: &[f64],
) -> CReply
    ensures { left (memory values.new cells.now marks.new) result
        ≡ replied head (after_load (memory values.old cells.now marks.old) (head_of head)
        (load_of model form n ng lens.now groups.now given.now)) }
{
    let given = data_of(model, form, n, ng, lens, groups, given);
    reply_of(head, load(values, cells, marks, Head::from(head), given))
}

// The plain call: everything at once, and nothing is kept.
#[unsafe(no_mangle)]
pub extern "C" fn kiltgrit_plain(
    model: u32,
    form: u32,
    n: usize,
    ng: usize,
    lens: &[u8],
    groups: &[u8],
    values: &[f64],
    t: f64,
    tolerance: f64,
    x: &[f64],
    asked: u32,
    i: usize,
) -> CValue
    ensures { result ≡ value_or (plain_call
        (load_of model form n ng lens.now groups.now values.now)
        t tolerance x.now (quantity_asked asked i)) }
{
    let given = data_of(model, form, n, ng, lens, groups, values);
    CValue::from(given.plain(t, tolerance, x, quantity_asked(asked, i)))
}
