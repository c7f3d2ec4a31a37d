// For a host that measures: a mixture asked again and again in one call, without the price of the C boundary,
// or the plain call again and again. An f64 stands as eight bytes, lowest first.
ghost use Rattle.std.specs.Prelude.{◌≡◌, ◌+◌, ◌-◌, ◌*◌, ◌/◌, ◌≤◌, length};
ghost use Rattle.mixture.specs.Memory.{memory, left};
ghost use Rattle.mixture.specs.Answers.{value_of};
ghost use Rattle.mixture.specs.Calls.{no_head};
ghost use Rattle.models.specs.Faults.{usual_tolerance};
ghost use Rattle.models.specs.Model.{given as data_given};
ghost use Rattle.models.specs.Plain.{plain_call};
ghost use Rattle.repeat.specs.Exports.{plain_value, setting_of, asked_times};
ghost use Rattle.repeat.specs.Exports.{set_times, turns, begun};
ghost use Rattle.repeat.specs.Exports.{zeros, plain_turns, repeated, repeated_bytes, each, how_many};

use arithmetic::{TdParam, bytes};
use mixture::answers::value_of;
use mixture::faults::{CELLS, MARKS, VALUES};
use mixture::fractions::fractions;
use mixture::head::no_head;
use mixture::load::load;
use mixture::open::open;
use mixture::query::query;
use mixture::set::set;
use mixture::{Head, Model, Reply, Setting};
use models::answers::quantity_of;
use models::faults::usual_tolerance;
use models::limits::COMPONENTS;
use models::model::model_of;
use models::{Data, Quantity};

// What a turn sets: T, or entry 0, 1.
#[tactic(auto, unfolding(crate::specs::Exports::setting_of))]
fn setting_of(change: u32, model: Model, v: f64, t: f64) -> Setting
    ensures { result ≡ setting_of change model v t }
{
    if change == 2 {
        return Setting::Temperature(t);
    }
    match model {
        Model::Wilson | Model::Uniquac | Model::Nrtl => Setting::Entry(0, 1, v),
        Model::Unifac => {
            let p = TdParam {
                a: v,
                b: 0.0,
                c: 0.0,
                d: 0.0,
                e: 0.0,
            };
            Setting::TdEntry(0, 1, p)
        }
    }
}

// Queries, one after another; the last value.
fn ask_each(
    values: &[f64],
    cells: &mut [f64],
    marks: &mut [u8],
    start: Reply,
    q: Quantity,
    times: usize,
) -> f64
    ensures { result
        ≡ value_of (asked_times times q (left (memory values.now cells.old marks.old) start)).answer }
{
    let mut last = start;
    for _ in 0..times {
        last = query(values, cells, marks, last.head, q);
    }
    value_of(last.answer)
}

// A setting and a query at each temperature from `from` to below `to`; the last reply.
fn set_each(
    values: &mut [f64],
    cells: &mut [f64],
    marks: &mut [u8],
    start: Reply,
    change: u32,
    model: Model,
    v: f64,
    q: Quantity,
    temperatures: &[u8],
    from: usize,
    to: usize,
) -> Reply
    requires { (from ≤ to) × (8 * to ≤ length temperatures.now) }
    ensures { left (memory values.new cells.new marks.new) result
        ≡ set_times (to - from) change model v q (λ k. each temperatures (from + k))
        (left (memory values.old cells.old marks.old) start) }
{
    let mut head = start.head;
    let mut answer = start.answer;
    for k in from..to {
        let s = setting_of(change, model, v, bytes::float_at(temperatures, 8 * k));
        let set = set(values, cells, marks, head, s);
        head = set.head;
        let asked = query(values, cells, marks, head, q);
        head = asked.head;
        answer = asked.answer;
    }
    Reply { head, answer }
}

// The first turn sets T and asks; the others ask, after the change's setting where there is one. The last
// value.
fn keep(
    values: &mut [f64],
    cells: &mut [f64],
    marks: &mut [u8],
    start: Reply,
    change: u32,
    model: Model,
    v: f64,
    q: Quantity,
    temperatures: &[u8],
) -> f64
    requires { 8 ≤ length temperatures.now }
    ensures { result ≡ value_of (turns (how_many temperatures) change model v q (each temperatures)
        (left (memory values.old cells.old marks.old) start)).answer }
{
    let first = set_each(
        values,
        cells,
        marks,
        start,
        2,
        model,
        v,
        q,
        temperatures,
        0,
        1,
    );
    if change == 0 {
        return ask_each(values, cells, marks, first, q, temperatures.len() / 8 - 1);
    }
    let last = set_each(
        values,
        cells,
        marks,
        first,
        change,
        model,
        v,
        q,
        temperatures,
        1,
        temperatures.len() / 8,
    );
    value_of(last.answer)
}

// An opening, a load and the fractions.
fn begin(
    values: &mut [f64],
    cells: &[f64],
    marks: &mut [u8],
    head: Head,
    given: Data,
    x: &[f64],
) -> Reply
    ensures { left (memory values.new cells.now marks.new) result
        ≡ begun (memory values.old cells.now marks.old) head (data_given given.entry) x.now }
{
    let opened = open(values, cells, marks, head);
    let loaded = load(values, cells, marks, opened.head, given);
    fractions(values, cells, marks, loaded.head, x)
}

// The value of the plain call at the usual tolerance, 0 where it declines.
fn plain_at(given: Data, t: f64, x: &[f64], q: Quantity) -> f64
    ensures { result
        ≡ plain_value (plain_call (data_given given.entry) t usual_tolerance x.now q) }
{
    given.plain(t, usual_tolerance(), x, q).unwrap_or(0.0)
}

// The plain call at each temperature; the last value.
fn plain_each(given: Data, temperatures: &[u8], x: &[f64], q: Quantity) -> f64
    ensures { result
        ≡ plain_turns (how_many temperatures) (data_given given.entry) x.now q (each temperatures) }
{
    let mut last = 0.0;
    for k in 0..temperatures.len() / 8 {
        let t = bytes::float_at(temperatures, 8 * k);
        last = plain_at(given, t, x, q);
    }
    last
}

// A mixture on zeros, from its opening to its last turn; the last value.
fn kept(given: Data, x: &[f64], q: Quantity, change: u32, v: f64, temperatures: &[u8]) -> f64
    requires { 8 ≤ length temperatures.now }
    ensures { result
        ≡ value_of (turns (how_many temperatures) change given.entry.model v q (each temperatures)
        (begun zeros no_head (data_given given.entry) x.now)).answer }
{
    let mut values = [0.0; VALUES];
    let mut cells = [0.0; CELLS];
    let mut marks = [0u8; MARKS];
    let start = begin(&mut values, &cells, &mut marks, no_head(), given, x);
    keep(
        &mut values,
        &mut cells,
        &mut marks,
        start,
        change,
        given.model,
        v,
        q,
        temperatures,
    )
}

// The last value over the temperatures; 0 where there are more values or fractions than any model has, or no
// temperature, or the last query or plain call is refused. The first turn sets T and asks. The change says
// what each later turn sets before it asks: 0, nothing; 2, T; 3, no mixture at all, but the plain call in
// every turn, the first too; any other, entry 0, 1 (UNIFAC's td entry, with a alone) set to v. Bytes past the
// last whole eight are passed over.
#[unsafe(no_mangle)]
pub extern "C" fn kiltgrit_repeat(
    model: u8,
    n: usize,
    ng: usize,
    lens: &[u8],
    groups: &[u8],
    values: &[u8],
    x: &[u8],
    asked: u32,
    i: usize,
    change: u32,
    v: f64,
    temperatures: &[u8],
) -> f64
    ensures { result
        ≡ repeated_bytes model n ng lens.now groups.now values.now
        x.now asked i change v temperatures.now }
{
    let count = values.len() / 8;
    let parts = x.len() / 8;
    if VALUES < count {
        return 0.0;
    }
    if COMPONENTS < parts {
        return 0.0;
    }
    if temperatures.len() < 8 {
        return 0.0;
    }
    let mut numbers = [0.0; VALUES];
    bytes::fill_floats(count, values, 0, &mut numbers);
    let mut fractions = [0.0; COMPONENTS];
    bytes::fill_floats(parts, x, 0, &mut fractions);
    let given = Data {
        model: model_of(model),
        n,
        ng,
        lens,
        groups,
        values: &numbers[..count],
    };
    let q = quantity_of(asked as usize, i);
    repeat(given, &fractions[..parts], q, change, v, temperatures)
}

// The same for values and fractions as floats.
fn repeat(given: Data, x: &[f64], q: Quantity, change: u32, v: f64, temperatures: &[u8]) -> f64
    requires { 8 ≤ length temperatures.now }
    ensures { result
        ≡ repeated (how_many temperatures) (data_given given.entry) x.now q change v
        (each temperatures) }
{
    if change == 3 {
        return plain_each(given, temperatures, x, q);
    }
    kept(given, x, q, change, v, temperatures)
}
