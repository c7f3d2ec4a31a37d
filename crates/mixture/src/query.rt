// A query: works out every stale cell, marks it fresh, and answers with the value and the number of cells
// worked.
ghost use Rattle.std.specs.Prelude.{◌≡◌, ◌*◌, ◌≤◌, length};
ghost use Rattle.arithmetic.specs.Floats.{+0};
ghost use Rattle.arithmetic.specs.Tables.{at, from};
ghost use Rattle.models.specs.Exponentials.{energy, nonrandomness, group_energy};
ghost use Rattle.models.specs.Values.{energies, volumes, rs, qs, alphas, lists, counts_at, group_rs, group_qs};
ghost use Rattle.models.specs.Wilson.{wilson};
ghost use Rattle.models.specs.Uniquac.{uniquac};
ghost use Rattle.models.specs.Nrtl.{nrtl};
ghost use Rattle.models.specs.Unifac.{unifac};
ghost use Rattle.mixture.specs.Answers.{answer_of};
ghost use Rattle.mixture.specs.Memory.{memory, after, left};
ghost use Rattle.mixture.specs.Calls.{after_query};
ghost use Rattle.mixture.specs.Faults.{query_fault};
ghost use Rattle.mixture.specs.Steps.Refills.{taus_at, groups_at, Asked, Ranged, Solves, Answered};

use crate::answers::{Answer, Outcome, Reply};
use crate::faults::{Lengths, query_fault};
use crate::head::Head;
use crate::inputs::{Energies, GroupEnergies, Nonrandomness};
use crate::refill;
use models::limits::PAIRS;
use models::model::model_of;
use models::{Model, Quantity};

// A value and the number of cells worked.
#[derive(Clone, Copy)]
pub struct Worked {
    pub value: f64,
    pub count: usize,
}

// Wilson's value and count.
fn wilson(head: &Head, q: Quantity, values: &[f64], cells: &mut [f64], marks: &mut [u8]) -> Worked
    requires { Asked head.now.n q values.now cells.old marks.old }
    ensures { let n = head.now.n in let v = values.now in
        Solves Model.Wilson n (energy (energies n v) head.now.t)
        (λ E. wilson n (volumes n v) E (at head.now.x) q) cells marks result }
{
    let n = head.n;
    let energies = Energies {
        w: n,
        stride: n,
        a: values,
        t: head.t,
    };
    let count = refill::refill(energies, cells, marks);
    let place = n * n;
    let value = models::wilson::value_over(n, &values[place..], cells, &head.x, q);
    Worked { value, count }
}

// UNIQUAC's value and count.
fn uniquac(head: &Head, q: Quantity, values: &[f64], cells: &mut [f64], marks: &mut [u8]) -> Worked
    requires { Asked head.now.n q values.now cells.old marks.old }
    ensures { let n = head.now.n in let v = values.now in
        Solves Model.Uniquac n (energy (energies n v) head.now.t)
        (λ E. uniquac n (rs n v) (qs n v) E (at head.now.x) q) cells marks result }
{
    let n = head.n;
    let energies = Energies {
        w: n,
        stride: n,
        a: values,
        t: head.t,
    };
    let count = refill::refill(energies, cells, marks);
    let r_place = n * n;
    let q_place = r_place + n;
    let value = models::uniquac::value_over(
        n,
        &values[r_place..],
        &values[q_place..],
        cells,
        &head.x,
        q,
    );
    Worked { value, count }
}

// NRTL's value and count, with a table of so many places that τ at T is written to: no cell keeps it, and it
// is worked out once for both.
fn nrtl_within<const PLACES: usize>(
    head: &Head,
    q: Quantity,
    values: &[f64],
    cells: &mut [f64],
    marks: &mut [u8],
) -> Worked
    requires { Asked head.now.n q values.now cells.old marks.old
        × (head.now.n * head.now.n ≤ PLACES)
        × (PLACES ≤ 144) }
    ensures { let n = head.now.n in let v = values.now in let t = head.now.t in
        Solves Model.Nrtl n (nonrandomness (alphas n v) (taus_at n v t))
        (λ G. nrtl n (taus_at n v t) G (at head.now.x) q) cells marks result }
{
    let n = head.n;
    let mut tau = [0.0; PLACES];
    models::nrtl::fill_taus(n, values, head.t, &mut tau);
    let place = n * n * 5;
    let inputs = Nonrandomness {
        w: n,
        stride: n,
        alpha: &values[place..],
        tau: &tau,
    };
    let count = refill::refill(inputs, cells, marks);
    let value = models::nrtl::value_over(n, &tau, cells, &head.x, q);
    Worked { value, count }
}

// NRTL's value and count. Up to four components take a small table of τ.
fn nrtl(head: &Head, q: Quantity, values: &[f64], cells: &mut [f64], marks: &mut [u8]) -> Worked
    requires { Asked head.now.n q values.now cells.old marks.old }
    ensures { let n = head.now.n in let v = values.now in let t = head.now.t in
        Solves Model.Nrtl n (nonrandomness (alphas n v) (taus_at n v t))
        (λ G. nrtl n (taus_at n v t) G (at head.now.x) q) cells marks result }
{
    if head.n < 5 {
        return nrtl_within::<16>(head, q, values, cells, marks);
    }
    nrtl_within::<PAIRS>(head, q, values, cells, marks)
}

// UNIFAC's value and count. log(T) is worked out once for all cells.
fn unifac(head: &Head, q: Quantity, values: &[f64], cells: &mut [f64], marks: &mut [u8]) -> Worked
    requires { Ranged head.now.n head.now.ng head.now.lens head.now.groups
        × Asked head.now.n q values.now cells.old marks.old }
    ensures { let ng = head.now.ng in let v = values.now in let t = head.now.t in
        let c = lists head.now.lens head.now.groups (from (counts_at ng) v) in
        Solves Model.Unifac ng (group_energy (groups_at ng v t) t)
        (λ Ψ. unifac head.now.n ng c (group_rs ng v) (group_qs ng v) Ψ (at head.now.x) q)
        cells marks result }
{
    let ng = head.ng;
    let place = ng + ng;
    let energies = GroupEnergies {
        w: ng,
        stride: ng * 5,
        entries: &values[place..],
        t: head.t,
        ln: arithmetic::log(head.t),
    };
    let count = refill::refill(energies, cells, marks);
    let value = models::unifac::value_by(
        head.n,
        ng,
        &head.lens,
        &head.groups,
        values,
        cells,
        &head.x,
        q,
    );
    Worked { value, count }
}

// Refills and answers by the head's model.
fn solve(values: &[f64], cells: &mut [f64], marks: &mut [u8], head: &Head, q: Quantity) -> Worked
    requires { query_fault (memory values.now cells.old marks.old) head.now q ≡ 0 }
    ensures { Answered (memory values.now cells.old marks.old) head.now q
        cells.new marks.new result }
{
    match model_of(head.model) {
        Model::Wilson => wilson(head, q, values, cells, marks),
        Model::Uniquac => uniquac(head, q, values, cells, marks),
        Model::Nrtl => nrtl(head, q, values, cells, marks),
        Model::Unifac => unifac(head, q, values, cells, marks),
    }
}

// What a query does to cells and marks, and its answer.
fn answered(values: &[f64], cells: &mut [f64], marks: &mut [u8], head: &Head, q: Quantity) -> Answer
    ensures { after (memory values.now cells.new marks.new) head.now (answer_of result)
        ≡ after_query (memory values.now cells.old marks.old) head.now q }
{
    query_fault(Lengths::of(values, cells, marks), *head, q)?;
    let worked = solve(values, cells, marks, head, q);
    Ok(Outcome::Value(worked.value, worked.count))
}

// Works out every stale cell and answers with the value and their number. Both branches are the same on
// purpose (any test would do): `answered` is called in two places, so that the compiler keeps it apart and
// puts this function into its callers. It is handed the head itself and a copy goes back, so that a caller
// that asks again and again needn't put the head together in memory for each query.
pub fn query(values: &[f64], cells: &mut [f64], marks: &mut [u8], head: Head, q: Quantity) -> Reply
    ensures { left (memory values.now cells.new marks.new) result
        ≡ after_query (memory values.now cells.old marks.old) head q }
{
    let back = head;
    if head.has_t {
        return Reply {
            head: back,
            answer: answered(values, cells, marks, &head, q),
        };
    }
    Reply {
        head: back,
        answer: answered(values, cells, marks, &head, q),
    }
}
