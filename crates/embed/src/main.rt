// The module in a Rattle program: lent memory, a head, and the calls in turn. It writes the load's answer, ln
// γ of acetone in methanol by Wilson, as bits, with the number of cells worked, and then the number of a
// refusal.
#![tactic(auto)]

use arithmetic::bytes::bits_of;
use mixture::faults::{CELLS, MARKS, VALUES};
use mixture::fractions::fractions;
use mixture::head::no_head;
use mixture::load::load;
use mixture::open::open;
use mixture::query::query;
use mixture::set::set;
use mixture::{Answer, Model, Outcome, Setting};
use models::suppliers::import;
use models::{Data, Quantity};
use std::io;

fn show(rt: &impl Print, answer: Answer) -> io::Result<()> {
    match answer {
        Ok(Outcome::Done) => println!(rt; "done"),
        Ok(Outcome::Value(value, count)) => {
            println!(rt; "{:016x} from so many cells: {count}", bits_of(value))
        }
        Err(refusal) => println!(rt; "{refusal}"),
    }
}

// Shows an answer only where the call was refused. Such a call leaves memory and head as they were.
fn check(rt: &impl Print, answer: Answer) -> io::Result<()> {
    if answer.is_err() {
        show(rt, answer)?;
    }
    Ok(())
}

fn main(rt: HostRuntime) -> io::Result<()> {
    // the memory that is lent to every call, and a head, which every call takes and gives back
    let mut values = [0.0; VALUES];
    let mut cells = [0.0; CELLS];
    let mut marks = [0u8; MARKS];
    let opened = open(&values, &cells, &marks, no_head());
    check(&rt, opened.answer)?;
    // a supplier's list, in kelvin
    let mut a = [0.0; 4];
    if let Err(refusal) = import(b"0,-81.46\n293.43,0\n", 2, &mut a) {
        println!(rt; "{refusal}")?;
    }
    // two components; energies by rows, then the molar volumes
    let given = [a[0], a[1], a[2], a[3], 74.05, 40.73];
    let wilson = Data::bare(Model::Wilson, 2, &given);
    let loaded = load(&mut values, &cells, &mut marks, opened.head, wilson);
    show(&rt, loaded.answer)?;
    let warm = Setting::Temperature(328.7);
    let heated = set(&mut values, &cells, &mut marks, loaded.head, warm);
    check(&rt, heated.answer)?;
    let mixed = fractions(&values, &cells, &marks, heated.head, &[0.78, 0.22]);
    check(&rt, mixed.answer)?;
    let acetone = Quantity::LnGamma(0);
    let asked = query(&values, &mut cells, &mut marks, mixed.head, acetone);
    show(&rt, asked.answer)?;
    // a third component isn't there
    let third = Quantity::LnGamma(2);
    let beyond = query(&values, &mut cells, &mut marks, asked.head, third);
    show(&rt, beyond.answer)
}
