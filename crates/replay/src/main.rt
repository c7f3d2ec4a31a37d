// Replays the stored answers of the Rust, list by list, and writes how many there are and how many
// differ. The lists are files in the folder that it runs in.
#![tactic(auto)]

mod calls;
mod checks;
mod lists;
mod panel;
mod strips;
mod suppliers;
mod words;

use arithmetic::bytes::float_of;
use arithmetic::{exp, log};
use lists::{Tally, is_value};
use models::Model;
use std::rt::Files;
use std::{fs, io};
use words::Fault;

// Replays the list of a file, each line's rest by `is_same`.
fn replay<R: Files + Print, F: FnMut(&mut R::File, u64) -> Result<bool, Fault>>(
    rt: &R,
    name: &str,
    path: &str,
    is_same: F,
) -> io::Result<()>
    requires { F.IsAlwaysCallable is_same }
{
    print!(rt; "{name}")?;
    let Ok(mut file) = fs::open(rt, path) else {
        return println!(rt; ": cannot be opened");
    };
    let mut tally = Tally::default();
    match lists::replay(&mut file, &mut tally, is_same) {
        Ok(()) => println!(rt; ": {tally}"),
        Err(Fault::Broken) => println!(rt; ": {tally}, and the rest cannot be read"),
        Err(Fault::Io(e)) => Err(e),
    }
}

fn main(rt: HostRuntime) -> io::Result<()> {
    replay(
        &rt,
        "exp",
        "exp.txt",
        |file, b| is_value(file, exp(float_of(b))),
    )?;
    replay(
        &rt,
        "log",
        "log.txt",
        |file, b| is_value(file, log(float_of(b))),
    )?;
    let models = [
        ("wilson", "wilson.txt", Model::Wilson),
        ("uniquac", "uniquac.txt", Model::Uniquac),
        ("nrtl", "nrtl.txt", Model::Nrtl),
        ("unifac", "unifac.txt", Model::Unifac),
    ];
    for (name, path, model) in models {
        replay(&rt, name, path, |file, b| calls::is_same(file, model, b))?;
    }
    replay(
        &rt,
        "millionths",
        "millionths.txt",
        |file, b| panel::is_same(file, float_of(b)),
    )?;
    replay(
        &rt,
        "checks",
        "checks.txt",
        |file, b| checks::is_same(file, float_of(b)),
    )?;
    replay(
        &rt,
        "suppliers",
        "suppliers.bin",
        |file, b| suppliers::is_same(file, b as usize),
    )?;
    replay(
        &rt,
        "strips",
        "strips.bin",
        |file, b| strips::is_same(file, b as usize),
    )
}
