// What a call gives back.
ghost use Rattle.std.specs.Prelude.{◌≡◌};
ghost use Rattle.mixture.specs.Answers.{answer_of, value_of};

use crate::head::Head;
use arithmetic::Refusal;

// What an accepted call comes to: it was done, or a value with the number of cells worked.
#[derive(Clone, Copy)]
pub enum Outcome {
    Done,
    Value(f64, usize),
}

pub type Answer = Result<Outcome, Refusal>;

#[derive(Clone, Copy)]
pub struct Reply {
    pub head: Head,
    pub answer: Answer,
}

// The value of an answered query, else 0.
#[tactic(auto, unfolding(crate::specs::Answers::answer_of, crate::specs::Answers::outcome_of, crate::specs::Answers::value_of))]
pub fn value_of(a: Answer) -> f64
    ensures { result ≡ value_of (answer_of a) }
{
    match a {
        Ok(Outcome::Value(v, _)) => v,
        Ok(Outcome::Done) => 0.0,
        Err(_) => 0.0,
    }
}
