// What is asked of a model, and what a plain call answers.
ghost use Rattle.std.specs.Prelude.{◌≡◌};
ghost use Rattle.models.specs.Answers.{quantity_of};

use arithmetic::Refusal;

// ln γ of component i, γ of component i, or the reduced excess Gibbs energy.
#[derive(Clone, Copy, Debug, PartialEq, Eq)]
pub enum Quantity {
    LnGamma(usize),
    Gamma(usize),
    ExcessGibbs,
}

impl Quantity {
    ghost use Rattle.std.specs.Prelude.{Float};
    ghost use Rattle.arithmetic.specs.Tables.{Vector};
    ghost use Rattle.models.specs.Answers.{quantity};
    ghost use Rattle.models.specs.Faults.{index_fault};
    ghost use Rattle.models.specs.Steps.Terms.{CalledBelow, GivesBelow, GivesOnly};

    // Its value, from what gives ln γ of each component below n and what gives the excess energy.
    pub(crate) fn value<F: Fn(usize) -> f64, G: Fn() -> f64>(
        self,
        n: usize,
        ln_gamma: F,
        excess: G,
    ) -> f64
        requires index { index_fault n self ≡ 0 }
        requires each { CalledBelow n (F.pre ln_gamma) }
        requires one { G.pre excess }
        ensures { (f : Vector) → (g : Float) → GivesBelow n (F.post ln_gamma) f →
            GivesOnly (G.post excess) g → result ≡ quantity self f g }
    {
        match self {
            Quantity::LnGamma(i) => ln_gamma(i),
            Quantity::Gamma(i) => arithmetic::exp(ln_gamma(i)),
            Quantity::ExcessGibbs => excess(),
        }
    }
}

// What is asked, by a number: 0 ln γ of i, 1 γ of i, else the excess energy. `From` would take a pair that says
// neither name.
#[tactic(auto, unfolding(crate::specs::Answers::quantity_of))]
pub fn quantity_of(k: usize, i: usize) -> Quantity
    ensures { result ≡ quantity_of k i }
{
    match k {
        0 => Quantity::LnGamma(i),
        1 => Quantity::Gamma(i),
        _ => Quantity::ExcessGibbs,
    }
}

// The value asked for, or what the call is refused for.
pub type Answer = Result<f64, Refusal>;
