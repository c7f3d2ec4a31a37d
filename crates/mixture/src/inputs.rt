// What a table of exponentials is worked out from: a type for each kind of inputs, by rows.
ghost use Rattle.std.specs.Prelude.{◌≡◌, ◌+◌, ◌-◌, ◌*◌, ◌≤◌, ◌<◌};
ghost use Rattle.std.specs.Prelude.{Bool, true, false, ℕ, length, Float};
ghost use Rattle.arithmetic.specs.Exponential.{exp_of};
ghost use Rattle.arithmetic.specs.Tables.{grid, Filled};
ghost use Rattle.models.specs.Limits.{most_groups};
ghost use Rattle.mixture.specs.Steps.Inputs.{energy_argument, nonrandomness_argument, group_argument};

// The inputs of so many rows and columns of exponentials. Each entry is the exp of its argument.
pub trait Inputs: Copy {
    ghost rows: { Self → ℕ };

    ghost argument: { Self → ℕ → ℕ → Float };

    ghost diagonal: { Bool };

    // Whether the table has cells on its diagonal.
    fn has_diagonal(self) -> bool
        ensures { result ≡ diagonal };

    fn rows(self) -> usize
        ensures { (result ≡ rows self) × (result ≤ most_groups) };

    // What entry j of row i is the exp of.
    fn argument(self, i: usize, j: usize) -> f64
        requires { (i < rows self) × (j < rows self) }
        ensures { result ≡ argument self i j };

    // Entry j of row i. Inputs of a caller's own need not write it: exp runs over the one argument.
    fn exponential(self, i: usize, j: usize) -> f64
        requires { (i < rows self) × (j < rows self) }
        ensures { result ≡ exp_of (argument self i j) }
    {
        let mut worked = [self.argument(i, j)];
        arithmetic::exp_each(&mut worked[..], 1);
        worked[0]
    }

    // Writes what the entries of row i are the exp of, at the diagonal as well, so that the row runs without
    // a test.
    fn fill_arguments(self, i: usize, out: &mut [f64])
        requires { (i < rows self) × (rows self ≤ length out.old) }
        ensures { Filled (argument self i) (rows self) out.new };
}

// Wilson's and UNIQUAC's energies a, by w rows of w that start `stride` apart.
#[derive(Clone, Copy)]
pub struct Energies<'a> {
    pub w: usize,
    pub stride: usize,
    pub a: &'a [f64],
    pub t: f64,
    ghost few: { w ≤ most_groups },
    ghost full: { (w - 1) * stride + w ≤ length a.now },
}

impl<'a> Inputs for Energies<'a> {
    ghost rows = { λ s. s.w };

    ghost argument = { λ s. energy_argument (grid s.stride s.a.now) s.t };

    ghost diagonal = { false };

    fn has_diagonal(self) -> bool {
        false
    }

    fn rows(self) -> usize {
        self.w
    }

    fn argument(self, i: usize, j: usize) -> f64 {
        models::exponentials::argument(&self.a[i * self.stride..], self.t, i, j)
    }

    fn exponential(self, i: usize, j: usize) -> f64 {
        models::exponentials::energy(&self.a[i * self.stride..], self.t, i, j)
    }

    fn fill_arguments(self, i: usize, out: &mut [f64]) {
        models::exponentials::fill_arguments(&self.a[i * self.stride..], self.t, self.w, i, out);
    }
}

// NRTL's α, and τ at T, both by w rows of w that start `stride` apart.
#[derive(Clone, Copy)]
pub struct Nonrandomness<'a> {
    pub w: usize,
    pub stride: usize,
    pub alpha: &'a [f64],
    pub tau: &'a [f64],
    ghost few: { w ≤ most_groups },
    ghost full_alpha: { (w - 1) * stride + w ≤ length alpha.now },
    ghost full_tau: { (w - 1) * stride + w ≤ length tau.now },
}

impl<'a> Inputs for Nonrandomness<'a> {
    ghost rows = { λ s. s.w };

    ghost argument = { λ s. nonrandomness_argument (grid s.stride s.alpha.now) (grid s.stride s.tau.now) };

    ghost diagonal = { false };

    fn has_diagonal(self) -> bool {
        false
    }

    fn rows(self) -> usize {
        self.w
    }

    fn argument(self, i: usize, j: usize) -> f64 {
        let place = i * self.stride + j;
        models::nrtl::argument(self.alpha[place], self.tau[place])
    }

    fn exponential(self, i: usize, j: usize) -> f64 {
        let place = i * self.stride + j;
        models::nrtl::exponential(self.alpha[place], self.tau[place])
    }

    fn fill_arguments(self, i: usize, out: &mut [f64]) {
        let start = i * self.stride;
        models::nrtl::fill_arguments(&self.alpha[start..], &self.tau[start..], self.w, out);
    }
}

// UNIFAC's td entries, five each, by w rows of w that start `stride` apart; ln is log(T).
#[derive(Clone, Copy)]
pub struct GroupEnergies<'a> {
    pub w: usize,
    pub stride: usize,
    pub entries: &'a [f64],
    pub t: f64,
    pub ln: f64,
    ghost few: { w ≤ most_groups },
    ghost full: { (w - 1) * stride + w * 5 ≤ length entries.now },
}

impl<'a> Inputs for GroupEnergies<'a> {
    ghost rows = { λ s. s.w };

    ghost argument = { λ s. group_argument s.stride s.entries.now s.t s.ln };

    ghost diagonal = { true };

    fn has_diagonal(self) -> bool {
        true
    }

    fn rows(self) -> usize {
        self.w
    }

    fn argument(self, i: usize, j: usize) -> f64 {
        models::unifac::argument(&self.entries[i * self.stride..], self.t, self.ln, j)
    }

    fn exponential(self, i: usize, j: usize) -> f64 {
        models::unifac::psi(&self.entries[i * self.stride..], self.t, self.ln, j)
    }

    fn fill_arguments(self, i: usize, out: &mut [f64]) {
        let row = &self.entries[i * self.stride..];
        models::unifac::fill_arguments(row, self.t, self.ln, self.w, out);
    }
}
