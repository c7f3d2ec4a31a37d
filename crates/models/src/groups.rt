// UNIFAC's group lists. A component's list has a count for each group that it names. The lists of all stand
// one after another, and lens has their lengths.
ghost use Rattle.std.specs.Prelude.{◌≡◌, ◌+◌, ◌<◌, ◌≤◌, length};
ghost use Rattle.arithmetic.specs.Floats.{◌⊘◌, +0};
ghost use Rattle.arithmetic.specs.Tables.{at, Filled};
ghost use Rattle.models.specs.Limits.{most_components, most_groups};
ghost use Rattle.models.specs.Steps.GroupLists.{Listed, Paired};
ghost use Rattle.models.specs.Values.{start, counts_at};

use crate::limits::{COMPONENTS, GROUPS};

// How many places stand before the list of component i.
pub fn start_of(lens: &[u8], i: usize) -> usize
    requires { (i ≤ length lens.now) × (i ≤ most_components) }
    ensures { result ≡ start lens.now i }
{
    lens[..i].iter().map(|l| usize::from(*l)).sum()
}

// Where the counts stand among the values.
pub fn counts_at(ng: usize) -> usize
    requires { ng ≤ most_groups }
    ensures { (result ≡ counts_at ng) × (result ≤ 5184) }
{
    ng + ng + ng * ng * 5
}

// A component's list: a count for each group that it names, of ng.
#[derive(Clone, Copy)]
pub struct GroupList<'a> {
    pub ng: usize,
    pub groups: &'a [u8],
    pub counts: &'a [f64],
    ghost paired: { Paired ng groups.now counts.now },
}

impl<'a> GroupList<'a> {
    ghost use Rattle.models.specs.Unifac.{size, pure_fraction, residual};
    ghost use Rattle.models.specs.Steps.GroupLists.{gathered, added, put};
    ghost use Rattle.models.specs.Steps.Unifac.{list_of};

    // The size of its component, r for s = R and q for s = Q: the sum of count·s.
    fn size(&self, s: &[f64]) -> f64
        requires { self.now.ng ≤ length s.now }
        ensures { result ≡ size (list_of self.now) (at s.now) 0 }
    {
        let mut size = 0.0;
        for (g, count) in self.groups.iter().zip(self.counts) {
            size = size + *count * s[usize::from(*g)];
        }
        size
    }

    // Adds x·count to the group's number, for each place of the list in turn.
    fn add_counts(&self, x: f64, num: &mut [f64])
        requires { self.now.ng ≤ length num.old }
        ensures { Filled (λ k. added (list_of self.now) x 0 k (at num.old k)) (length num.old) num.new }
    {
        for (g, count) in self.groups.iter().zip(self.counts) {
            let g = usize::from(*g);
            num[g] = num[g] + x * *count;
        }
    }

    // Writes each place's count to its group's number, the last for a group listed twice.
    fn put_counts(&self, num: &mut [f64])
        requires { self.now.ng ≤ length num.old }
        ensures { Filled (λ k. put (list_of self.now) 0 k (at num.old k)) (length num.old) num.new }
    {
        for (g, count) in self.groups.iter().zip(self.counts) {
            num[usize::from(*g)] = *count;
        }
    }

    // Writes X of each group in the pure component.
    pub fn fractions(&self, out: &mut [f64])
        requires { (self.now.ng ≤ most_groups) × (self.now.ng ≤ length out.old) }
        ensures { Filled (pure_fraction (list_of self.now) 0) self.now.ng out.new }
    {
        let mut num = [0.0; GROUPS];
        self.put_counts(&mut num[..]);
        divide(&num[..self.ng], arithmetic::sum(self.counts), out);
    }

    // The sum of count·(m - p): m has ln Γ in the mixture, p in the pure component.
    pub fn residual(&self, m: &[f64], p: &[f64]) -> f64
        requires { (self.now.ng ≤ length m.now) × (self.now.ng ≤ length p.now) }
        ensures { result ≡ residual (list_of self.now) (at m.now) (λ _. at p.now) 0 }
    {
        let mut residual = 0.0;
        for (g, count) in self.groups.iter().zip(self.counts) {
            let g = usize::from(*g);
            residual = residual + *count * (m[g] - p[g]);
        }
        residual
    }
}

// Writes each number over d.
fn divide(num: &[f64], d: f64, out: &mut [f64])
    requires { length num.now ≤ length out.old }
    ensures { Filled (λ k. at num.now k ⊘ d) (length num.now) out.new }
{
    for (k, v) in num.iter().enumerate() {
        out[k] = *v / d;
    }
}

// The lists of n components, over ng groups.
#[derive(Clone, Copy)]
pub struct GroupLists<'a> {
    pub n: usize,
    pub ng: usize,
    pub lens: &'a [u8],
    pub groups: &'a [u8],
    pub counts: &'a [f64],
    ghost few: { n ≤ most_components },
    ghost listed: { Listed n ng lens.now groups.now counts.now },
}

impl<'a> GroupLists<'a> {
    ghost use Rattle.models.specs.Unifac.{amount, amounts, fraction, size};
    ghost use Rattle.models.specs.Steps.Unifac.{lists_of, IsList};

    // The list of component i, which begins at a place.
    fn list_from(&self, i: usize, place: usize) -> GroupList<'a>
        requires { (i < self.now.n) × (place ≡ start self.now.lens.now i) }
        ensures { IsList self.now i result }
    {
        let end = place + usize::from(self.lens[i]);
        GroupList {
            ng: self.ng,
            groups: &self.groups[place..end],
            counts: &self.counts[place..end],
        }
    }

    // The list of component i.
    pub fn list(&self, i: usize) -> GroupList<'a>
        requires { i < self.now.n }
        ensures { IsList self.now i result }
    {
        self.list_from(i, start_of(self.lens, i))
    }

    // Each component with its list.
    pub fn each(&self) -> Each<'a>
        ensures { (result.lists ≡ self.now) × (result.i ≡ 0) }
    {
        Each {
            lists: *self,
            i: 0,
            place: 0,
        }
    }

    // The size of each component.
    pub fn sizes(&self, s: &[f64]) -> [f64; COMPONENTS]
        requires { self.now.ng ≤ length s.now }
        ensures { Filled (size (lists_of self.now) (at s.now)) self.now.n result }
    {
        let mut sizes = [0.0; COMPONENTS];
        for (i, list) in self.each() {
            sizes[i] = list.size(s);
        }
        sizes
    }

    // Adds x_i·count to each group's number, and gives the sum of x_i times all counts of i.
    fn amounts(&self, x: &[f64], num: &mut [f64]) -> f64
        requires { (self.now.n ≤ length x.now)
            × (self.now.ng ≤ length num.old)
            × Filled (λ _. +0) (length num.old) num.old }
        ensures { (result ≡ amounts self.now.n (lists_of self.now) (at x.now))
            × Filled (amount self.now.n (lists_of self.now) (at x.now)) (length num.old) num.new }
    {
        let mut sum = 0.0;
        for (i, list) in self.each() {
            list.add_counts(x[i], num);
            sum = sum + x[i] * arithmetic::sum(list.counts);
        }
        sum
    }

    // Writes X of each group in the mixture where zeros stand.
    pub fn fractions(&self, x: &[f64], out: &mut [f64])
        requires { (self.now.n ≤ length x.now)
            × (self.now.ng ≤ most_groups)
            × (self.now.ng ≤ length out.old)
            × Filled (λ _. +0) self.now.ng out.old }
        ensures { Filled (fraction self.now.n (lists_of self.now) (at x.now)) self.now.ng out.new }
    {
        let mut num = [0.0; GROUPS];
        let sum = self.amounts(x, &mut num[..]);
        if sum > 0.0 {
            divide(&num[..self.ng], sum, out);
        }
    }
}

// The components from i on, each with its list; that of i begins at place.
#[derive(Clone, Copy)]
pub struct Each<'a> {
    pub lists: GroupLists<'a>,
    pub i: usize,
    pub place: usize,
    ghost within: { i ≤ lists.n },
    ghost here: { place ≡ start lists.lens.now i },
}

impl<'a> Iterator for Each<'a> {
    ghost use Rattle.std.specs.Prelude.{◌-◌};
    ghost use Rattle.std.specs.Iterator.{at_most};
    ghost use Rattle.models.specs.Steps.Unifac.{GivesNext};

    type Item = (usize, GroupList<'a>);

    ghost next_gives = { GivesNext };

    ghost remaining = { λ s. at_most (s.lists.n - s.i) };

    fn next(&mut self) -> Option<(usize, GroupList<'a>)> {
        let i = self.i;
        if i == self.lists.n {
            return None;
        }
        let list = self.lists.list_from(i, self.place);
        self.i = i + 1;
        self.place += list.groups.len();
        Some((i, list))
    }
}
