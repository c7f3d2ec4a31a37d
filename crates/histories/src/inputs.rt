// Inputs of a crate's own, by the four methods that the mixture's trait asks for: a test.
ghost use Rattle.std.specs.Prelude.{true};
ghost use Rattle.arithmetic.specs.Tables.{grid};

use mixture::inputs::Inputs;

// Two rows of what the entries are the exp of.
#[derive(Clone, Copy)]
struct Square {
    arguments: [f64; 4],
}

impl Inputs for Square {
    ghost rows = { λ s. 2 };

    ghost argument = { λ s. grid 2 s.arguments };

    ghost diagonal = { true };

    fn has_diagonal(self) -> bool {
        true
    }

    fn rows(self) -> usize {
        2
    }

    fn argument(self, i: usize, j: usize) -> f64 {
        self.arguments[i * 2 + j]
    }

    fn fill_arguments(self, i: usize, out: &mut [f64]) {
        out[0] = self.argument(i, 0);
        out[1] = self.argument(i, 1);
    }
}

#[test]
fn entries_are_exp_of_their_arguments(rt: HostRuntime) {
    let square = Square {
        arguments: [0.0, 1.0, -1000.0, 1000.0],
    };
    assert_eq!(rt; square.exponential(0, 0), 1.0);
    assert_eq!(rt;
        square.exponential(0, 1),
        2.7182818284590455,
        "one place above the float nearest to e"
    );
    assert_eq!(rt; square.exponential(1, 0), 0.0);
    assert_eq!(rt; square.exponential(1, 1), f64::INFINITY);
    let mut cells = [7.0; 4];
    let mut marks = [0, 1, 0, 2];
    let count = mixture::refill::refill(square, &mut cells, &mut marks);
    assert_eq!(rt; count, 3);
    assert_eq!(rt; cells, [1.0, 7.0, 0.0, f64::INFINITY]);
    assert_eq!(rt; marks, [1, 1, 1, 1]);
}
