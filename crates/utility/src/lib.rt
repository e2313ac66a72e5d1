// Utilities: payoffs that have passed the finite check, compared as their order keys are.
#![tactic(auto)]

ghost use Rattle.std.specs.Prelude.{◌≡◌, T};
ghost use Rattle.game.specs.Finite.{all};
ghost use Rattle.payoff_order.specs.Order.{finite, greater, equal};
ghost use Rattle.utility.specs.Value.{value_of, told_utility, utility_answer};

use refusal::NormalFormError;

// A payoff that has passed the finite check, by a test or by a proof. The field is private, so that
// a raw float can't enter a comparison unchecked. In C it is a double.
#[repr(C)]
#[derive(Clone, Copy)]
pub struct Utility(f64);

// Whether a value is finite. x - x is 0 where x is finite, and a NaN where it is not.
pub fn is_finite(x: f64) -> bool
    ensures { result ≡ finite x }
{
    x - x == 0.0
}

impl Utility {
    // The utility of a finite value.
    pub fn new(value: f64) -> Result<Utility, NormalFormError>
        ensures { told_utility result ≡ utility_answer value }
    {
        if is_finite(value) {
            Ok(Utility(value))
        } else {
            Err(NormalFormError::NonFiniteUtility)
        }
    }

    // The utility of a value whose check is a proof: the caller proves that it is finite, and
    // nothing is tested when it runs.
    pub fn of_finite(value: f64) -> Utility
        requires { T (finite value) }
        ensures { value_of result ≡ value }
    {
        Utility(value)
    }

    // The value that the utility holds.
    pub fn value(self) -> f64
        ensures { result ≡ value_of self }
    {
        self.0
    }

    // Whether this utility is greater than the other: the `>` of the Rust's payoffs.
    pub fn exceeds(self, other: Utility) -> bool
        ensures { result ≡ greater (value_of self) (value_of other) }
    {
        self.0 > other.0
    }

    // Whether both utilities are equal: the `==` of the Rust's payoffs.
    pub fn equals(self, other: Utility) -> bool
        ensures { result ≡ equal (value_of self) (value_of other) }
    {
        self.0 == other.0
    }
}

// Whether every value is finite. The loop has no exit inside, so that it is compiled to vector
// instructions.
fn run_finite(values: &[f64]) -> bool
    ensures { result ≡ all finite values.now }
{
    let mut ok = true;
    for &value in values {
        ok &= is_finite(value);
    }
    ok
}

// How many values `all_finite` checks before it looks at the answer.
const RUN: usize = 1024;

// Whether every value is finite: run by run, up to the first run with a value that is not.
pub fn all_finite(values: &[f64]) -> bool
    ensures { result ≡ all finite values.now }
{
    values.chunks(RUN).all(run_finite)
}
