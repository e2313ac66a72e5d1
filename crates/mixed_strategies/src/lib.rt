// Mixed strategies: whether a vector is a distribution up to a tolerance, and whether the
// expectations under a vector stay within bounds. A player has `count` strategies and the other one
// `others`; the number of own strategy s and the other's o stands at s × own + o × other in a
// table.
#![tactic(auto)]

ghost use Rattle.std.specs.Prelude.{◌≡◌, true, ◌<◌, ◌≤◌, length, get_or, Float};
ghost use Rattle.std.specs.Float.{nan};
ghost use Rattle.std.specs.Float.Ieee.{lt};
ghost use Rattle.game.specs.Finite.{all, below};
ghost use Rattle.payoff_order.specs.Order.{finite};
ghost use Rattle.sums.specs.Sums.{distance};
ghost use Rattle.sums.specs.Inner.{Spans};
ghost use Rattle.candidate_input.specs.Input.{max_actions};
ghost use Rattle.mixed_strategies.specs.Distribution.{sums_to_one, distribution};
ghost use Rattle.mixed_strategies.specs.Inner.{between, within};

use candidate_input::MAX_ACTIONS;

// How far a number is from 0, but for the sign of -0.0, which compares like 0.0.
fn magnitude(x: f64) -> f64
    ensures { (y : Float) → lt y result ≡ lt y (distance x) }
{
    if x < 0.0 { -x } else { x }
}

// Whether a vector's sum, less 1.0, is no further from 0 than the tolerance.
fn sums_to_one(values: &[f64], tolerance: f64) -> bool
    ensures { result ≡ sums_to_one values.now tolerance }
{
    let far = magnitude(sums::sum(values) - 1.0);
    !(far > tolerance)
}

// Whether a vector is a distribution up to the tolerance: finite numbers, no entry below
// -tolerance, and a sum that is 1 but for the tolerance. No, too, where the tolerance isn't finite
// or is negative.
pub fn is_distribution(values: &[f64], tolerance: f64) -> bool
    ensures { result ≡ distribution values.now tolerance }
{
    if !(utility::all_finite(values) & candidate_input::is_tolerable(tolerance)) {
        return false;
    }
    if !candidate_input::none_below(values, -tolerance) {
        return false;
    }
    sums_to_one(values, tolerance)
}

// Whether each of the first `count` numbers is finite, not below `low` and not above `high`.
fn all_between(values: &[f64], count: usize, low: f64, high: f64) -> bool
    requires { count ≤ length values.now }
    ensures { result ≡ all (λ t. between low high (get_or values.now t nan)) (below count) }
{
    let mut ok = true;
    for &x in &values[..count] {
        ok &= utility::is_finite(x) & !(x < low) & !(x > high);
    }
    ok
}

// Whether, for each own strategy, the expectation under a vector over the other's strategies is
// finite, not below `low` and not above `high`. A payoff less 0.0 is the payoff itself. The caller
// proves that there are 1 to MAX_ACTIONS strategies, that the vector has a number for each of the
// other's, and that every payoff is finite and stands in the table.
pub fn expectations_between(
    payoffs: &[f64],
    vector: &[f64],
    count: usize,
    own: usize,
    others: usize,
    other: usize,
    low: f64,
    high: f64,
) -> bool
    requires count_nonzero { (0 < count) × (count ≤ max_actions) }
    requires others_in_bounds { others ≤ length vector.now }
    requires payoffs_value { all finite payoffs.now ≡ true }
    requires spans { Spans payoffs.now own other count others }
    ensures { result ≡ within payoffs.now vector.now count own others other low high }
{
    let mut sums = [0.0; MAX_ACTIONS];
    for (o, share) in vector[..others].iter().enumerate() {
        sums::add_terms(&mut sums, count, *share, 0.0, payoffs, o * other, own);
    }
    all_between(&sums, count, low, high)
}
