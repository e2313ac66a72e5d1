// Sums of f64s, taken left to right, and sums taken side by side, each of them in its own order.
#![tactic(auto)]

ghost use Rattle.std.specs.Prelude.{◌≡◌, false, ℕ, ◌+◌, ◌*◌, ◌<◌, ◌≤◌, length, get_or};
ghost use Rattle.std.specs.Float.{nan, inf, binary64};
ghost use Rattle.std.specs.Float.Ieee.{sub, mul};
ghost use Rattle.sums.specs.Sums.{rounded_sum};
ghost use Rattle.sums.specs.Inner.{added};

// Infinity.
pub fn infinity() -> f64
    ensures { result ≡ inf false }
{
    1.0 / 0.0
}

// The sum taken left to right, from 0.0.
pub fn sum(values: &[f64]) -> f64
    ensures { result ≡ rounded_sum values.now }
{
    let mut total = 0.0;
    for value in values {
        total += *value;
    }
    total
}

// Adds weight × (number − less) to the first `count` sums: to sum t with the number at
// t × step + first. The caller proves that there are so many sums, and that each of these numbers
// stands in the table.
pub fn add_terms(
    sums: &mut [f64],
    count: usize,
    weight: f64,
    less: f64,
    table: &[f64],
    first: usize,
    step: usize,
)
    requires count_in_bounds { count ≤ length sums.old }
    requires by_index { (t : ℕ) → t < count → t * step + first < length table.now }
    ensures { sums.new ≡ added count (λ t. mul binary64 weight (sub binary64 (get_or table.now (t * step + first) nan) less)) sums.old }
{
    for (t, sum) in sums[..count].iter_mut().enumerate() {
        *sum += weight * (table[t * step + first] - less);
    }
}
