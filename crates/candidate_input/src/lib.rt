// What is handed in to the candidate checks, tested: tables flat by rows, of m rows and n columns,
// weights, vectors and a claim. Nothing of it is believed.
#![tactic(auto)]

ghost use Rattle.std.specs.Prelude.{◌≡◌, not};
ghost use Rattle.std.specs.Float.Ieee.{lt};
ghost use Rattle.game.specs.Finite.{all};
ghost use Rattle.candidate_input.specs.Input.{sized, well_formed, tolerable, claimed};

// The most rows and the most columns: the candidate checks' own limit.
pub const MAX_ACTIONS: usize = 64;

// What a minimax candidate claims: the value of the game to player 1, and how far from it, and from
// a distribution, it may be.
#[repr(C)]
#[derive(Clone, Copy)]
pub struct Claim {
    pub value: f64,
    pub tolerance: f64,
}

// Whether there are 1 to MAX_ACTIONS rows and 1 to MAX_ACTIONS columns.
fn is_sized(m: usize, n: usize) -> bool
    ensures { result ≡ sized m n }
{
    (1 <= m) & (m <= MAX_ACTIONS) & (1 <= n) & (n <= MAX_ACTIONS)
}

// Whether no number is below `bound`. The loop has no exit inside, so that it is compiled to vector
// instructions.
pub fn none_below(values: &[f64], bound: f64) -> bool
    ensures { result ≡ all (λ x. not (lt x bound)) values.now }
{
    let mut ok = true;
    for value in values {
        ok &= !(*value < bound);
    }
    ok
}

// Whether a tolerance is finite and not below 0; -0.0 is a tolerance like 0.0.
pub fn is_tolerable(tolerance: f64) -> bool
    ensures { result ≡ tolerable tolerance }
{
    utility::is_finite(tolerance) & !(tolerance < 0.0)
}

// Whether two tables and weights have the sizes and lengths that are said, finite numbers and no
// negative weight.
pub fn is_well_formed(m: usize, n: usize, u1: &[f64], u2: &[f64], weights: &[f64]) -> bool
    ensures { result ≡ well_formed m n u1.now u2.now weights.now }
{
    if !is_sized(m, n) {
        return false;
    }
    let cells = m * n;
    if !((u1.len() == cells) & (u2.len() == cells) & (weights.len() == cells)) {
        return false;
    }
    utility::all_finite(u1)
        & utility::all_finite(u2)
        & utility::all_finite(weights)
        & none_below(weights, 0.0)
}

// Whether a table, two vectors and a claim have the sizes and lengths that are said, finite numbers
// and no negative tolerance.
pub fn is_claim(m: usize, n: usize, payoffs: &[f64], p1: &[f64], p2: &[f64], claim: Claim) -> bool
    ensures { result ≡ claimed m n payoffs.now p1.now p2.now claim }
{
    if !is_sized(m, n) {
        return false;
    }
    if !((payoffs.len() == m * n) & (p1.len() == m) & (p2.len() == n)) {
        return false;
    }
    utility::all_finite(payoffs)
        & utility::all_finite(p1)
        & utility::all_finite(p2)
        & utility::is_finite(claim.value)
        & is_tolerable(claim.tolerance)
}
