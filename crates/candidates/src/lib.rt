// Candidate checks: whether weights and vectors that some solver claims are a correlated
// equilibrium or a minimax solution of a game of two players. Tables are flat by rows, of m rows
// and n columns. Nothing that is handed in is believed.
//
// All sums of one kind are taken side by side, each of them in its own order. In the calls of
// `gains` and `mixed_strategies` `own` is n and `other` is 1 for player 1, and for player 2 `own`
// is 1 and `other` is n.
#![tactic(auto)]

ghost use Rattle.std.specs.Prelude.{◌≡◌};
ghost use Rattle.candidates.specs.Checks.{incentives, verdict_of, minimax};

pub use candidate_input::{Claim, MAX_ACTIONS};

// The greatest gain of a player who changes one strategy for another, +0.0 where none is above 0:
// player 1 has the rows and the payoffs u1, player 2 the columns and u2, and `weights` is the
// candidate. Infinity where a gain isn't finite, and where what is handed in is not as it is said:
// sizes of 1 to MAX_ACTIONS, lengths of m × n, finite numbers, no negative weight.
pub fn verify_correlated_equilibrium_incentives(
    m: usize,
    n: usize,
    u1: &[f64],
    u2: &[f64],
    weights: &[f64],
) -> f64
    ensures { result ≡ incentives m n u1.now u2.now weights.now }
{
    if !candidate_input::is_well_formed(m, n, u1, u2, weights) {
        return sums::infinity();
    }
    let rows = gains::raised_player(0.0, u1, weights, m, n, n, 1);
    gains::raised_player(rows, u2, weights, n, 1, m, n)
}

// Document 01's verdict on a candidate: whether the tolerance is finite and not below 0, and the
// greatest gain is not over it.
pub fn verdict(m: usize, n: usize, u1: &[f64], u2: &[f64], weights: &[f64], tolerance: f64) -> bool
    ensures { result ≡ verdict_of m n u1.now u2.now weights.now tolerance }
{
    if !candidate_input::is_tolerable(tolerance) {
        return false;
    }
    let gain = verify_correlated_equilibrium_incentives(m, n, u1, u2, weights);
    !(gain > tolerance)
}

// Whether p1 and p2 are minimax strategies of the table and claim.value its value to player 1, up
// to claim.tolerance: both vectors are distributions, p1 gives no less than the value in every
// column, and p2 no more in every row. No, too, where an expectation isn't finite, and where what
// is handed in is not as it is said: sizes of 1 to MAX_ACTIONS, lengths of m × n, m and n, finite
// numbers, no negative tolerance.
pub fn verify_minimax_residuals(
    m: usize,
    n: usize,
    payoffs: &[f64],
    p1: &[f64],
    p2: &[f64],
    claim: Claim,
) -> bool
    ensures { result ≡ minimax m n payoffs.now p1.now p2.now claim }
{
    if !candidate_input::is_claim(m, n, payoffs, p1, p2, claim) {
        return false;
    }
    let tolerance = claim.tolerance;
    if !mixed_strategies::is_distribution(p1, tolerance) {
        return false;
    }
    if !mixed_strategies::is_distribution(p2, tolerance) {
        return false;
    }
    let least = claim.value - tolerance;
    let most = claim.value + tolerance;
    if !mixed_strategies::expectations_between(payoffs, p1, n, 1, m, n, least, sums::infinity()) {
        return false;
    }
    mixed_strategies::expectations_between(payoffs, p2, m, n, n, 1, -sums::infinity(), most)
}
