// The gains of a player who changes one strategy for another, and the greatest of them. A player
// has `count` strategies and the other one `others`; the number of own strategy s and the other's o
// stands at s × own + o × other in a table. These are parameters one by one, here and in
// `mixed_strategies`: the clauses name them, and public functions keep theirs.
#![tactic(auto)]

ghost use Rattle.std.specs.Prelude.{◌≡◌, not, map, ◌<◌, ◌≤◌, eqb, length, get_or};
ghost use Rattle.std.specs.Float.{nan};
ghost use Rattle.game.specs.Finite.{below, filter};
ghost use Rattle.sums.specs.Inner.{strided, Spans};
ghost use Rattle.candidate_input.specs.Input.{max_actions};
ghost use Rattle.gains.specs.Gains.{gains_from, gains_of};
ghost use Rattle.gains.specs.Inner.{raise, raise_all};

use candidate_input::MAX_ACTIONS;

// The greater of the best so far and a gain, or infinity where the gain isn't finite.
fn raised(best: f64, gain: f64) -> f64
    ensures { result ≡ raise best gain }
{
    if !utility::is_finite(gain) {
        return sums::infinity();
    }
    if best < gain { gain } else { best }
}

// The best so far, raised by each of the first `count` gains but the one at `own`.
fn raised_by(best: f64, gains: &[f64], count: usize, own: usize) -> f64
    requires { count ≤ length gains.now }
    ensures { result ≡ raise_all best (map (λ t. get_or gains.now t nan) (filter (λ t. not (eqb t own)) (below count))) }
{
    let mut top = best;
    for (t, gain) in gains[..count].iter().enumerate() {
        if t != own {
            top = raised(top, *gain);
        }
    }
    top
}

// The best so far, raised by what a player gains by each other strategy in place of s.
fn raised_from(
    best: f64,
    payoffs: &[f64],
    weights: &[f64],
    s: usize,
    count: usize,
    own: usize,
    others: usize,
    other: usize,
) -> f64
    requires s_lt_count { (s < count) × (count ≤ max_actions) }
    requires spans { Spans payoffs.now own other count others }
    requires weights_len { length weights.now ≡ length payoffs.now }
    ensures { result ≡ raise_all best (gains_from (strided weights.now own other) (strided payoffs.now own other) (below others) count s) }
{
    let mut gains = [0.0; MAX_ACTIONS];
    for o in 0..others {
        let first = o * other;
        let place = s * own + first;
        sums::add_terms(
            &mut gains,
            count,
            weights[place],
            payoffs[place],
            payoffs,
            first,
            own,
        );
    }
    raised_by(best, &gains, count, s)
}

// The best so far, raised by all gains of a player; infinity is not raised any more. The caller
// proves that there are at most MAX_ACTIONS strategies, that every payoff stands in the table, and
// that there are as many weights as payoffs.
pub fn raised_player(
    best: f64,
    payoffs: &[f64],
    weights: &[f64],
    count: usize,
    own: usize,
    others: usize,
    other: usize,
) -> f64
    requires count_le_max_actions { count ≤ max_actions }
    requires spans { Spans payoffs.now own other count others }
    requires weights_len { length weights.now ≡ length payoffs.now }
    ensures { result ≡ raise_all best (gains_of (strided weights.now own other) (strided payoffs.now own other) (below others) count) }
{
    let mut top = best;
    for s in 0..count {
        if top == sums::infinity() {
            return top;
        }
        top = raised_from(top, payoffs, weights, s, count, own, others, other);
    }
    top
}
