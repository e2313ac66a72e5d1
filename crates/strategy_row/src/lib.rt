// A row, the cells of one player's strategies: strategy t's payoff is payoffs[start + t × step],
// and its mark marks[place + t]. The walks along it behind best responses and equilibria. No struct
// holds a row, since each clause names these parameters.
#![tactic(auto)]

ghost use Rattle.std.specs.Prelude.{◌≡◌, map, ℕ, ◌+◌, ◌*◌, ◌<◌, ◌≤◌, length, get_or};
ghost use Rattle.std.specs.Float.{nan};
ghost use Rattle.written_lists.specs.Outputs.{over};
ghost use Rattle.payoff_tables.specs.Meaning.{Finites};
ghost use Rattle.strategy_row.specs.Row.{row_unexceeded, row_reaching, row_lowest};

use utility::Utility;

// Whether no marked strategy's payoff exceeds that of the cell `own`. The caller proves that the
// row lies within the table and the marks, that `own` is a cell, and that every payoff is finite.
pub fn unexceeded(
    payoffs: &[f64],
    marks: &[bool],
    place: usize,
    start: usize,
    step: usize,
    count: usize,
    own: usize,
) -> bool
    requires finites { Finites payoffs.now }
    requires count_in_bounds { place + count ≤ length marks.now }
    requires by_index { (t : ℕ) → t < count → start + t * step < length payoffs.now }
    requires own_in_bounds { own < length payoffs.now }
    ensures { result ≡ row_unexceeded payoffs.now marks.now place start step count own }
{
    for t in 0..count {
        if marks[place + t] && table::exceeds(payoffs, start + t * step, own) {
            return false;
        }
    }
    true
}

// The lowest marked strategy whose payoff no marked strategy exceeds, or 0 where none is marked.
// The caller proves that the row lies within the table and the marks and has a strategy, and that
// every payoff is finite.
pub fn best(
    payoffs: &[f64],
    marks: &[bool],
    place: usize,
    start: usize,
    step: usize,
    count: usize,
) -> usize
    requires finites { Finites payoffs.now }
    requires count_in_bounds { place + count ≤ length marks.now }
    requires by_index { (t : ℕ) → t < count → start + t * step < length payoffs.now }
    requires count_nonzero { 0 < count }
    ensures { result ≡ row_lowest payoffs.now marks.now place start step count }
{
    let mut best: Option<(usize, Utility)> = None;
    for t in 0..count {
        if marks[place + t] {
            let mine = Utility::of_finite(payoffs[start + t * step]);
            if best.is_none_or(|(_, top)| mine.exceeds(top)) {
                best = Some((t, mine));
            }
        }
    }
    best.map_or(0, |(t, _)| t)
}

// How many marked strategies have a payoff that the cell `top` does not exceed. The caller proves
// that the row lies within the table and the marks, that `top` is a cell, and that every payoff is
// finite.
pub fn count_best(
    payoffs: &[f64],
    marks: &[bool],
    place: usize,
    start: usize,
    step: usize,
    count: usize,
    top: usize,
) -> usize
    requires finites { Finites payoffs.now }
    requires count_in_bounds { place + count ≤ length marks.now }
    requires by_index { (t : ℕ) → t < count → start + t * step < length payoffs.now }
    requires top_in_bounds { top < length payoffs.now }
    ensures { result ≡ length (row_reaching payoffs.now marks.now place start step count top) }
{
    let mut number: usize = 0;
    for t in 0..count {
        if marks[place + t] && !table::exceeds(payoffs, top, start + t * step) {
            number += 1;
        }
    }
    number
}

// Writes those strategies, ascending, and the payoff of each. The caller proves the same, and that
// both outputs hold them.
pub fn write_best(
    payoffs: &[f64],
    marks: &[bool],
    place: usize,
    start: usize,
    step: usize,
    count: usize,
    top: usize,
    strategies: &mut [usize],
    utilities: &mut [f64],
)
    requires finites { Finites payoffs.now }
    requires count_in_bounds { place + count ≤ length marks.now }
    requires by_index { (t : ℕ) → t < count → start + t * step < length payoffs.now }
    requires top_in_bounds { top < length payoffs.now }
    requires top_in_bounds_2 { length (row_reaching payoffs.now marks.now place start step count top) ≤ length strategies.old }
    requires top_in_bounds_3 { length (row_reaching payoffs.now marks.now place start step count top) ≤ length utilities.old }
    ensures strategies_after { strategies.new ≡ over (row_reaching payoffs.now marks.now place start step count top) strategies.old }
    ensures utilities_after { utilities.new ≡ over (map (λ t. get_or payoffs.now (start + t * step) nan) (row_reaching payoffs.now marks.now place start step count top)) utilities.old }
{
    let mut number: usize = 0;
    for t in 0..count {
        if marks[place + t] {
            let cell = start + t * step;
            if !table::exceeds(payoffs, top, cell) {
                strategies[number] = t;
                utilities[number] = payoffs[cell];
                number += 1;
            }
        }
    }
}
