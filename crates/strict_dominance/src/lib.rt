// Strict dominance by pure strategies: t dominates s of the same player where t's payoff is greater
// against every choice of the others. The walk is over marks, against the marked choices of the
// others; a table is the case where every strategy is marked.
#![tactic(auto)]

ghost use Rattle.std.specs.Prelude.{◌≡◌, false, ℕ, ◌+◌, ◌≤◌, ◌<◌, T, length, get_or, take};
ghost use Rattle.game.specs.Finite.{product};
ghost use Rattle.game.specs.Solution.{dominator};
ghost use Rattle.refusal.specs.Told.{told, optional};
ghost use Rattle.written_lists.specs.Outputs.{over};
ghost use Rattle.payoff_tables.specs.Limits.{max_strategies, max_marks};
ghost use Rattle.payoff_tables.specs.Table.{table_game};
ghost use Rattle.payoff_tables.specs.Meaning.{Table};
ghost use Rattle.marks.specs.Marks.{marked};
ghost use Rattle.dominance.specs.Answers.{strategies_of, dominators_of, dominated_strategies, delivered_answer, dominated_answer, written_of, dominated_written};

use refusal::NormalFormError;
use table::{MAX_MARKS, MAX_PLAYERS, MAX_STRATEGIES};

// ---- dominators

// The lowest marked strategy of the player that strictly dominates `strategy` against the marked
// choices of the others, or none. Where `whole` is true, no mark of the others is read. The caller
// proves that the table has none of refusals 1 to 7, that there are as many marks as there may be
// and `profiles` is the number of profiles, that the player and the strategy are the table's, and,
// where `whole` is true, that every place is marked. `whole` is a parameter, and no step that is
// handed in, since a clause and the callers name it.
pub fn lowest_dominator(
    counts: &[usize],
    payoffs: &[f64],
    marks: &[bool],
    whole: bool,
    profiles: usize,
    player: usize,
    strategy: usize,
) -> Option<usize>
    requires table { Table counts.now payoffs.now }
    requires marks_len { length marks.now ≡ max_marks }
    requires t { T whole → (i : ℕ) → i < max_marks → T (get_or marks.now i false) }
    requires profiles_value { profiles ≡ product counts.now }
    requires player_in_bounds { player < length counts.now }
    requires strategy_bound { strategy < get_or counts.now player 0 }
    ensures { optional result ≡ dominator (table_game counts.now payoffs.now) (marked marks.now) player strategy }
{
    let players = counts.len();
    let count = counts[player];
    let stride = table::stride(counts, player);
    let place = player * MAX_STRATEGIES;
    let step = stride * players;
    let mut firsts = [0u8; MAX_PLAYERS];
    let first = if whole {
        0
    } else {
        marked_rows::first_row(counts, marks, player, profiles, &mut firsts)
    };
    'candidates: for t in 0..count {
        if t != strategy && marks[place + t] {
            // `base` is the offset of a profile in which the player chooses 0. Where `whole`,
            // `within` is its place in a run of `stride` such profiles; else every other choice in
            // it is marked, and `choices` has them
            let mut base = first;
            let mut within: usize = 0;
            let mut choices = firsts;
            while base < profiles {
                let start = base * players + player;
                if !table::exceeds(payoffs, start + t * step, start + strategy * step) {
                    continue 'candidates;
                }
                if whole {
                    base += 1;
                    within += 1;
                    if within == stride {
                        within = 0;
                        base += (count - 1) * stride;
                    }
                } else {
                    base = marked_rows::next_row(
                        counts,
                        marks,
                        player,
                        profiles,
                        base,
                        &mut choices,
                    );
                }
            }
            return Some(t);
        }
    }
    None
}

// ---- the dominance list

// Writes the player's dominated strategies, ascending, from the start of `strategies` on, the
// lowest dominator of each from the start of `lowest` on, and gives how many there are.
fn collect(
    counts: &[usize],
    payoffs: &[f64],
    profiles: usize,
    player: usize,
    strategies: &mut [usize],
    lowest: &mut [usize],
) -> usize
    requires table { Table counts.now payoffs.now }
    requires profiles_value { profiles ≡ product counts.now }
    requires player_in_bounds { player < length counts.now }
    requires strategies_len { (length strategies.old ≡ max_strategies) × (length lowest.old ≡ max_strategies) }
    ensures value { result ≡ length (dominated_strategies counts.now payoffs.now player) }
    ensures strategies_after { strategies.new ≡ over (strategies_of (dominated_strategies counts.now payoffs.now player)) strategies.old }
    ensures lowest_after { lowest.new ≡ over (dominators_of (dominated_strategies counts.now payoffs.now player)) lowest.old }
{
    let marks = [true; MAX_MARKS];
    let count = counts[player];
    let mut number: usize = 0;
    for s in 0..count {
        if let Some(t) = lowest_dominator(counts, payoffs, &marks, true, profiles, player, s) {
            strategies[number] = s;
            lowest[number] = t;
            number += 1;
        }
    }
    number
}

// The dominance list of a table without refusals and of one of its players, or 13 and nothing is
// written.
fn deliver(
    counts: &[usize],
    payoffs: &[f64],
    profiles: usize,
    player: usize,
    dominated: &mut [usize],
    dominators: &mut [usize],
) -> Result<usize, NormalFormError>
    requires table { Table counts.now payoffs.now }
    requires profiles_value { profiles ≡ product counts.now }
    requires player_in_bounds { player < length counts.now }
    ensures result_value { told result ≡ delivered_answer counts.now payoffs.now player (length dominated.old) (length dominators.old) }
    ensures dominated_after { dominated.new ≡ over (strategies_of (written_of counts.now payoffs.now player (told result))) dominated.old }
    ensures dominators_after { dominators.new ≡ over (dominators_of (written_of counts.now payoffs.now player (told result))) dominators.old }
{
    // two arrays, since the lists go into two lent outputs, as in C
    let mut strategies = [0usize; MAX_STRATEGIES];
    let mut lowest = [0usize; MAX_STRATEGIES];
    let number = collect(
        counts,
        payoffs,
        profiles,
        player,
        &mut strategies,
        &mut lowest,
    );
    if dominated.len() < number {
        return Err(NormalFormError::OutputTooShort);
    }
    if dominators.len() < number {
        return Err(NormalFormError::OutputTooShort);
    }
    dominated[..number].copy_from_slice(&strategies[..number]);
    dominators[..number].copy_from_slice(&lowest[..number]);
    Ok(number)
}

// The dominance list of the player: each dominated strategy ascending into `dominated`, its lowest
// dominator into `dominators`, and how many there are. Elements past those written keep their
// contents. Or the first of 1 to 7, 8 and 13, and nothing is written.
pub fn strictly_dominated_strategies(
    counts: &[usize],
    payoffs: &[f64],
    player: usize,
    dominated: &mut [usize],
    dominators: &mut [usize],
) -> Result<usize, NormalFormError>
    ensures result_value { told result ≡ dominated_answer counts.now payoffs.now player (length dominated.old) (length dominators.old) }
    ensures dominated_after { dominated.new ≡ over (strategies_of (dominated_written counts.now payoffs.now player (length dominated.old) (length dominators.old))) dominated.old }
    ensures dominators_after { dominators.new ≡ over (dominators_of (dominated_written counts.now payoffs.now player (length dominated.old) (length dominators.old))) dominators.old }
{
    let profiles = table::table_profile_count(counts, payoffs)?;
    if counts.len() <= player {
        return Err(NormalFormError::InvalidPlayer);
    }
    deliver(counts, payoffs, profiles, player, dominated, dominators)
}
