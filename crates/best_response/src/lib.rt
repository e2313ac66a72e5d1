// Best responses: the strategies of a player whose payoff no other strategy of that player exceeds,
// against given choices of the others. They are found along a row (`strategy_row`), whose functions
// are over marks; a table is the case where every strategy is marked.
#![tactic(auto)]

ghost use Rattle.std.specs.Prelude.{◌≡◌, ℕ, ◌+◌, ◌*◌, ◌<◌, length, get_or};
ghost use Rattle.refusal.specs.Told.{told, unless};
ghost use Rattle.written_lists.specs.Outputs.{over};
ghost use Rattle.payoff_tables.specs.Table.{offset, stride};
ghost use Rattle.payoff_tables.specs.Meaning.{Shape, Table};
ghost use Rattle.best_response.specs.Row.{row_answer, row_written, row_utilities};
ghost use Rattle.responses.specs.Answers.{against, opponents_refusal, response_utilities, responses_answer, responses_written};

use refusal::NormalFormError;
use table::{MAX_MARKS, MAX_STRATEGIES};

// The offset of the profile in which the player chooses 0 and the opponents as given, or 9, or 10
// in player order.
fn opponents_offset(
    counts: &[usize],
    player: usize,
    opponents: &[usize],
) -> Result<usize, NormalFormError>
    requires shape { Shape counts.now }
    requires player_in_bounds { player < length counts.now }
    ensures { told result ≡ unless (opponents_refusal counts.now player opponents.now) (offset counts.now (against player opponents.now 0)) }
{
    if opponents.len() != counts.len() - 1 {
        return Err(NormalFormError::OpponentProfileCount);
    }
    let mut at: usize = 0;
    let mut next: usize = 0;
    for (p, &count) in counts.iter().enumerate() {
        at *= count;
        if p != player {
            let choice = opponents[next];
            if count <= choice {
                return Err(NormalFormError::InvalidOpponentStrategy);
            }
            at += choice;
            next += 1;
        }
    }
    Ok(at)
}

// The best responses along the player's row, which begins at the offset `at`, or 13.
fn row_responses(
    counts: &[usize],
    payoffs: &[f64],
    player: usize,
    at: usize,
    strategies: &mut [usize],
    utilities: &mut [f64],
) -> Result<usize, NormalFormError>
    requires table { Table counts.now payoffs.now }
    requires player_in_bounds { player < length counts.now }
    requires by_index { (t : ℕ) → t < get_or counts.now player 0 → at * length counts.now + player + t * (stride counts.now player * length counts.now) < length payoffs.now }
    ensures result_value { told result ≡ row_answer counts.now payoffs.now player at (length strategies.old) (length utilities.old) }
    ensures strategies_after { strategies.new ≡ over (row_written counts.now payoffs.now player at (length strategies.old) (length utilities.old)) strategies.old }
    ensures utilities_after { utilities.new ≡ over (row_utilities counts.now payoffs.now player at (row_written counts.now payoffs.now player at (length strategies.old) (length utilities.old))) utilities.old }
{
    let players = counts.len();
    let count = counts[player];
    let start = at * players + player;
    let step = table::stride(counts, player) * players;
    let marks = [true; MAX_MARKS];
    let place = player * MAX_STRATEGIES;
    let top = start + strategy_row::best(payoffs, &marks, place, start, step, count) * step;
    let number = strategy_row::count_best(payoffs, &marks, place, start, step, count, top);
    if strategies.len() < number || utilities.len() < number {
        return Err(NormalFormError::OutputTooShort);
    }
    strategy_row::write_best(
        payoffs, &marks, place, start, step, count, top, strategies, utilities,
    );
    Ok(number)
}

// All best responses of the player to the opponents' choices, which stand in player order with the
// player's own place skipped: the strategies ascending into `strategies`, the payoff of each, bits
// kept, into `utilities`, and how many there are. Elements past those written keep their contents.
// Or the first of 1 to 7, 8, 9, 10 in player order, and 13, and nothing is written.
pub fn best_responses(
    counts: &[usize],
    payoffs: &[f64],
    player: usize,
    opponents: &[usize],
    strategies: &mut [usize],
    utilities: &mut [f64],
) -> Result<usize, NormalFormError>
    ensures result_value { told result ≡ responses_answer counts.now payoffs.now player opponents.now (length strategies.old) (length utilities.old) }
    ensures strategies_after { strategies.new ≡ over (responses_written counts.now payoffs.now player opponents.now (length strategies.old) (length utilities.old)) strategies.old }
    ensures utilities_after { utilities.new ≡ over (response_utilities counts.now payoffs.now player opponents.now (responses_written counts.now payoffs.now player opponents.now (length strategies.old) (length utilities.old))) utilities.old }
{
    table::table_profile_count(counts, payoffs)?;
    if counts.len() <= player {
        return Err(NormalFormError::InvalidPlayer);
    }
    let at = opponents_offset(counts, player, opponents)?;
    row_responses(counts, payoffs, player, at, strategies, utilities)
}
