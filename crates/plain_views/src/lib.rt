// The view's calls for callers that hold no view: each makes one of its fields and calls it. No
// contract here names a view or a lent list of records.
#![tactic(auto)]

ghost use Rattle.std.specs.Prelude.{◌≡◌, [], length};
ghost use Rattle.std.specs.Result.{result_unwrap_or};
ghost use Rattle.game.specs.Game.{strategy as named};
ghost use Rattle.refusal.specs.Told.{told, unless, unless_refused};
ghost use Rattle.written_lists.specs.Outputs.{over};
ghost use Rattle.payoff_tables.specs.Limits.{max_strategies};
ghost use Rattle.payoff_tables.specs.Checks.{table_refusal};
ghost use Rattle.table.specs.Space.{space_of, space_unless};
ghost use Rattle.equilibria.specs.Answers.{is_equilibrium_answer, equilibria_answer, equilibria_choices, equilibria_utilities};
ghost use Rattle.dominance.specs.Answers.{strategies_of, dominators_of, dominated_answer, dominated_written};
ghost use Rattle.survivors.specs.Survivors.{fresh_of, no_survivors};
ghost use Rattle.strikes.specs.Answers.{strike_answer, strike_leaves};
ghost use Rattle.view_fields.specs.Counts.{first_counts};
ghost use Rattle.response_list.specs.Responses.{records_answer, records_written};

use refusal::{Listed, NormalFormError};
use response_list::{BestResponse, ResponseList};
use survivor_calls::StrikeResult;
use survivors::{FreshResult, Survivors};
use table::{MAX_PLAYERS, MAX_STRATEGIES, StrategySpace};
use view::PayoffMatrix;

// The view's `new`: P and the counts that the view has, or the refusal.
pub fn matrix_new(counts: &[usize], payoffs: &[f64]) -> Result<StrategySpace, NormalFormError>
    ensures told { told result ≡ unless (table_refusal counts.now payoffs.now) (space_of counts.now) }
    ensures space_value { result_unwrap_or result (space_of []) ≡ space_unless (table_refusal counts.now payoffs.now) counts.now }
{
    let matrix = PayoffMatrix::new(counts, payoffs)?;
    let players = matrix.players;
    let counts = matrix.counts;
    Ok(StrategySpace { players, counts })
}

// The view's `best_responses`; the list goes in and comes back by value, and has room for every
// answer.
pub fn matrix_best_responses(
    payoffs: &[f64],
    players: usize,
    counts: [usize; MAX_PLAYERS],
    player: usize,
    opponents: &[usize],
    records: [BestResponse; MAX_STRATEGIES],
) -> ResponseList
    ensures { (told result.answer ≡ records_answer (first_counts players counts) payoffs.now player opponents.now max_strategies)
        × (result.records ≡ over (records_written (first_counts players counts) payoffs.now player opponents.now max_strategies) records) }
{
    let mut list = records;
    let matrix = PayoffMatrix {
        payoffs,
        players,
        counts,
    };
    let answer = matrix.best_responses(player, opponents, &mut list);
    ResponseList {
        answer,
        records: list,
    }
}

// The view's `is_equilibrium`.
pub fn matrix_is_equilibrium(
    payoffs: &[f64],
    players: usize,
    counts: [usize; MAX_PLAYERS],
    profile: &[usize],
) -> Result<bool, NormalFormError>
    ensures { told result ≡ is_equilibrium_answer (first_counts players counts) payoffs.now profile.now }
{
    let matrix = PayoffMatrix {
        payoffs,
        players,
        counts,
    };
    matrix.is_equilibrium(profile)
}

// The view's `equilibria`.
pub fn matrix_equilibria(
    payoffs: &[f64],
    players: usize,
    counts: [usize; MAX_PLAYERS],
    choices: &mut [usize],
    utilities: &mut [f64],
) -> Result<Listed, NormalFormError>
    ensures { (told result ≡ equilibria_answer (first_counts players counts) payoffs.now (length choices.old) (length utilities.old))
        × (choices.new ≡ over (equilibria_choices (first_counts players counts) payoffs.now (length choices.old) (length utilities.old)) choices.old)
        × (utilities.new ≡ over (equilibria_utilities (first_counts players counts) payoffs.now (length choices.old) (length utilities.old)) utilities.old) }
{
    let matrix = PayoffMatrix {
        payoffs,
        players,
        counts,
    };
    matrix.equilibria(choices, utilities)
}

// The view's `strictly_dominated_strategies`.
pub fn matrix_strictly_dominated_strategies(
    payoffs: &[f64],
    players: usize,
    counts: [usize; MAX_PLAYERS],
    player: usize,
    dominated: &mut [usize],
    dominators: &mut [usize],
) -> Result<usize, NormalFormError>
    ensures { (told result ≡ dominated_answer (first_counts players counts) payoffs.now player (length dominated.old) (length dominators.old))
        × (dominated.new ≡ over (strategies_of (dominated_written (first_counts players counts) payoffs.now player (length dominated.old) (length dominators.old))) dominated.old)
        × (dominators.new ≡ over (dominators_of (dominated_written (first_counts players counts) payoffs.now player (length dominated.old) (length dominators.old))) dominators.old) }
{
    let matrix = PayoffMatrix {
        payoffs,
        players,
        counts,
    };
    matrix.strictly_dominated_strategies(player, dominated, dominators)
}

// The view's `fresh`.
pub fn matrix_fresh(payoffs: &[f64], players: usize, counts: [usize; MAX_PLAYERS]) -> FreshResult
    ensures { (told result.answer ≡ unless (table_refusal (first_counts players counts) payoffs.now) tt)
        × (result.survivors ≡ unless_refused (table_refusal (first_counts players counts) payoffs.now) (fresh_of (first_counts players counts)) no_survivors) }
{
    let matrix = PayoffMatrix {
        payoffs,
        players,
        counts,
    };
    matrix.fresh()
}

// The view's `strike`.
pub fn matrix_strike(
    payoffs: &[f64],
    players: usize,
    counts: [usize; MAX_PLAYERS],
    survivors: Survivors,
    player: usize,
    strategy: usize,
) -> StrikeResult
    ensures { (told result.answer ≡ strike_answer (first_counts players counts) payoffs.now survivors (named player strategy))
        × (result.survivors ≡ strike_leaves (first_counts players counts) payoffs.now survivors (named player strategy)) }
{
    let matrix = PayoffMatrix {
        payoffs,
        players,
        counts,
    };
    matrix.strike(survivors, player, strategy)
}
