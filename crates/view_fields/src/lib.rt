// The calls on a view's fields, the payoffs, P and eight counts, whatever they are: each is the
// plain call on the payoffs and the first P counts. P over 8 gives 2 before any count is read; each
// says so itself, since three of the six answer by a struct.
// The fields are parameters one by one, since the view is declared above this crate.
#![tactic(auto)]

ghost use Rattle.std.specs.Prelude.{◌≡◌, length};
ghost use Rattle.game.specs.Game.{strategy as named};
ghost use Rattle.refusal.specs.Told.{told, unless, unless_refused};
ghost use Rattle.written_lists.specs.Outputs.{over, written};
ghost use Rattle.payoff_tables.specs.Checks.{table_refusal};
ghost use Rattle.equilibria.specs.Answers.{is_equilibrium_answer, equilibria_answer, equilibria_choices, equilibria_utilities};
ghost use Rattle.dominance.specs.Answers.{strategies_of, dominators_of, dominated_answer, dominated_written};
ghost use Rattle.survivors.specs.Survivors.{fresh_of, no_survivors};
ghost use Rattle.strikes.specs.Answers.{strike_answer, strike_leaves};
ghost use Rattle.view_fields.specs.Counts.{first_counts};
ghost use Rattle.response_list.specs.Responses.{no_records, records_answer, records_written};

use refusal::{Listed, NormalFormError};
use response_list::Found;
use survivor_calls::StrikeResult;
use survivors::{FreshResult, Survivors};
use table::MAX_PLAYERS;

// The best responses for a list of `room` records, as `response_list::find_responses` finds them.
pub fn responses_of(
    payoffs: &[f64],
    players: usize,
    counts: [usize; MAX_PLAYERS],
    player: usize,
    opponents: &[usize],
    room: usize,
) -> Found
    ensures answer_value { told result.answer ≡ records_answer (first_counts players counts) payoffs.now player opponents.now room }
    ensures number_value { result.number ≡ written (told result.answer) }
    ensures records_value { result.records ≡ over (records_written (first_counts players counts) payoffs.now player opponents.now room) no_records }
{
    if MAX_PLAYERS < players {
        return Found::refused(NormalFormError::TooManyPlayers);
    }
    response_list::find_responses(&counts[..players], payoffs, player, opponents, room)
}

// Whether the profile is an equilibrium, as `pure_nash::is_equilibrium` says.
pub fn is_equilibrium_of(
    payoffs: &[f64],
    players: usize,
    counts: [usize; MAX_PLAYERS],
    profile: &[usize],
) -> Result<bool, NormalFormError>
    ensures { told result ≡ is_equilibrium_answer (first_counts players counts) payoffs.now profile.now }
{
    if MAX_PLAYERS < players {
        return Err(NormalFormError::TooManyPlayers);
    }
    pure_nash::is_equilibrium(&counts[..players], payoffs, profile)
}

// The equilibria, as `pure_nash::equilibria` lists them.
pub fn equilibria_of(
    payoffs: &[f64],
    players: usize,
    counts: [usize; MAX_PLAYERS],
    choices: &mut [usize],
    utilities: &mut [f64],
) -> Result<Listed, NormalFormError>
    ensures result_value { told result ≡ equilibria_answer (first_counts players counts) payoffs.now (length choices.old) (length utilities.old) }
    ensures choices_after { choices.new ≡ over (equilibria_choices (first_counts players counts) payoffs.now (length choices.old) (length utilities.old)) choices.old }
    ensures utilities_after { utilities.new ≡ over (equilibria_utilities (first_counts players counts) payoffs.now (length choices.old) (length utilities.old)) utilities.old }
{
    if MAX_PLAYERS < players {
        return Err(NormalFormError::TooManyPlayers);
    }
    pure_nash::equilibria(&counts[..players], payoffs, choices, utilities)
}

// The player's dominance list, as `strict_dominance::strictly_dominated_strategies` lists it.
pub fn dominated_of(
    payoffs: &[f64],
    players: usize,
    counts: [usize; MAX_PLAYERS],
    player: usize,
    dominated: &mut [usize],
    dominators: &mut [usize],
) -> Result<usize, NormalFormError>
    ensures result_value { told result ≡ dominated_answer (first_counts players counts) payoffs.now player (length dominated.old) (length dominators.old) }
    ensures dominated_after { dominated.new ≡ over (strategies_of (dominated_written (first_counts players counts) payoffs.now player (length dominated.old) (length dominators.old))) dominated.old }
    ensures dominators_after { dominators.new ≡ over (dominators_of (dominated_written (first_counts players counts) payoffs.now player (length dominated.old) (length dominators.old))) dominators.old }
{
    if MAX_PLAYERS < players {
        return Err(NormalFormError::TooManyPlayers);
    }
    strict_dominance::strictly_dominated_strategies(
        &counts[..players],
        payoffs,
        player,
        dominated,
        dominators,
    )
}

// The fresh survivors, as `survivors::fresh` makes them.
pub fn fresh_of(payoffs: &[f64], players: usize, counts: [usize; MAX_PLAYERS]) -> FreshResult
    ensures answer_value { told result.answer ≡ unless (table_refusal (first_counts players counts) payoffs.now) tt }
    ensures survivors_value { result.survivors ≡ unless_refused (table_refusal (first_counts players counts) payoffs.now) (fresh_of (first_counts players counts)) no_survivors }
{
    if MAX_PLAYERS < players {
        return FreshResult {
            answer: Err(NormalFormError::TooManyPlayers),
            survivors: survivors::none(),
        };
    }
    survivors::fresh(&counts[..players], payoffs)
}

// A strike, as `survivor_calls::strike` makes it.
pub fn strike_of(
    payoffs: &[f64],
    players: usize,
    counts: [usize; MAX_PLAYERS],
    survivors: Survivors,
    player: usize,
    strategy: usize,
) -> StrikeResult
    ensures answer_value { told result.answer ≡ strike_answer (first_counts players counts) payoffs.now survivors (named player strategy) }
    ensures survivors_value { result.survivors ≡ strike_leaves (first_counts players counts) payoffs.now survivors (named player strategy) }
{
    if MAX_PLAYERS < players {
        return survivor_calls::refuse(NormalFormError::TooManyPlayers, survivors);
    }
    survivor_calls::strike(&counts[..players], payoffs, survivors, player, strategy)
}
