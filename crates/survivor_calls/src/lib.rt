// The calls on survivors: a strike takes a strategy out of a game because another surviving
// strategy of its player strictly dominates it against all surviving choices of the others; and the
// equilibria among the survivors.
#![tactic(auto)]

ghost use Rattle.std.specs.Prelude.{◌≡◌, length};
ghost use Rattle.game.specs.Finite.{product};
ghost use Rattle.game.specs.Game.{strategy as named};
ghost use Rattle.game.specs.Strikes.{answer};
ghost use Rattle.refusal.specs.Refusal.{number_of};
ghost use Rattle.refusal.specs.Told.{refused, told};
ghost use Rattle.written_lists.specs.Outputs.{over};
ghost use Rattle.payoff_tables.specs.Table.{table_game};
ghost use Rattle.payoff_tables.specs.Meaning.{Table};
ghost use Rattle.survivors.specs.Survivors.{marks_of};
ghost use Rattle.strikes.specs.Answers.{told_answer, handed_back, strike_answer, strike_leaves, surviving_answer, surviving_choices, surviving_utilities};

use refusal::{Listed, NormalFormError};
use survivors::Survivors;
use table::MAX_STRATEGIES;

// The answer to a strike, or to a list of them, beside the survivors. It is no `Result`, since
// document 01 hands the survivors back beside a refusal too.
#[derive(Clone, Copy)]
pub struct StrikeResult {
    pub answer: Result<usize, NormalFormError>,
    pub survivors: Survivors,
}

// A refusal beside survivors.
pub fn refuse(error: NormalFormError, survivors: Survivors) -> StrikeResult
    ensures { (told result.answer ≡ refused (number_of error)) × (result.survivors ≡ survivors) }
{
    StrikeResult {
        answer: Err(error),
        survivors,
    }
}

// ---- strikes

// A strike that checks neither the table nor the survivors: the lowest dominator beside the
// survivors without that one mark, or 8, 14 or 15 beside the survivors unchanged. The caller proves
// that the table has none of refusals 1 to 7, and that it has `profiles` profiles.
pub fn strike_marked(
    counts: &[usize],
    payoffs: &[f64],
    profiles: usize,
    survivors: Survivors,
    player: usize,
    strategy: usize,
) -> StrikeResult
    requires table { Table counts.now payoffs.now }
    requires profiles_value { profiles ≡ product counts.now }
    ensures answer_value { told result.answer ≡ told_answer (answer (table_game counts.now payoffs.now) (marks_of survivors) (named player strategy)) }
    ensures survivors_value { result.survivors ≡ handed_back survivors (named player strategy) (told result.answer) }
{
    if counts.len() <= player {
        return refuse(NormalFormError::InvalidPlayer, survivors);
    }
    if counts[player] <= strategy {
        return refuse(NormalFormError::NoSurvivingStrategy, survivors);
    }
    let marks = survivors.marks;
    if !marks[player * MAX_STRATEGIES + strategy] {
        return refuse(NormalFormError::NoSurvivingStrategy, survivors);
    }
    match strict_dominance::lowest_dominator(
        counts, payoffs, &marks, false, profiles, player, strategy,
    ) {
        None => refuse(NormalFormError::NotDominated, survivors),
        Some(t) => StrikeResult {
            answer: Ok(t),
            survivors: survivors::without_mark(survivors, player, strategy),
        },
    }
}

// A strike: the player's strategy is taken out, where a surviving strategy of the player strictly
// dominates it against all surviving choices of the others. The lowest such dominator, beside the
// survivors without that one mark; or the first of 1 to 7, 16, 8, 14 and 15, beside the survivors
// unchanged.
pub fn strike(
    counts: &[usize],
    payoffs: &[f64],
    survivors: Survivors,
    player: usize,
    strategy: usize,
) -> StrikeResult
    ensures answer_value { told result.answer ≡ strike_answer counts.now payoffs.now survivors (named player strategy) }
    ensures survivors_value { result.survivors ≡ strike_leaves counts.now payoffs.now survivors (named player strategy) }
{
    match table::table_profile_count(counts, payoffs) {
        Err(e) => refuse(e, survivors),
        Ok(profiles) => {
            if survivors::is_foreign(counts, survivors) {
                return refuse(NormalFormError::ForeignSurvivors, survivors);
            }
            strike_marked(counts, payoffs, profiles, survivors, player, strategy)
        }
    }
}

// ---- the survivors' listing

// How many equilibria there are among the survivors, in profiles of survivors and with changes to
// survivors only, and how many of them are written: the first that both outputs hold whole, each
// once, in profile order, P choices of each into `choices`, and P payoffs of each, bits kept, into
// `utilities`. Elements past those written keep their contents. With empty outputs nothing is
// written. Or the first of 1 to 7 and 16, and nothing is written.
pub fn surviving_equilibria(
    counts: &[usize],
    payoffs: &[f64],
    survivors: Survivors,
    choices: &mut [usize],
    utilities: &mut [f64],
) -> Result<Listed, NormalFormError>
    ensures result_value { told result ≡ surviving_answer counts.now payoffs.now survivors (length choices.old) (length utilities.old) }
    ensures choices_after { choices.new ≡ over (surviving_choices counts.now payoffs.now survivors (length choices.old) (length utilities.old)) choices.old }
    ensures utilities_after { utilities.new ≡ over (surviving_utilities counts.now payoffs.now survivors (length choices.old) (length utilities.old)) utilities.old }
{
    let profiles = table::table_profile_count(counts, payoffs)?;
    if survivors::is_foreign(counts, survivors) {
        return Err(NormalFormError::ForeignSurvivors);
    }
    Ok(pure_nash::marked_equilibria(
        counts,
        payoffs,
        &survivors.marks,
        profiles,
        choices,
        utilities,
    ))
}
