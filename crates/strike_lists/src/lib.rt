// Lists of strikes. Whatever list of strikes is made on a table, the equilibria listed over the
// survivors are the whole table's: demand 3, which the contract of `strikes` has. The table is one
// value through all the calls of a list: nobody writes it meanwhile.
#![tactic(auto)]

ghost use Rattle.std.specs.Prelude.{◌≡◌, cond, map, ℕ, ◌<◌, ◌≤◌, length, set};
ghost use Rattle.refusal.specs.Told.{values, refused, told, status, tells};
ghost use Rattle.written_lists.specs.Outputs.{over};
ghost use Rattle.payoff_tables.specs.Meaning.{Table};
ghost use Rattle.survivors.specs.Survivors.{fresh_of, no_survivors};
ghost use Rattle.strike_chains.specs.Answers.{calls_of, chain, accepted_of, dominator_of, answers_said, strikes_answer, strikes_leave, strikes_written};
ghost use Rattle.strike_chains.specs.Demand3.{Demand3};

use refusal::NormalFormError;
use survivor_calls::StrikeResult;
use survivors::Survivors;

// What a list of strikes that 13 refuses hands back: 13 beside P 0, counts 0 and no mark.
fn too_short() -> StrikeResult
    ensures { (told result.answer ≡ refused 13) × (result.survivors ≡ no_survivors) }
{
    survivor_calls::refuse(NormalFormError::OutputTooShort, survivors::none())
}

// Writes the answer to a strike at a place of the two outputs: 0 or the refusal's number, and the
// dominator, 0 where refused. 1 where it was accepted, and else 0.
fn write_answer(
    answer: Result<usize, NormalFormError>,
    place: usize,
    answers: &mut [u32],
    dominators: &mut [usize],
) -> usize
    requires { (place < length answers.old) × (place < length dominators.old) }
    ensures value { result ≡ cond (tells (told answer)) 1 0 }
    ensures answers_after { answers.new ≡ set answers.old place (status (told answer)) }
    ensures dominators_after { dominators.new ≡ set dominators.old place (dominator_of (told answer)) }
{
    match answer {
        Ok(t) => {
            answers[place] = 0;
            dominators[place] = t;
            1
        }
        Err(e) => {
            answers[place] = e.number();
            dominators[place] = 0;
            0
        }
    }
}

// Runs the calls that two lists name on a table without refusals, from its fresh survivors: how
// many were accepted, beside the survivors that the last one handed back. Each answer is written.
fn strike_each(
    counts: &[usize],
    payoffs: &[f64],
    survivors: Survivors,
    players: &[usize],
    strategies: &[usize],
    answers: &mut [u32],
    dominators: &mut [usize],
) -> StrikeResult
    requires table { Table counts.now payoffs.now }
    requires survivors_value { survivors ≡ fresh_of counts.now }
    requires strategies_in_bounds { length (calls_of players.now strategies.now) ≤ length answers.old }
    requires strategies_in_bounds_2 { length (calls_of players.now strategies.now) ≤ length dominators.old }
    ensures answer_value { told result.answer ≡ values (accepted_of (chain counts.now payoffs.now (calls_of players.now strategies.now)).answers) }
    ensures survivors_value_2 { result.survivors ≡ (chain counts.now payoffs.now (calls_of players.now strategies.now)).survivors }
    ensures answers_after { answers.new ≡ over (map status (chain counts.now payoffs.now (calls_of players.now strategies.now)).answers) answers.old }
    ensures dominators_after { dominators.new ≡ over (map dominator_of (chain counts.now payoffs.now (calls_of players.now strategies.now)).answers) dominators.old }
{
    let number = players.len().min(strategies.len());
    // the table has P payoffs for each profile
    let profiles = payoffs.len() / counts.len();
    let mut left = survivors;
    let mut accepted = 0;
    for i in 0..number {
        let struck = survivor_calls::strike_marked(
            counts,
            payoffs,
            profiles,
            left,
            players[i],
            strategies[i],
        );
        let taken = write_answer(struck.answer, i, answers, dominators);
        // a refused strike hands back what it was given
        if 0 < taken {
            left = struck.survivors;
        }
        accepted += taken;
    }
    StrikeResult {
        answer: Ok(accepted),
        survivors: left,
    }
}

// Runs a list of strikes from the table's fresh survivors, each on the survivors that the last one
// handed back; players[i] and strategies[i] are named by the i-th, and of unequal lists the shorter
// length counts. How many were accepted, beside the survivors; into `answers` 0 or the refusal's
// number for each strike, and into `dominators` its dominator, 0 where refused. Elements past those
// written keep their contents. Or the first of 1 to 7, and 13 where either output is shorter than
// the list, beside P 0, counts 0 and no mark, and nothing is written. Its last `ensures` is demand
// 3, for every table with none of refusals 1 to 7 and every list: a claim about the number that is
// told, the survivors that are handed back and the answers that were written, where a 0 with its
// dominator is an acceptance and any other number that refusal. The table is one value through all
// the strikes: nobody writes it meanwhile.
pub fn strikes(
    counts: &[usize],
    payoffs: &[f64],
    players: &[usize],
    strategies: &[usize],
    answers: &mut [u32],
    dominators: &mut [usize],
) -> StrikeResult
    ensures answer_value { told result.answer ≡ strikes_answer counts.now payoffs.now (calls_of players.now strategies.now) (length answers.old) (length dominators.old) }
    ensures survivors_value { result.survivors ≡ strikes_leave counts.now payoffs.now (calls_of players.now strategies.now) (length answers.old) (length dominators.old) }
    ensures answers_after { answers.new ≡ over (map status (strikes_written counts.now payoffs.now (calls_of players.now strategies.now) (length answers.old) (length dominators.old))) answers.old }
    ensures dominators_after { dominators.new ≡ over (map dominator_of (strikes_written counts.now payoffs.now (calls_of players.now strategies.now) (length answers.old) (length dominators.old))) dominators.old }
    ensures demand3 { let cs = calls_of players.now strategies.now in
        (n : ℕ) → told result.answer ≡ values n
        → Demand3 counts.now payoffs.now cs n (answers_said (length cs) answers.new dominators.new) result.survivors }
{
    let made = survivors::fresh(counts, payoffs);
    match made.answer {
        Err(e) => survivor_calls::refuse(e, made.survivors),
        Ok(()) => {
            let number = players.len().min(strategies.len());
            if answers.len() < number {
                return too_short();
            }
            if dominators.len() < number {
                return too_short();
            }
            strike_each(
                counts,
                payoffs,
                made.survivors,
                players,
                strategies,
                answers,
                dominators,
            )
        }
    }
}
