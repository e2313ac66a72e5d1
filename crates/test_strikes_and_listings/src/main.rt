// Demand 3 as statements about document 01's own calls, made one after the other. `strike_and_list`
// makes fresh survivors, strikes each call of a list on the survivors that the last one handed
// back, lists the equilibria over these, and then those of the whole table; its contract says, for
// every table, list and outputs, that both listings told the same total, and wrote the same where
// their outputs have equal lengths or hold all.
// `strike_twice` strikes once more what it struck. Both are calls of the lines of standard input,
// which have document 01's games and others, in the form of docs/TESTING.md:
//     strike_and_list, COUNTS, PAYOFFS, players, strategies, and four outputs: how many strikes were
//     accepted, and each listing's answer, both numbers or the refusal, and its choices and payoffs,
//     as they stand in its outputs;
//     strike_twice, COUNTS, PAYOFFS, player, strategy: both answers, from fresh survivors.
#![tactic(auto)]

ghost use Rattle.std.specs.Prelude.{◌≡◌, cond, ℕ, ◌+◌, length};
ghost use Rattle.std.proofs.Math.Option.{none};
ghost use Rattle.game.specs.Finite.{sum};
ghost use Rattle.game.specs.Game.{strategy as named};
ghost use Rattle.refusal.specs.Told.{told, told_of, values, refused, tells, unless_refused};
ghost use Rattle.payoff_tables.specs.Checks.{table_refusal};
ghost use Rattle.written_lists.specs.Outputs.{over};
ghost use Rattle.equilibria.specs.Answers.{equilibria_answer, equilibria_choices, equilibria_utilities};
ghost use Rattle.survivors.specs.Survivors.{fresh_of, no_survivors, mark_count};
ghost use Rattle.strikes.specs.Answers.{strike_answer, strike_leaves, surviving_answer, surviving_choices, surviving_utilities};
ghost use Rattle.strike_chains.specs.Answers.{calls_of, chain_from, accepted_of};
ghost use Rattle.strike_chains.specs.Demand3.{EqualOrHoldAll};

use refusal::{Listed, NormalFormError};
use std::io;
use survivors::Survivors;
use test_lines::{Arguments, ReadError, run_all_lines};
use test_print::{Tell, tell_all};

// The most elements of a list of a line.
const ROOM: usize = 24;

// How many strikes were accepted, and the survivors that the last one handed back.
#[derive(Clone, Copy)]
struct Struck {
    accepted: usize,
    survivors: Survivors,
}

// How many strikes were accepted, the survivors, and the answers of the two listings: over the
// survivors, and of the whole table.
#[derive(Clone, Copy)]
struct Listings {
    accepted: usize,
    survivors: Survivors,
    surviving: Result<Listed, NormalFormError>,
    whole: Result<Listed, NormalFormError>,
}

// The answers to a strike and to the same one again.
#[derive(Clone, Copy)]
struct Twice {
    first: Result<usize, NormalFormError>,
    second: Result<usize, NormalFormError>,
}

// 1 where a strike was accepted, and else 0.
fn one_if_accepted(answer: Result<usize, NormalFormError>) -> usize
    ensures { result ≡ cond (tells (told answer)) 1 0 }
{
    match answer {
        Ok(_) => 1,
        Err(_) => 0,
    }
}

// A call of `strike` for each that two lists name, each on the survivors that the last one handed
// back.
fn strike_each(
    counts: &[usize],
    payoffs: &[f64],
    survivors: Survivors,
    players: &[usize],
    strategies: &[usize],
) -> Struck
    ensures accepted_value { result.accepted ≡ accepted_of (chain_from counts.now payoffs.now survivors (calls_of players.now strategies.now)).answers }
    ensures survivors_value { result.survivors ≡ (chain_from counts.now payoffs.now survivors (calls_of players.now strategies.now)).survivors }
{
    let number = players.len().min(strategies.len());
    let mut left = survivors;
    let mut accepted: usize = 0;
    for i in 0..number {
        let struck = survivor_calls::strike(counts, payoffs, left, players[i], strategies[i]);
        left = struck.survivors;
        accepted += one_if_accepted(struck.answer);
    }
    Struck {
        accepted,
        survivors: left,
    }
}

// Document 01's calls one after the other: `fresh`; `strike` for each that two lists name, each on
// the survivors that the last one handed back; `surviving_equilibria` over these, into the first
// two outputs; `equilibria`, into the other two. How many strikes were accepted and the survivors
// are those of the list's calls, and each listing answers and writes what it has to. Both listings
// tell the same total. Where the outputs have equal lengths or hold all, both tell and write the
// same: what the whole table's does. Accepted strikes and marks make up all strategies.
fn strike_and_list(
    counts: &[usize],
    payoffs: &[f64],
    players: &[usize],
    strategies: &[usize],
    left_choices: &mut [usize],
    left_utilities: &mut [f64],
    choices: &mut [usize],
    utilities: &mut [f64],
) -> Listings
    ensures fact { let x = chain_from counts.now payoffs.now
        (unless_refused (table_refusal counts.now payoffs.now) (fresh_of counts.now) no_survivors)
        (calls_of players.now strategies.now) in
        (result.accepted ≡ accepted_of x.answers) × (result.survivors ≡ x.survivors) }
    ensures surviving_value { told result.surviving ≡ surviving_answer counts.now payoffs.now result.survivors (length left_choices.old) (length left_utilities.old) }
    ensures left_choices_after { left_choices.new ≡ over (surviving_choices counts.now payoffs.now result.survivors (length left_choices.old) (length left_utilities.old)) left_choices.old }
    ensures left_utilities_after { left_utilities.new ≡ over (surviving_utilities counts.now payoffs.now result.survivors (length left_choices.old) (length left_utilities.old)) left_utilities.old }
    ensures whole_value { told result.whole ≡ equilibria_answer counts.now payoffs.now (length choices.old) (length utilities.old) }
    ensures choices_after { choices.new ≡ over (equilibria_choices counts.now payoffs.now (length choices.old) (length utilities.old)) choices.old }
    ensures utilities_after { utilities.new ≡ over (equilibria_utilities counts.now payoffs.now (length choices.old) (length utilities.old)) utilities.old }
    ensures surviving_value_2 { told_of (λ l. l.total) (told result.surviving) ≡ told_of (λ l. l.total) (told result.whole) }
    ensures surviving_value_3 { EqualOrHoldAll counts.now payoffs.now (length left_choices.old) (length left_utilities.old) (length choices.old) (length utilities.old)
        → (told result.surviving ≡ told result.whole)
        × (left_choices.new ≡ over (equilibria_choices counts.now payoffs.now (length choices.old) (length utilities.old)) left_choices.old)
        × (left_utilities.new ≡ over (equilibria_utilities counts.now payoffs.now (length choices.old) (length utilities.old)) left_utilities.old) }
    ensures survivors_value { table_refusal counts.now payoffs.now ≡ none → result.accepted + mark_count result.survivors ≡ sum counts.now }
{
    let all = survivors::fresh(counts, payoffs).survivors;
    let struck = strike_each(counts, payoffs, all, players, strategies);
    let accepted = struck.accepted;
    let left = struck.survivors;
    let surviving = survivor_calls::surviving_equilibria(
        counts,
        payoffs,
        left,
        left_choices,
        left_utilities,
    );
    let whole = pure_nash::equilibria(counts, payoffs, choices, utilities);
    Listings {
        accepted,
        survivors: left,
        surviving,
        whole,
    }
}

// A strike, and the same again on the survivors that it handed back: where the first is accepted
// the second gives 14.
fn strike_twice(
    counts: &[usize],
    payoffs: &[f64],
    survivors: Survivors,
    player: usize,
    strategy: usize,
) -> Twice
    ensures first_value { told result.first ≡ strike_answer counts.now payoffs.now survivors (named player strategy) }
    ensures second_value { told result.second ≡ strike_answer counts.now payoffs.now (strike_leaves counts.now payoffs.now survivors (named player strategy)) (named player strategy) }
    ensures by_index { (t : ℕ) → told result.first ≡ values t → told result.second ≡ refused 14 }
{
    let struck = survivor_calls::strike(counts, payoffs, survivors, player, strategy);
    let left = struck.survivors;
    let repeated = survivor_calls::strike(counts, payoffs, left, player, strategy);
    Twice {
        first: struck.answer,
        second: repeated.answer,
    }
}

fn tell(call: &str, arguments: &mut Arguments<'_>, out: &mut String) -> Result<(), ReadError> {
    let (counts, payoffs) = arguments.table()?;
    match call {
        "strike_and_list" => {
            let players = arguments.numbers()?;
            let strategies = arguments.numbers()?;
            let mut left_choices = arguments.numbers()?;
            let mut left_utilities = arguments.floats()?;
            let mut choices = arguments.numbers()?;
            let mut utilities = arguments.floats()?;
            arguments.end()?;
            let listed = strike_and_list(
                &counts,
                &payoffs,
                &players,
                &strategies,
                &mut left_choices,
                &mut left_utilities,
                &mut choices,
                &mut utilities,
            );
            listed.accepted.tell(out)?;
            listed.surviving.tell(out)?;
            tell_all(&left_choices, out)?;
            tell_all(&left_utilities, out)?;
            listed.whole.tell(out)?;
            tell_all(&choices, out)?;
            tell_all(&utilities, out)?;
        }
        // from fresh survivors
        "strike_twice" => {
            let player = arguments.number()?;
            let strategy = arguments.number()?;
            arguments.end()?;
            let all = survivors::fresh(&counts, &payoffs).survivors;
            let told = strike_twice(&counts, &payoffs, all, player, strategy);
            told.first.tell(out)?;
            told.second.tell(out)?;
        }
        _ => return Err(ReadError::Unreadable),
    }
    Ok(())
}

fn main(rt: HostRuntime) -> io::Result<()> {
    run_all_lines(&rt, ROOM, tell)
}
