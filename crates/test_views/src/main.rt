// The cases of lists of records and of views: a call of docs/TESTING.md in each arm of `tell`, which
// takes the survivors that are kept and leaves those that are kept for the next line.
#![tactic(auto)]

use refusal::NormalFormError;
use response_list::{BestResponse, ResponseList, no_records};
use std::alloc::AllocError;
use std::io;
use survivors::Survivors;
use table::{MAX_PLAYERS, MAX_STRATEGIES, StrategySpace};
use test_lines::{Arguments, ELEMENTS, ReadError, run_lines};
use test_print::{Tell, tell_all, tell_output};
use test_survivors::{read_survivors, tell_fresh, tell_record, tell_strike};
use utility::Utility;

// ---- records

// The records of 64 strategies and 64 finite utilities.
fn read_records(
    arguments: &mut Arguments<'_>,
) -> Result<[BestResponse; MAX_STRATEGIES], ReadError> {
    let strategies = arguments.numbers()?;
    let utilities = arguments.floats()?;
    if strategies.len() != MAX_STRATEGIES || utilities.len() != MAX_STRATEGIES {
        return Err(ReadError::Unreadable);
    }
    let mut records = no_records();
    for (record, (strategy, x)) in records
        .iter_mut()
        .zip(strategies.iter().zip(utilities.iter()))
    {
        let utility = Utility::new(*x).ok().ok_or(ReadError::Unreadable)?;
        *record = BestResponse {
            strategy: *strategy,
            utility,
        };
    }
    Ok(records)
}

// The answer, and the strategies and the utilities of all records.
fn tell_list(list: ResponseList, out: &mut String) -> Result<(), AllocError> {
    list.answer.tell(out)?;
    out.push_str(",")?;
    for record in &list.records {
        record.strategy.tell(out)?;
    }
    out.push_str(",")?;
    for record in &list.records {
        record.utility.value().tell(out)?;
    }
    Ok(())
}

// ---- views

// Whether there is a view, and its space, or the space beside a refusal.
fn tell_space(
    made: Result<StrategySpace, NormalFormError>,
    out: &mut String,
) -> Result<(), AllocError> {
    made.map(|_| ()).tell(out)?;
    let space = made.unwrap_or(StrategySpace::none());
    out.push_str(", P")?;
    space.players.tell(out)?;
    out.push_str(", counts")?;
    tell_all(&space.counts, out)
}

// A view's fields: its payoffs, P and the counts.
#[derive(Drop)]
struct Fields {
    payoffs: Vec<f64>,
    players: usize,
    counts: [usize; MAX_PLAYERS],
}

fn read_fields(arguments: &mut Arguments<'_>) -> Result<Fields, ReadError> {
    Ok(Fields {
        payoffs: arguments.floats()?,
        players: arguments.number()?,
        counts: arguments.eight()?,
    })
}

fn tell(
    left: &mut Survivors,
    call: &str,
    arguments: &mut Arguments<'_>,
    out: &mut String,
) -> Result<(), ReadError> {
    match call {
        "survivors" => {
            let given = read_survivors(arguments)?;
            arguments.end()?;
            *left = given;
            tell_record(*left, out)?;
        }
        "listed_best_responses" => {
            let (counts, payoffs) = arguments.table()?;
            let player = arguments.number()?;
            let opponents = arguments.numbers()?;
            let records = read_records(arguments)?;
            arguments.end()?;
            let list = response_list::listed_best_responses(
                &counts, &payoffs, player, &opponents, records,
            );
            tell_list(list, out)?;
        }
        "matrix_new" => {
            let (counts, payoffs) = arguments.table()?;
            arguments.end()?;
            tell_space(plain_views::matrix_new(&counts, &payoffs), out)?;
        }
        "matrix_best_responses" => {
            let view = read_fields(arguments)?;
            let player = arguments.number()?;
            let opponents = arguments.numbers()?;
            let records = read_records(arguments)?;
            arguments.end()?;
            let list = plain_views::matrix_best_responses(
                &view.payoffs,
                view.players,
                view.counts,
                player,
                &opponents,
                records,
            );
            tell_list(list, out)?;
        }
        "matrix_is_equilibrium" => {
            let view = read_fields(arguments)?;
            let profile = arguments.numbers()?;
            arguments.end()?;
            plain_views::matrix_is_equilibrium(
                &view.payoffs,
                view.players,
                view.counts,
                &profile,
            ).tell(out)?;
        }
        "matrix_equilibria" => {
            let view = read_fields(arguments)?;
            let mut choices = arguments.numbers()?;
            let mut utilities = arguments.floats()?;
            arguments.end()?;
            plain_views::matrix_equilibria(
                &view.payoffs,
                view.players,
                view.counts,
                &mut choices,
                &mut utilities,
            )
            .tell(out)?;
            tell_output(&choices, out)?;
            tell_output(&utilities, out)?;
        }
        "matrix_strictly_dominated_strategies" => {
            let view = read_fields(arguments)?;
            let player = arguments.number()?;
            let mut strategies = arguments.numbers()?;
            let mut dominators = arguments.numbers()?;
            arguments.end()?;
            plain_views::matrix_strictly_dominated_strategies(
                &view.payoffs,
                view.players,
                view.counts,
                player,
                &mut strategies,
                &mut dominators,
            )
            .tell(out)?;
            tell_output(&strategies, out)?;
            tell_output(&dominators, out)?;
        }
        "matrix_fresh" => {
            let view = read_fields(arguments)?;
            arguments.end()?;
            let made = plain_views::matrix_fresh(&view.payoffs, view.players, view.counts);
            *left = made.survivors;
            tell_fresh(made, out)?;
        }
        "matrix_strike" => {
            let view = read_fields(arguments)?;
            let player = arguments.number()?;
            let strategy = arguments.number()?;
            arguments.end()?;
            let struck = plain_views::matrix_strike(
                &view.payoffs,
                view.players,
                view.counts,
                *left,
                player,
                strategy,
            );
            *left = struck.survivors;
            tell_strike(struck, out)?;
        }
        _ => return Err(ReadError::Unreadable),
    }
    Ok(())
}

fn main(rt: HostRuntime) -> io::Result<()> {
    let mut left = survivors::none();
    run_lines(
        &rt,
        ELEMENTS,
        |call, arguments, out| tell(&mut left, call, arguments, out),
    )
}
