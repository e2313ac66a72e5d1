// The cases of survivors and strikes: a call of docs/TESTING.md in each arm of `tell`, which takes
// the survivors that are kept and leaves those that are kept for the next line.
#![tactic(auto)]

use std::io;
use survivors::Survivors;
use test_lines::{Arguments, ELEMENTS, ReadError, run_lines};
use test_print::{Tell, tell_output};
use test_survivors::{read_survivors, tell_fresh, tell_record, tell_strike, tell_survivors};

fn tell(
    left: &mut Survivors,
    call: &str,
    arguments: &mut Arguments<'_>,
    out: &mut String,
) -> Result<(), ReadError> {
    match call {
        "survivors" => {
            let given = read_survivors(arguments)?;
            arguments.end()?;
            *left = given;
            tell_record(*left, out)?;
        }
        "is_foreign" => {
            let counts = arguments.numbers()?;
            arguments.end()?;
            survivors::is_foreign(&counts, *left).tell(out)?;
        }
        "fresh" => {
            let (counts, payoffs) = arguments.table()?;
            arguments.end()?;
            let made = survivors::fresh(&counts, &payoffs);
            *left = made.survivors;
            tell_fresh(made, out)?;
        }
        "strike" => {
            let (counts, payoffs) = arguments.table()?;
            let player = arguments.number()?;
            let strategy = arguments.number()?;
            arguments.end()?;
            let struck = survivor_calls::strike(&counts, &payoffs, *left, player, strategy);
            *left = struck.survivors;
            tell_strike(struck, out)?;
        }
        "surviving_equilibria" => {
            let (counts, payoffs) = arguments.table()?;
            let mut choices = arguments.numbers()?;
            let mut utilities = arguments.floats()?;
            arguments.end()?;
            survivor_calls::surviving_equilibria(
                &counts,
                &payoffs,
                *left,
                &mut choices,
                &mut utilities,
            ).tell(out)?;
            tell_output(&choices, out)?;
            tell_output(&utilities, out)?;
        }
        "strikes" => {
            let (counts, payoffs) = arguments.table()?;
            let players = arguments.numbers()?;
            let strategies = arguments.numbers()?;
            let mut answers = arguments.words()?;
            let mut dominators = arguments.numbers()?;
            arguments.end()?;
            let struck = strike_lists::strikes(
                &counts,
                &payoffs,
                &players,
                &strategies,
                &mut answers,
                &mut dominators,
            );
            *left = struck.survivors;
            struck.answer.tell(out)?;
            tell_output(&answers, out)?;
            tell_output(&dominators, out)?;
            tell_survivors(*left, out)?;
        }
        _ => return Err(ReadError::Unreadable),
    }
    Ok(())
}

fn main(rt: HostRuntime) -> io::Result<()> {
    let mut left = survivors::none();
    run_lines(
        &rt,
        ELEMENTS,
        |call, arguments, out| tell(&mut left, call, arguments, out),
    )
}
