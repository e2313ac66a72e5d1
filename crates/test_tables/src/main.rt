// The cases of utilities, tables, profiles and solvers: a function for each call of docs/TESTING.md
// that tells more than an answer, and `tell`, which makes each call.
#![tactic(auto)]

use refusal::NormalFormError;
use std::alloc::AllocError;
use std::io;
use table::{MAX_PLAYERS, StrategySpace};
use test_lines::{Arguments, ELEMENTS, ReadError, run_lines};
use test_print::{Tell, tell_all, tell_bits, tell_output};
use utility::Utility;

// ---- utilities

fn tell_utility(x: f64, out: &mut String) -> Result<(), AllocError> {
    match Utility::new(x) {
        Ok(u) => {
            out.push_str(" ok")?;
            tell_bits(u.value(), out)
        }
        Err(e) => e.tell(out),
    }
}

fn tell_order(a: Utility, b: Utility, out: &mut String) -> Result<(), AllocError> {
    out.push_str(" exceeds")?;
    a.exceeds(b).tell(out)?;
    out.push_str(", equals")?;
    a.equals(b).tell(out)?;
    out.push_str(", is exceeded")?;
    b.exceeds(a).tell(out)
}

fn tell_comparison(a: f64, b: f64, out: &mut String) -> Result<(), AllocError> {
    match (Utility::new(a), Utility::new(b)) {
        (Ok(a), Ok(b)) => tell_order(a, b, out),
        (Err(e), _) | (_, Err(e)) => e.tell(out),
    }
}

// ---- tables and profiles

// Whether there is a space, and its fields, or those of the space beside a refusal.
fn tell_space(
    r: Result<StrategySpace, NormalFormError>,
    out: &mut String,
) -> Result<(), AllocError> {
    r.map(|_| ()).tell(out)?;
    let space = r.unwrap_or(StrategySpace::none());
    out.push_str(", players")?;
    space.players.tell(out)?;
    out.push_str(", counts")?;
    tell_all(&space.counts, out)
}

fn tell_part(part: &[f64], out: &mut String) -> Result<(), AllocError> {
    out.push_str(" of")?;
    part.len().tell(out)?;
    out.push_str(":")?;
    tell_all(part, out)
}

fn tell_advance(
    counts: &[usize],
    profile: [usize; MAX_PLAYERS],
    out: &mut String,
) -> Result<(), AllocError> {
    let next = profile_step::advance_profile(counts, profile);
    out.push_str(if next.more { " more," } else { " no more," })?;
    tell_all(&next.profile, out)
}

// ---- calls

fn tell(call: &str, arguments: &mut Arguments<'_>, out: &mut String) -> Result<(), ReadError> {
    match call {
        "utility" => {
            let x = arguments.float()?;
            arguments.end()?;
            tell_utility(x, out)?;
        }
        "is_finite" => {
            let x = arguments.float()?;
            arguments.end()?;
            utility::is_finite(x).tell(out)?;
        }
        "all_finite" => {
            let list = arguments.floats()?;
            arguments.end()?;
            utility::all_finite(&list).tell(out)?;
        }
        "compare" => {
            let a = arguments.float()?;
            let b = arguments.float()?;
            arguments.end()?;
            tell_comparison(a, b, out)?;
        }
        "profile_count" => {
            let counts = arguments.numbers()?;
            arguments.end()?;
            table::profile_count(&counts).tell(out)?;
        }
        "from_counts" => {
            let counts = arguments.numbers()?;
            arguments.end()?;
            tell_space(StrategySpace::from_counts(&counts), out)?;
        }
        "table_profile_count" => {
            let (counts, payoffs) = arguments.table()?;
            arguments.end()?;
            table::table_profile_count(&counts, &payoffs).tell(out)?;
        }
        "payoff_matrix" => {
            let (counts, payoffs) = arguments.table()?;
            arguments.end()?;
            tell_space(table::payoff_matrix(&counts, &payoffs), out)?;
        }
        "offset" => {
            let (counts, payoffs) = arguments.table()?;
            let profile = arguments.numbers()?;
            arguments.end()?;
            table::offset(&counts, &payoffs, &profile).tell(out)?;
        }
        "payoff" => {
            let (counts, payoffs) = arguments.table()?;
            let profile = arguments.numbers()?;
            let player = arguments.number()?;
            arguments.end()?;
            table::payoff(&counts, &payoffs, &profile, player)
                .map(|u| u.value())
                .tell(out)?;
        }
        "profile_payoffs" => {
            let (counts, payoffs) = arguments.table()?;
            let profile = arguments.numbers()?;
            arguments.end()?;
            tell_part(table::profile_payoffs(&counts, &payoffs, &profile), out)?;
        }
        "advance_profile" => {
            let counts = arguments.numbers()?;
            let profile = arguments.eight()?;
            arguments.end()?;
            tell_advance(&counts, profile, out)?;
        }
        "best_responses" => {
            let (counts, payoffs) = arguments.table()?;
            let player = arguments.number()?;
            let opponents = arguments.numbers()?;
            let mut strategies = arguments.numbers()?;
            let mut utilities = arguments.floats()?;
            arguments.end()?;
            best_response::best_responses(
                &counts,
                &payoffs,
                player,
                &opponents,
                &mut strategies,
                &mut utilities,
            )
            .tell(out)?;
            tell_output(&strategies, out)?;
            tell_output(&utilities, out)?;
        }
        "strictly_dominated_strategies" => {
            let (counts, payoffs) = arguments.table()?;
            let player = arguments.number()?;
            let mut strategies = arguments.numbers()?;
            let mut dominators = arguments.numbers()?;
            arguments.end()?;
            strict_dominance::strictly_dominated_strategies(
                &counts,
                &payoffs,
                player,
                &mut strategies,
                &mut dominators,
            ).tell(out)?;
            tell_output(&strategies, out)?;
            tell_output(&dominators, out)?;
        }
        "is_equilibrium" => {
            let (counts, payoffs) = arguments.table()?;
            let profile = arguments.numbers()?;
            arguments.end()?;
            pure_nash::is_equilibrium(&counts, &payoffs, &profile).tell(out)?;
        }
        "equilibria" => {
            let (counts, payoffs) = arguments.table()?;
            let mut choices = arguments.numbers()?;
            let mut utilities = arguments.floats()?;
            arguments.end()?;
            pure_nash::equilibria(&counts, &payoffs, &mut choices, &mut utilities).tell(out)?;
            tell_output(&choices, out)?;
            tell_output(&utilities, out)?;
        }
        _ => return Err(ReadError::Unreadable),
    }
    Ok(())
}

fn main(rt: HostRuntime) -> io::Result<()> {
    run_lines(&rt, ELEMENTS, tell)
}
