// The cases of the candidate checks: a call of docs/TESTING.md in each arm of `tell`.
#![tactic(auto)]

use candidates::Claim;
use std::io;
use test_lines::{Arguments, ELEMENTS, ReadError, run_lines};
use test_print::Tell;

fn tell(call: &str, arguments: &mut Arguments<'_>, out: &mut String) -> Result<(), ReadError> {
    let m = arguments.number()?;
    let n = arguments.number()?;
    match call {
        "verify_correlated_equilibrium_incentives" => {
            let u1 = arguments.floats()?;
            let u2 = arguments.floats()?;
            let weights = arguments.floats()?;
            arguments.end()?;
            candidates::verify_correlated_equilibrium_incentives(m, n, &u1, &u2, &weights).tell(
                out,
            )?;
        }
        "verdict" => {
            let u1 = arguments.floats()?;
            let u2 = arguments.floats()?;
            let weights = arguments.floats()?;
            let tolerance = arguments.float()?;
            arguments.end()?;
            candidates::verdict(m, n, &u1, &u2, &weights, tolerance).tell(out)?;
        }
        "verify_minimax_residuals" => {
            let payoffs = arguments.floats()?;
            let p1 = arguments.floats()?;
            let p2 = arguments.floats()?;
            let value = arguments.float()?;
            let tolerance = arguments.float()?;
            arguments.end()?;
            let claim = Claim { value, tolerance };
            candidates::verify_minimax_residuals(m, n, &payoffs, &p1, &p2, claim).tell(out)?;
        }
        _ => return Err(ReadError::Unreadable),
    }
    Ok(())
}

fn main(rt: HostRuntime) -> io::Result<()> {
    run_lines(&rt, ELEMENTS, tell)
}
