// Survivors, and the answers beside them, as the test programs print them; and survivors as an
// argument of a line.
#![tactic(auto)]

ghost use Rattle.std.specs.Prelude.{◌≡◌, OnOk};
ghost use Rattle.std.specs.String.{string_bytes};
ghost use Rattle.test_print.specs.Told.{IsAdded};

use std::alloc::AllocError;
use survivor_calls::StrikeResult;
use survivors::{FreshResult, Survivors};
use table::{MAX_MARKS, MAX_PLAYERS, MAX_STRATEGIES};
use test_lines::{Arguments, ReadError};
use test_print::{Tell, tell_all};

// Each player that has a mark, with its marked strategies.
fn tell_marks(marks: &[bool; MAX_MARKS], out: &mut String) -> Result<(), AllocError>
    ensures added { OnOk result (IsAdded (string_bytes out.old) (string_bytes out.new)) }
{
    for (player, strategies) in marks.chunks_exact(MAX_STRATEGIES).enumerate() {
        if strategies.contains(&true) {
            write!(out, ", {player}'s")?;
            for (strategy, is_marked) in strategies.iter().enumerate() {
                if *is_marked {
                    strategy.tell(out)?;
                }
            }
        }
    }
    Ok(())
}

// Survivors: P, the eight counts, and the marks.
pub fn tell_record(left: Survivors, out: &mut String) -> Result<(), AllocError>
    ensures added { OnOk result (IsAdded (string_bytes out.old) (string_bytes out.new)) }
{
    out.push_str(" P")?;
    left.players.tell(out)?;
    out.push_str(", counts")?;
    tell_all(&left.counts, out)?;
    tell_marks(&left.marks, out)
}

// The same after what a call told.
pub fn tell_survivors(left: Survivors, out: &mut String) -> Result<(), AllocError>
    ensures added { OnOk result (IsAdded (string_bytes out.old) (string_bytes out.new)) }
{
    out.push_str(",")?;
    tell_record(left, out)
}

// Whether the table was accepted, and its fresh survivors.
pub fn tell_fresh(made: FreshResult, out: &mut String) -> Result<(), AllocError>
    ensures added { OnOk result (IsAdded (string_bytes out.old) (string_bytes out.new)) }
{
    made.answer.tell(out)?;
    tell_survivors(made.survivors, out)
}

// The answer to a strike, and the survivors that it hands back.
pub fn tell_strike(struck: StrikeResult, out: &mut String) -> Result<(), AllocError>
    ensures added { OnOk result (IsAdded (string_bytes out.old) (string_bytes out.new)) }
{
    struck.answer.tell(out)?;
    tell_survivors(struck.survivors, out)
}

// A number for each place's mark, 0 or 1.
fn read_marks(arguments: &mut Arguments<'_>) -> Result<Vec<usize>, ReadError> {
    let list = arguments.numbers()?;
    if list.len() != MAX_MARKS || list.iter().any(|n| 1 < *n) {
        return Err(ReadError::Unreadable);
    }
    Ok(list)
}

// The survivors with P, these counts and these marks, each of which is a number that is not 0.
pub fn survivors_of(players: usize, counts: [usize; MAX_PLAYERS], list: &[usize]) -> Survivors
    ensures { (result.players ≡ players) × (result.counts ≡ counts) }
{
    let mut marks = [false; MAX_MARKS];
    for (mark, n) in marks.iter_mut().zip(list.iter()) {
        *mark = *n != 0;
    }
    Survivors {
        players,
        counts,
        marks,
    }
}

// Survivors: P, the eight counts and the marks, whatever they are.
pub fn read_survivors(arguments: &mut Arguments<'_>) -> Result<Survivors, ReadError> {
    let players = arguments.number()?;
    let counts = arguments.eight()?;
    let marks = read_marks(arguments)?;
    Ok(survivors_of(players, counts, &marks))
}
