// The cases of marks of best responses: a function to each call of docs/TESTING.md. The contract of
// `mark_and_list` is change N3 of the scope as a statement about its own calls, made one after the
// other.
#![tactic(auto)]

ghost use Rattle.std.specs.Prelude.{◌≡◌, ℕ, length};
ghost use Rattle.refusal.specs.Told.{told, values};
ghost use Rattle.written_lists.specs.Outputs.{over};
ghost use Rattle.equilibria.specs.Answers.{equilibria_answer, equilibria_choices, equilibria_utilities};
ghost use Rattle.response_marks.specs.Answers.{marks_answer, marks_written, from_marks_answer, from_marks_choices, from_marks_utilities};

use refusal::{Listed, NormalFormError};
use std::alloc::{AllocError, Global};
use std::io;
use test_lines::{Arguments, ELEMENTS, ReadError, run_lines};
use test_print::{Tell, tell_output};

// ---- one call after the other

// The answers of the sweep, of the listing by its marks, and of the plain listing.
#[derive(Clone, Copy)]
struct Marked {
    swept: Result<usize, NormalFormError>,
    listed: Result<Listed, NormalFormError>,
    whole: Result<Listed, NormalFormError>,
}

// `best_response_marks` into the bytes; `marked_profiles` on the bytes as they then stand, into the
// first two outputs; `equilibria`, into the other two. Each answers and writes what it has to, for
// every table, buffer and outputs; and where the sweep is accepted the listing from marks tells and
// writes what `equilibria` does with outputs of the same lengths.
fn mark_and_list(
    counts: &[usize],
    payoffs: &[f64],
    marks: &mut [u8],
    marked_choices: &mut [usize],
    marked_utilities: &mut [f64],
    choices: &mut [usize],
    utilities: &mut [f64],
) -> Marked
    ensures swept_value { told result.swept ≡ marks_answer counts.now payoffs.now (length marks.old) }
    ensures marks_after { marks.new ≡ over (marks_written counts.now payoffs.now (length marks.old)) marks.old }
    ensures listed_value { told result.listed ≡ from_marks_answer counts.now payoffs.now marks.new (length marked_choices.old) (length marked_utilities.old) }
    ensures marked_choices_after { marked_choices.new ≡ over (from_marks_choices counts.now payoffs.now marks.new (length marked_choices.old) (length marked_utilities.old)) marked_choices.old }
    ensures marked_utilities_after { marked_utilities.new ≡ over (from_marks_utilities counts.now payoffs.now marks.new (length marked_choices.old) (length marked_utilities.old)) marked_utilities.old }
    ensures whole_value { told result.whole ≡ equilibria_answer counts.now payoffs.now (length choices.old) (length utilities.old) }
    ensures choices_after { choices.new ≡ over (equilibria_choices counts.now payoffs.now (length choices.old) (length utilities.old)) choices.old }
    ensures utilities_after { utilities.new ≡ over (equilibria_utilities counts.now payoffs.now (length choices.old) (length utilities.old)) utilities.old }
    ensures by_index { (n : ℕ) → told result.swept ≡ values n
        → (told result.listed ≡ equilibria_answer counts.now payoffs.now (length marked_choices.old) (length marked_utilities.old))
        × (marked_choices.new ≡ over (equilibria_choices counts.now payoffs.now (length marked_choices.old) (length marked_utilities.old)) marked_choices.old)
        × (marked_utilities.new ≡ over (equilibria_utilities counts.now payoffs.now (length marked_choices.old) (length marked_utilities.old)) marked_utilities.old) }
{
    let swept = mark_responses::best_response_marks(counts, payoffs, marks);
    let listed = pure_nash::marked_profiles(
        counts,
        payoffs,
        marks,
        marked_choices,
        marked_utilities,
    );
    let whole = pure_nash::equilibria(counts, payoffs, choices, utilities);
    Marked {
        swept,
        listed,
        whole,
    }
}

// ---- calls

// The numbers as bytes, each modulo 256.
fn low_bytes(list: &[usize], alloc: Global) -> Result<Vec<u8>, AllocError> {
    list.iter().map(|n| (*n % 0x100) as u8).collect(alloc)
}

// What a listing told, and both outputs.
fn tell_listing(
    listed: Result<Listed, NormalFormError>,
    choices: &[usize],
    utilities: &[f64],
    out: &mut String,
) -> Result<(), AllocError> {
    listed.tell(out)?;
    tell_output(choices, out)?;
    tell_output(utilities, out)
}

fn tell(call: &str, arguments: &mut Arguments<'_>, out: &mut String) -> Result<(), ReadError> {
    let (counts, payoffs) = arguments.table()?;
    let mut marks = low_bytes(&arguments.numbers()?, arguments.alloc)?;
    match call {
        "best_response_marks" => {
            arguments.end()?;
            mark_responses::best_response_marks(&counts, &payoffs, &mut marks).tell(out)?;
            tell_output(&marks, out)?;
        }
        "marked_profiles" => {
            let mut choices = arguments.numbers()?;
            let mut utilities = arguments.floats()?;
            arguments.end()?;
            let listed = pure_nash::marked_profiles(
                &counts,
                &payoffs,
                &marks,
                &mut choices,
                &mut utilities,
            );
            tell_listing(listed, &choices, &utilities, out)?;
        }
        "mark_and_list" => {
            let mut marked_choices = arguments.numbers()?;
            let mut marked_utilities = arguments.floats()?;
            let mut choices = arguments.numbers()?;
            let mut utilities = arguments.floats()?;
            arguments.end()?;
            let told = mark_and_list(
                &counts,
                &payoffs,
                &mut marks,
                &mut marked_choices,
                &mut marked_utilities,
                &mut choices,
                &mut utilities,
            );
            told.swept.tell(out)?;
            tell_listing(told.listed, &marked_choices, &marked_utilities, out)?;
            tell_listing(told.whole, &choices, &utilities, out)?;
        }
        _ => return Err(ReadError::Unreadable),
    }
    Ok(())
}

fn main(rt: HostRuntime) -> io::Result<()> {
    run_lines(&rt, ELEMENTS, tell)
}
