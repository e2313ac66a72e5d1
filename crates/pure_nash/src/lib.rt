// Equilibria in pure strategies: the profiles in which no player's change of only its own choice
// gives that player a greater payoff. All is over marks of strategies, with profiles of marked
// choices and changes to marked strategies; a table is the case where every strategy is marked.
// `mark_responses` marks every cell in which the choice is a best response, and `profile_listing`
// writes down the profiles that have no 0 among their marks.
#![tactic(auto)]

ghost use Rattle.std.specs.Prelude.{◌≡◌, [], ℕ, ◌<◌, ◌≤◌, length, get_or};
ghost use Rattle.game.specs.Finite.{all, below, product};
ghost use Rattle.game.specs.Game.{profiles};
ghost use Rattle.game.specs.Solution.{equilibria};
ghost use Rattle.refusal.specs.Told.{told};
ghost use Rattle.written_lists.specs.Outputs.{over};
ghost use Rattle.payoff_tables.specs.Limits.{max_cells, max_marks};
ghost use Rattle.payoff_tables.specs.Table.{stride as stride_of, table_game};
ghost use Rattle.payoff_tables.specs.Meaning.{Table};
ghost use Rattle.marks.specs.Marks.{marked};
ghost use Rattle.equilibria.specs.Answers.{Wrote, is_equilibrium_answer, equilibria_answer, equilibria_choices, equilibria_utilities};
ghost use Rattle.response_marks.specs.Marks.{settled};
ghost use Rattle.mark_responses.specs.Sweep.{Ready};
ghost use Rattle.pure_nash.specs.Sizes.{array_bytes};
ghost use Rattle.response_marks.specs.Answers.{from_marks_answer, from_marks_choices, from_marks_utilities};

use refusal::{Listed, NormalFormError};
use table::{MAX_CELLS, MAX_MARKS, MAX_STRATEGIES};

// ---- all equilibria among marks, by how many cells the table has

// A table of at most so many cells is marked in an array of as many bytes, and any other in one of
// the most: so a small table clears and holds on the stack hardly more than it needs.
pub const SMALL_CELLS: usize = 64;

pub const MIDDLE_CELLS: usize = 2048;

// How many equilibria there are among the marks of strategies, and how many of them are written:
// the first that both outputs hold whole, in profile order, P choices of each into `choices`, and P
// payoffs of each, bits kept, into `utilities`. Elements past those written keep their contents.
// The marks of cells go into `marks`. The caller proves that the table has none of refusals 1 to 7
// and `profiles` profiles, that there are as many marks of strategies as there may be, a byte for
// each cell, and that the bytes of choices that are not marked are 0.
fn list_swept(
    counts: &[usize],
    payoffs: &[f64],
    survivors: &[bool],
    profiles: usize,
    marks: &mut [u8],
    choices: &mut [usize],
    utilities: &mut [f64],
) -> Listed
    requires table { Table counts.now payoffs.now }
    requires survivors_len { length survivors.now ≡ max_marks }
    requires profiles_value { profiles ≡ product counts.now }
    requires payoffs_in_bounds { length payoffs.now ≤ length marks.old }
    requires by_index { (p : ℕ) → p < length counts.now → Ready counts.now survivors.now p marks.old }
    ensures { Wrote counts.now payoffs.now (equilibria (table_game counts.now payoffs.now) (marked survivors.now)) choices.old choices.new utilities.old utilities.new result }
{
    mark_responses::mark_all(counts, payoffs, survivors, profiles, marks);
    profile_listing::list_marked(counts, payoffs, marks, profiles, choices, utilities)
}

// The same with `BYTES` bytes of its own, for a table of at most so many cells, and of more than the
// next smaller size, both of which the caller proves. It is not inlined, so that each size has its
// bytes in a frame of its own.
#[inline(never)]
fn list_in<const BYTES: usize>(
    counts: &[usize],
    payoffs: &[f64],
    survivors: &[bool],
    profiles: usize,
    choices: &mut [usize],
    utilities: &mut [f64],
) -> Listed
    requires table { Table counts.now payoffs.now }
    requires survivors_len { length survivors.now ≡ max_marks }
    requires profiles_value { profiles ≡ product counts.now }
    requires payoffs_in_bounds { (length payoffs.now ≤ BYTES) × (BYTES ≤ max_cells) }
    requires bytes { BYTES ≡ array_bytes (length payoffs.now) }
    ensures { Wrote counts.now payoffs.now (equilibria (table_game counts.now payoffs.now) (marked survivors.now)) choices.old choices.new utilities.old utilities.new result }
{
    let mut marks = [0u8; BYTES];
    list_swept(
        counts, payoffs, survivors, profiles, &mut marks, choices, utilities,
    )
}

// The same for any table. The caller proves the rest.
pub fn marked_equilibria(
    counts: &[usize],
    payoffs: &[f64],
    survivors: &[bool],
    profiles: usize,
    choices: &mut [usize],
    utilities: &mut [f64],
) -> Listed
    requires table { Table counts.now payoffs.now }
    requires survivors_len { length survivors.now ≡ max_marks }
    requires profiles_value { profiles ≡ product counts.now }
    ensures { Wrote counts.now payoffs.now (equilibria (table_game counts.now payoffs.now) (marked survivors.now)) choices.old choices.new utilities.old utilities.new result }
{
    if payoffs.len() <= SMALL_CELLS {
        list_in::<SMALL_CELLS>(counts, payoffs, survivors, profiles, choices, utilities)
    } else if payoffs.len() <= MIDDLE_CELLS {
        list_in::<MIDDLE_CELLS>(counts, payoffs, survivors, profiles, choices, utilities)
    } else {
        list_in::<MAX_CELLS>(counts, payoffs, survivors, profiles, choices, utilities)
    }
}

// ---- one profile

// Whether the player's choice in the profile with offset k is a best response.
fn is_best(
    counts: &[usize],
    payoffs: &[f64],
    survivors: &[bool],
    player: usize,
    stride: usize,
    k: usize,
) -> bool
    requires table { Table counts.now payoffs.now }
    requires survivors_len { length survivors.now ≡ max_marks }
    requires player_in_bounds { (player < length counts.now) × (k < product counts.now) }
    requires stride_value { stride ≡ stride_of counts.now player }
    ensures { result ≡ settled (table_game counts.now payoffs.now) (marked survivors.now) (get_or (profiles counts.now) k []) player }
{
    let players = counts.len();
    let count = counts[player];
    let choice = k / stride % count;
    let place = player * MAX_STRATEGIES;
    if !survivors[place + choice] {
        return false;
    }
    let start = (k - choice * stride) * players + player;
    let step = stride * players;
    let own = k * players + player;
    strategy_row::unexceeded(payoffs, survivors, place, start, step, count, own)
}

// Whether every player's is.
fn all_best(counts: &[usize], payoffs: &[f64], survivors: &[bool], k: usize) -> bool
    requires table { Table counts.now payoffs.now }
    requires survivors_len { length survivors.now ≡ max_marks }
    requires k_bound { k < product counts.now }
    ensures { result ≡ all (settled (table_game counts.now payoffs.now) (marked survivors.now) (get_or (profiles counts.now) k [])) (below (length counts.now)) }
{
    let mut stride: usize = 1;
    for p in (0..counts.len()).rev() {
        if !is_best(counts, payoffs, survivors, p, stride, k) {
            return false;
        }
        stride *= counts[p];
    }
    true
}

// ---- the calls

// Whether the profile is an equilibrium, or the first of 1 to 7, 11, and 12 in player order.
pub fn is_equilibrium(
    counts: &[usize],
    payoffs: &[f64],
    profile: &[usize],
) -> Result<bool, NormalFormError>
    ensures { told result ≡ is_equilibrium_answer counts.now payoffs.now profile.now }
{
    let k = table::offset(counts, payoffs, profile)?;
    let survivors = [true; MAX_MARKS];
    Ok(all_best(counts, payoffs, &survivors, k))
}

// How many equilibria there are, and how many of them are written: the first that both outputs hold
// whole, each once, in profile order, P choices of each into `choices`, and P payoffs of each, bits
// kept, into `utilities`. Elements past those written keep their contents. With empty outputs
// nothing is written. Or the first of 1 to 7, and nothing is written.
pub fn equilibria(
    counts: &[usize],
    payoffs: &[f64],
    choices: &mut [usize],
    utilities: &mut [f64],
) -> Result<Listed, NormalFormError>
    ensures result_value { told result ≡ equilibria_answer counts.now payoffs.now (length choices.old) (length utilities.old) }
    ensures choices_after { choices.new ≡ over (equilibria_choices counts.now payoffs.now (length choices.old) (length utilities.old)) choices.old }
    ensures utilities_after { utilities.new ≡ over (equilibria_utilities counts.now payoffs.now (length choices.old) (length utilities.old)) utilities.old }
{
    let profiles = table::table_profile_count(counts, payoffs)?;
    let survivors = [true; MAX_MARKS];
    Ok(marked_equilibria(counts, payoffs, &survivors, profiles, choices, utilities))
}

// The profiles that have no 0 among their P marks, told and written as `equilibria` does. Any byte
// but 0 is a mark, and bytes past the cells are not read. Or the first of 1 to 7, and 13 where
// there are fewer marks than cells, and nothing is written.
pub fn marked_profiles(
    counts: &[usize],
    payoffs: &[f64],
    marks: &[u8],
    choices: &mut [usize],
    utilities: &mut [f64],
) -> Result<Listed, NormalFormError>
    ensures result_value { told result ≡ from_marks_answer counts.now payoffs.now marks.now (length choices.old) (length utilities.old) }
    ensures choices_after { choices.new ≡ over (from_marks_choices counts.now payoffs.now marks.now (length choices.old) (length utilities.old)) choices.old }
    ensures utilities_after { utilities.new ≡ over (from_marks_utilities counts.now payoffs.now marks.now (length choices.old) (length utilities.old)) utilities.old }
{
    let profiles = table::table_profile_count(counts, payoffs)?;
    if marks.len() < payoffs.len() {
        return Err(NormalFormError::OutputTooShort);
    }
    Ok(profile_listing::list_marked(counts, payoffs, marks, profiles, choices, utilities))
}
