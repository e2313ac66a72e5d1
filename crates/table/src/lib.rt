// Tables of payoffs: their checks, and a profile's offset and payoffs. A table is two slices, the
// players' counts and the payoffs; P is the number of counts. Any numbers and lengths may be handed
// in.
#![tactic(auto)]

ghost use Rattle.std.specs.Prelude.{◌≡◌, [], ◌+◌, ◌*◌, ◌<◌, ltb, length};
ghost use Rattle.std.specs.Result.{result_unwrap_or};
ghost use Rattle.std.proofs.Math.Option.{none};
ghost use Rattle.refusal.specs.Told.{told, unless};
ghost use Rattle.utility.specs.Value.{told_utility};
ghost use Rattle.payoff_tables.specs.Table.{offset, stride, cell_rank};
ghost use Rattle.payoff_tables.specs.Meaning.{Shape, Finites};
ghost use Rattle.payoff_tables.specs.Checks.{counts_refusal, table_refusal, profile_refusal};
ghost use Rattle.payoff_tables.specs.Answers.{counts_answer, table_answer, offset_answer, payoff_answer, profile_payoffs, part_first};
ghost use Rattle.table.specs.Space.{space_of, space_unless};

use refusal::NormalFormError;
use utility::Utility;

// The limits of document 01, "The table".
pub const MAX_PLAYERS: usize = 8;

pub const MAX_STRATEGIES: usize = 64;

pub const MAX_CELLS: usize = 65536;

pub const MAX_MARKS: usize = MAX_PLAYERS * MAX_STRATEGIES;

// The players of a table and how many strategies each has. As `from_counts` makes it, a place from
// `players` on holds 0.
#[derive(Clone, Copy)]
pub struct StrategySpace {
    pub players: usize,
    pub counts: [usize; MAX_PLAYERS],
}

// The number of profiles, or the first of refusals 1 to 5.
pub fn profile_count(counts: &[usize]) -> Result<usize, NormalFormError>
    ensures { told result ≡ counts_answer counts.now }
{
    let players = counts.len();
    if players == 0 {
        return Err(NormalFormError::NoPlayers);
    }
    if MAX_PLAYERS < players {
        return Err(NormalFormError::TooManyPlayers);
    }
    let mut profiles: usize = 1;
    for &count in counts {
        if count == 0 {
            return Err(NormalFormError::NoStrategies);
        }
        if MAX_STRATEGIES < count {
            return Err(NormalFormError::TooManyStrategies);
        }
        profiles *= count;
    }
    if MAX_CELLS < profiles * players {
        return Err(NormalFormError::TooManyCells);
    }
    Ok(profiles)
}

// The number of profiles of a table, or the first of refusals 1 to 7.
pub fn table_profile_count(counts: &[usize], payoffs: &[f64]) -> Result<usize, NormalFormError>
    ensures { told result ≡ table_answer counts.now payoffs.now }
{
    let profiles = profile_count(counts)?;
    if payoffs.len() != profiles * counts.len() {
        return Err(NormalFormError::PayoffCount);
    }
    if !utility::all_finite(payoffs) {
        return Err(NormalFormError::NonFiniteUtility);
    }
    Ok(profiles)
}

impl StrategySpace {
    // The space of the counts: one to a place, and 0 in the places after the last. The places are
    // gone through one by one, since a copy of an unknown length takes longer than all of them.
    fn padded(counts: &[usize]) -> StrategySpace
        ensures { result ≡ space_of counts.now }
    {
        let mut places = [0usize; MAX_PLAYERS];
        for p in 0..MAX_PLAYERS {
            if p < counts.len() {
                places[p] = counts[p];
            }
        }
        StrategySpace {
            players: counts.len(),
            counts: places,
        }
    }

    // The space of no players, for a caller that wants a space beside a refusal: P 0 and eight
    // zeros.
    pub fn none() -> StrategySpace
        ensures { result ≡ space_of [] }
    {
        StrategySpace {
            players: 0,
            counts: [0; MAX_PLAYERS],
        }
    }

    // The space of the counts, or the first of refusals 1 to 5.
    pub fn from_counts(counts: &[usize]) -> Result<StrategySpace, NormalFormError>
        ensures told { told result ≡ unless (counts_refusal counts.now) (space_of counts.now) }
        ensures space_value { result_unwrap_or result (space_of []) ≡ space_unless (counts_refusal counts.now) counts.now }
    {
        profile_count(counts)?;
        Ok(StrategySpace::padded(counts))
    }
}

// The checks of the Rust's `PayoffMatrix::new`: the space of a table, or the first of refusals 1 to
// 7.
pub fn payoff_matrix(counts: &[usize], payoffs: &[f64]) -> Result<StrategySpace, NormalFormError>
    ensures told { told result ≡ unless (table_refusal counts.now payoffs.now) (space_of counts.now) }
    ensures space_value { result_unwrap_or result (space_of []) ≡ space_unless (table_refusal counts.now payoffs.now) counts.now }
{
    table_profile_count(counts, payoffs)?;
    Ok(StrategySpace::padded(counts))
}

// A profile's offset, or 11, or 12 in player order. It is carried in 32 bits: a table has at most
// 65,536 cells.
fn profile_offset(counts: &[usize], profile: &[usize]) -> Result<usize, NormalFormError>
    requires { counts_refusal counts.now ≡ none }
    ensures { told result ≡ unless (profile_refusal counts.now profile.now) (offset counts.now profile.now) }
{
    if profile.len() != counts.len() {
        return Err(NormalFormError::ProfileCount);
    }
    let mut at: u32 = 0;
    for (&count, &choice) in counts.iter().zip(profile) {
        if count <= choice {
            return Err(NormalFormError::InvalidStrategy);
        }
        at = at * (count as u32) + choice as u32;
    }
    Ok(at as usize)
}

// A profile's offset, or the first of 1 to 7, 11, and 12 in player order.
pub fn offset(
    counts: &[usize],
    payoffs: &[f64],
    profile: &[usize],
) -> Result<usize, NormalFormError>
    ensures { told result ≡ offset_answer counts.now payoffs.now profile.now }
{
    table_profile_count(counts, payoffs)?;
    profile_offset(counts, profile)
}

// A player's payoff at a profile, or the first of 1 to 7, 8, 11, and 12 in player order.
pub fn payoff(
    counts: &[usize],
    payoffs: &[f64],
    profile: &[usize],
    player: usize,
) -> Result<Utility, NormalFormError>
    ensures { told_utility result ≡ payoff_answer counts.now payoffs.now profile.now player }
{
    table_profile_count(counts, payoffs)?;
    if counts.len() <= player {
        return Err(NormalFormError::InvalidPlayer);
    }
    let at = profile_offset(counts, profile)?;
    Utility::new(payoffs[at * counts.len() + player])
}

// The payoffs of one profile, that of each player in order: the part of `payoffs` at offset × P, no
// copy of it. Empty where `offset` refuses. A slice has a block and a place in it: the part lies in
// the same block, 8 bytes for each payoff before it further on.
pub fn profile_payoffs<'a>(counts: &[usize], payoffs: &'a [f64], profile: &[usize]) -> &'a [f64]
    ensures result_value { result.now ≡ profile_payoffs counts.now payoffs.now profile.now }
    ensures ref_ptr_value { result.ref_ptr.0 ≡ payoffs.entry.ref_ptr.0 }
    ensures ref_ptr_value_2 { result.ref_ptr.1 ≡ payoffs.entry.ref_ptr.1 + 8 * part_first counts.now payoffs.now profile.now }
{
    match offset(counts, payoffs, profile) {
        Err(_) => &payoffs[0..0],
        Ok(at) => {
            let start = at * counts.len();
            let end = start + counts.len();
            &payoffs[start..end]
        }
    }
}

// ---- for walks over a table, by crates that have checked it

// Such functions, here and in the crates of walks, take counts, payoffs and the number of profiles
// one by one, and no type that holds them: their clauses name each, and public functions keep their
// parameters. docs/DECISIONS.md lists them with what their callers prove.

// Whether the payoff of one cell exceeds that of another. The caller proves that both are cells and
// that every payoff is finite.
pub fn exceeds(payoffs: &[f64], cell: usize, other: usize) -> bool
    requires cell_in_bounds { (cell < length payoffs.now) × (other < length payoffs.now) }
    requires finites { Finites payoffs.now }
    ensures { result ≡ ltb (cell_rank payoffs.now other) (cell_rank payoffs.now cell) }
{
    let mine = Utility::of_finite(payoffs[cell]);
    mine.exceeds(Utility::of_finite(payoffs[other]))
}

// How far the offset moves when the player's choice goes up by one. The caller proves that the
// counts have none of refusals 1 to 5, and that the player is below P.
pub fn stride(counts: &[usize], player: usize) -> usize
    requires shape { Shape counts.now }
    requires player_in_bounds { player < length counts.now }
    ensures { result ≡ stride counts.now player }
{
    let mut stride: usize = 1;
    for &count in &counts[player + 1..] {
        stride *= count;
    }
    stride
}
