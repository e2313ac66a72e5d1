// The deposit file's reader: one pass to check, and one to write.
#![tactic(auto)]

ghost use Rattle.std.specs.Prelude.{◌≡◌, ℕ, suc, ◌+◌, ◌*◌, ◌^◌, ◌≤◌, ◌<◌, ltb, length};
ghost use Rattle.std.proofs.Math.Option.{none};
ghost use Rattle.game.specs.Finite.{below};
ghost use Rattle.refusal.specs.Refusal.{when, ◌then◌, each};
ghost use Rattle.refusal.specs.declared.NormalFormError.TheVariants.{TooManyCells};
ghost use Rattle.refusal.specs.Told.{told, unless};
ghost use Rattle.written_lists.specs.Outputs.{over};
ghost use Rattle.payoff_tables.specs.Limits.{max_players, max_cells};
ghost use Rattle.payoff_tables.specs.Table.{cells};
ghost use Rattle.file_words.specs.Words.{payloads, payload_at, words_of};
ghost use Rattle.file_words.specs.Faults.{closing_fault};
ghost use Rattle.deposit_format.specs.Deposit.{players_in, counts_in, payoff_in, payoffs_in, cell_place, count_fault, cell_fault};
ghost use Rattle.deposit_format.specs.Answers.{read_answer, read_counts, read_payoffs};

use deposit::{CELL, CELL_WORDS, COUNT};
use refusal::NormalFormError;
use table::{MAX_PLAYERS, MAX_STRATEGIES};

// How many payloads there are, as a part of a payoff's bits.
const PAYLOADS: usize = words::PAYLOADS as usize;

// The largest payload of a cell's first word.
const FIRST_LARGEST: usize = 15;

// A player's count, or 17, 18, 3 or 4 of its word.
fn count_at(bytes: &[u8], player: usize) -> Result<usize, NormalFormError>
    requires { player < max_players }
    ensures { told result ≡ unless (count_fault (words_of bytes.now) player) (payload_at (words_of bytes.now) (1 + player)) }
{
    let count = words::due(bytes, 1 + player, COUNT)?;
    if count == 0 {
        return Err(NormalFormError::NoStrategies);
    }
    if MAX_STRATEGIES < count {
        return Err(NormalFormError::TooManyStrategies);
    }
    Ok(count)
}

// The number of cells, or the first fault of the count words, or 5.
fn cell_count(bytes: &[u8], players: usize) -> Result<usize, NormalFormError>
    requires { (players ≡ players_in (words_of bytes.now)) × (0 < players) × (players ≤ max_players) }
    ensures { told result ≡ unless (each (count_fault (words_of bytes.now)) (below players) then when (ltb max_cells (cells (counts_in (words_of bytes.now)))) TooManyCells) (cells (counts_in (words_of bytes.now))) }
{
    let mut counts = [0; MAX_PLAYERS];
    for (p, count) in counts[..players].iter_mut().enumerate() {
        *count = count_at(bytes, p)?;
    }
    let profiles = table::profile_count(&counts[..players])?;
    Ok(profiles * players)
}

// A payoff's bits, of their three parts.
fn joined_bits(top: usize, next: usize, last: usize) -> usize
    requires { (top ≤ 15) × (next < payloads) × (last < payloads) }
    ensures { result ≡ top * 2 ^ 60 + next * payloads + last }
{
    top * 0x1000000000000000 + next * PAYLOADS + last
}

// The first fault of a cell's three words: 17, 18, 19 or 7.
fn check_cell(bytes: &[u8], place: usize) -> Result<(), NormalFormError>
    requires { place ≤ suc max_players + 3 * max_cells }
    ensures { told result ≡ unless (cell_fault (words_of bytes.now) place) tt }
{
    let top = words::due(bytes, place, CELL)?;
    if FIRST_LARGEST < top {
        return Err(NormalFormError::WrongPayload);
    }
    let next = words::due(bytes, place + 1, CELL)?;
    let last = words::due(bytes, place + 2, CELL)?;
    // no NaN can be made of bits, so the exponent's field is asked
    let bits = joined_bits(top, next, last);
    if bits % 0x8000000000000000 / 0x10000000000000 == 0x7ff {
        return Err(NormalFormError::NonFiniteUtility);
    }
    Ok(())
}

// The first fault of the cells from a place on.
fn check_cells(bytes: &[u8], start: usize, cells: usize) -> Result<(), NormalFormError>
    requires { (start ≤ suc max_players) × (cells ≤ max_cells) }
    ensures { told result ≡ unless (each (λ i. cell_fault (words_of bytes.now) (start + 3 * i)) (below cells)) tt }
{
    for i in 0..cells {
        check_cell(bytes, start + CELL_WORDS * i)?;
    }
    Ok(())
}

// The first fault of the cells and of the closing word.
fn check_rest(bytes: &[u8], players: usize, cells: usize) -> Result<(), NormalFormError>
    requires { (players ≤ max_players) × (cells ≤ max_cells) }
    ensures { told result ≡ unless (each (λ i. cell_fault (words_of bytes.now) (1 + players + 3 * i)) (below cells) then closing_fault (words_of bytes.now) (1 + players + 3 * cells)) tt }
{
    check_cells(bytes, 1 + players, cells)?;
    words::closing(bytes, 1 + players + CELL_WORDS * cells)
}

// Writes the counts.
fn put_counts(bytes: &[u8], players: usize, counts: &mut [usize])
    requires { (players ≡ players_in (words_of bytes.now)) × (players ≤ max_players) × (players ≤ length counts.old) }
    ensures { counts.new ≡ over (counts_in (words_of bytes.now)) counts.old }
{
    for (p, count) in counts[..players].iter_mut().enumerate() {
        *count = words::payload(bytes, 1 + p);
    }
}

// The payoff of three words from a place on that have no fault.
fn payoff_at(bytes: &[u8], place: usize) -> f64
    requires place_bound { place ≤ suc max_players + 3 * max_cells }
    requires place_value { cell_fault (words_of bytes.now) place ≡ none }
    ensures { result ≡ payoff_in (words_of bytes.now) place }
{
    let top = words::part(bytes, place, CELL);
    let next = words::part(bytes, place + 1, CELL);
    let last = words::part(bytes, place + 2, CELL);
    f64::from_bits(joined_bits(top, next, last) as u64)
}

// Writes the payoffs of cells that have no fault.
fn put_payoffs(bytes: &[u8], players: usize, number: usize, payoffs: &mut [f64])
    requires players_value { (players ≡ players_in (words_of bytes.now)) × (players ≤ max_players) }
    requires number_value { (number ≡ cells (counts_in (words_of bytes.now))) × (number ≤ max_cells) × (number ≤ length payoffs.old) }
    requires by_index { (i : ℕ) → i < number → cell_fault (words_of bytes.now) (cell_place (words_of bytes.now) i) ≡ none }
    ensures { payoffs.new ≡ over (payoffs_in (words_of bytes.now)) payoffs.old }
{
    for (i, payoff) in payoffs[..number].iter_mut().enumerate() {
        *payoff = payoff_at(bytes, 1 + players + CELL_WORDS * i);
    }
}

// P, with the counts and the payoffs of the file written to the outputs; or the first fault of the
// file, met left to right, and nothing written.
pub fn read(
    bytes: &[u8],
    counts: &mut [usize],
    payoffs: &mut [f64],
) -> Result<usize, NormalFormError>
    ensures result_value { told result ≡ read_answer bytes.now counts.old payoffs.old }
    ensures counts_after { counts.new ≡ read_counts bytes.now counts.old payoffs.old }
    ensures payoffs_after { payoffs.new ≡ read_payoffs bytes.now counts.old payoffs.old }
{
    let players = deposit::opening(bytes)?;
    let cells = cell_count(bytes, players)?;
    if counts.len() < players {
        return Err(NormalFormError::OutputTooShort);
    }
    if payoffs.len() < cells {
        return Err(NormalFormError::OutputTooShort);
    }
    check_rest(bytes, players, cells)?;
    put_counts(bytes, players, counts);
    put_payoffs(bytes, players, cells, payoffs);
    Ok(players)
}
