// Best responses as a list of records, as in the Rust. The functions that lend the list or write it
// are thin, and leave the rest to `find_responses`.
#![tactic(auto)]

ghost use Rattle.std.specs.Prelude.{◌≡◌, ◌≤◌, length, take, Err};
ghost use Rattle.refusal.specs.Told.{told};
ghost use Rattle.written_lists.specs.Outputs.{over, written};
ghost use Rattle.payoff_tables.specs.Limits.{max_strategies};
ghost use Rattle.response_list.specs.Responses.{no_records, records_answer, records_written};

use refusal::NormalFormError;
use table::MAX_STRATEGIES;
use utility::Utility;

// A best response and its payoff, as in the Rust.
#[repr(C)]
#[derive(Clone, Copy)]
pub struct BestResponse {
    pub strategy: usize,
    pub utility: Utility,
}

// The answer of a call beside a list that is handed back by value, beside a refusal too.
#[derive(Clone, Copy)]
pub struct ResponseList {
    pub answer: Result<usize, NormalFormError>,
    pub records: [BestResponse; MAX_STRATEGIES],
}

// The answer for a list, and the records to be written into it: the first `number`, none beside a
// refusal. `number` stands beside the answer since the contract of `write_list` names it.
#[derive(Clone, Copy)]
pub struct Found {
    pub answer: Result<usize, NormalFormError>,
    pub number: usize,
    pub records: [BestResponse; MAX_STRATEGIES],
}

// A list before any record is written: each has strategy 0 and utility 0.0.
pub fn no_records() -> [BestResponse; MAX_STRATEGIES]
    ensures { result ≡ no_records }
{
    let none = BestResponse {
        strategy: 0,
        utility: Utility::of_finite(0.0),
    };
    [none; MAX_STRATEGIES]
}

impl Found {
    // A refusal, beside which no record is written.
    pub fn refused(error: NormalFormError) -> Found
        ensures answer_value { result.answer ≡ Err error }
        ensures number_value { result.number ≡ 0 }
        ensures records_value { result.records ≡ no_records }
    {
        Found {
            answer: Err(error),
            number: 0,
            records: no_records(),
        }
    }
}

// The best responses for a list of `room` records.
pub fn find_responses(
    counts: &[usize],
    payoffs: &[f64],
    player: usize,
    opponents: &[usize],
    room: usize,
) -> Found
    ensures answer_value { told result.answer ≡ records_answer counts.now payoffs.now player opponents.now room }
    ensures number_value { result.number ≡ written (told result.answer) }
    ensures records_value { result.records ≡ over (records_written counts.now payoffs.now player opponents.now room) no_records }
{
    let mut strategies = [0usize; MAX_STRATEGIES];
    let mut utilities = [0.0; MAX_STRATEGIES];
    let answer = best_response::best_responses(
        counts,
        payoffs,
        player,
        opponents,
        &mut strategies,
        &mut utilities,
    );
    match answer {
        Err(error) => Found::refused(error),
        Ok(number) if room < number => Found::refused(NormalFormError::OutputTooShort),
        Ok(number) => {
            let mut records = no_records();
            for i in 0..number {
                records[i] = BestResponse {
                    strategy: strategies[i],
                    utility: Utility::of_finite(utilities[i]),
                };
            }
            Found {
                answer,
                number,
                records,
            }
        }
    }
}

// Writes the records from the start of the list on, and hands back the answer. The caller proves
// that there are no more than there may be strategies, and no more than the list has.
pub fn write_list(found: Found, out: &mut [BestResponse]) -> Result<usize, NormalFormError>
    requires { (found.number ≤ max_strategies) × (found.number ≤ length out.old) }
    ensures { (result ≡ found.answer) × (out.new ≡ over (take found.number found.records) out.old) }
{
    for i in 0..found.number {
        out[i] = found.records[i];
    }
    found.answer
}

// All best responses of the player to the opponents' choices, which stand in player order with the
// player's own place skipped: a record for each, strategies ascending, into `out`, and how many
// there are. Records past those written keep their contents. Or the first of 1 to 7, 8, 9, 10 in
// player order, and 13, and nothing is written.
pub fn best_responses(
    counts: &[usize],
    payoffs: &[f64],
    player: usize,
    opponents: &[usize],
    out: &mut [BestResponse],
) -> Result<usize, NormalFormError>
    ensures { (told result ≡ records_answer counts.now payoffs.now player opponents.now (length out.old))
        × (out.new ≡ over (records_written counts.now payoffs.now player opponents.now (length out.old)) out.old) }
{
    let found = find_responses(counts, payoffs, player, opponents, out.len());
    write_list(found, out)
}

// `best_responses` for callers that lend no list of records: the list goes in and comes back by
// value. It has room for every answer.
pub fn listed_best_responses(
    counts: &[usize],
    payoffs: &[f64],
    player: usize,
    opponents: &[usize],
    mut records: [BestResponse; MAX_STRATEGIES],
) -> ResponseList
    ensures { (told result.answer ≡ records_answer counts.now payoffs.now player opponents.now max_strategies)
        × (result.records ≡ over (records_written counts.now payoffs.now player opponents.now max_strategies) records) }
{
    let answer = best_responses(counts, payoffs, player, opponents, &mut records);
    ResponseList { answer, records }
}
