// The library's calls under C names: include/sigvanyor.h declares them and says what each does.
// A call answers a status, 0 or the refusal's number, and writes its values through pointers;
// refused, it writes nothing. Calls that have no refusals, as the candidate checks, answer by
// themselves.
// A slice is a pointer and the number of its elements.
#![tactic(auto)]

ghost use Rattle.std.specs.Prelude.{◌≡◌, map, ℕ, length};
ghost use Rattle.game.specs.Finite.{all};
ghost use Rattle.game.specs.Game.{strategy as named};
ghost use Rattle.refusal.specs.Told.{values, unless, told_of, status, byte_of};
ghost use Rattle.written_lists.specs.Outputs.{over};
ghost use Rattle.payoff_order.specs.Order.{finite};
ghost use Rattle.utility.specs.Value.{utility_answer};
ghost use Rattle.payoff_tables.specs.Checks.{counts_refusal, table_refusal};
ghost use Rattle.payoff_tables.specs.Answers.{offset_answer, payoff_answer};
ghost use Rattle.table.specs.Space.{space_of};
ghost use Rattle.profile_step.specs.Step.{step};
ghost use Rattle.responses.specs.Answers.{response_utilities, responses_answer, responses_written};
ghost use Rattle.equilibria.specs.Answers.{is_equilibrium_answer, equilibria_answer, equilibria_choices, equilibria_utilities};
ghost use Rattle.response_marks.specs.Answers.{marks_answer, marks_written, Counted, from_marks_answer, from_marks_choices, from_marks_utilities};
ghost use Rattle.dominance.specs.Answers.{strategies_of, dominators_of, dominated_answer, dominated_written};
ghost use Rattle.survivors.specs.Survivors.{fresh_of};
ghost use Rattle.strikes.specs.Answers.{strike_answer, strike_leaves, surviving_answer, surviving_choices, surviving_utilities};
ghost use Rattle.strike_chains.specs.Answers.{calls_of, dominator_of, strikes_answer, strikes_leave, strikes_written};
ghost use Rattle.response_list.specs.Responses.{records_answer, records_written};
ghost use Rattle.deposit_format.specs.Answers.{read_answer, read_counts, read_payoffs, write_answer, write_bytes};
ghost use Rattle.catalogue.specs.Answers.{number_answer};
ghost use Rattle.candidates.specs.Checks.{incentives, verdict_of, minimax};
ghost use Rattle.c_answers.specs.Status.{output, beside, some_byte, or_zero, part_start, part_length, survivors_of, mark_bytes};
ghost use Rattle.exports.specs.Interface.{interface};

use candidates::Claim;
use response_list::BestResponse;
use table::{MAX_MARKS, MAX_PLAYERS, StrategySpace};
use utility::Utility;

// The number of this interface, SIGVANYOR_INTERFACE of the header. It goes up with each change of a
// C signature, of a limit or of the stack that the header names.
pub const INTERFACE: u32 = 3;

// The number of the interface that the archive was built with.
#[unsafe(no_mangle)]
pub extern "C" fn sigvanyor_interface() -> u32
    ensures { result ≡ interface }
{
    INTERFACE
}

// `Utility::new`: the value into `utility`, or 7.
#[unsafe(no_mangle)]
pub extern "C" fn sigvanyor_utility_new(value: f64, utility: &mut f64) -> u32
    ensures value { result ≡ status (utility_answer value) }
    ensures utility_after { utility.new ≡ output (utility_answer value) utility.old }
{
    let answer = Utility::new(value).map(|u| u.value());
    c_outputs::value_into(answer, utility)
}

// `all_finite`: whether every value is finite.
#[unsafe(no_mangle)]
pub extern "C" fn sigvanyor_all_finite(values: &[f64]) -> bool
    ensures { result ≡ all finite values.now }
{
    utility::all_finite(values)
}

// `StrategySpace::from_counts`: P and the counts with 0 from P on into the outputs, or 1 to 5.
#[unsafe(no_mangle)]
pub extern "C" fn sigvanyor_from_counts(
    counts: &[usize],
    players: &mut usize,
    space_counts: &mut [usize; MAX_PLAYERS],
) -> u32
    ensures value { result ≡ status (unless (counts_refusal counts.now) (space_of counts.now)) }
    ensures players_after { players.new ≡ output (unless (counts_refusal counts.now) (space_of counts.now).players) players.old }
    ensures space_counts_after { space_counts.new ≡ output (unless (counts_refusal counts.now) (space_of counts.now).counts) space_counts.old }
{
    c_outputs::space_into(StrategySpace::from_counts(counts), players, space_counts)
}

// `payoff_matrix`: the same for a table, or 1 to 7.
#[unsafe(no_mangle)]
pub extern "C" fn sigvanyor_payoff_matrix_new(
    counts: &[usize],
    payoffs: &[f64],
    players: &mut usize,
    space_counts: &mut [usize; MAX_PLAYERS],
) -> u32
    ensures value { result ≡ status (unless (table_refusal counts.now payoffs.now) (space_of counts.now)) }
    ensures players_after { players.new ≡ output (unless (table_refusal counts.now payoffs.now) (space_of counts.now).players) players.old }
    ensures space_counts_after { space_counts.new ≡ output (unless (table_refusal counts.now payoffs.now) (space_of counts.now).counts) space_counts.old }
{
    c_outputs::space_into(table::payoff_matrix(counts, payoffs), players, space_counts)
}

// `offset`: the profile's offset into `offset`, or 1 to 7, 11, 12.
#[unsafe(no_mangle)]
pub extern "C" fn sigvanyor_offset(
    counts: &[usize],
    payoffs: &[f64],
    profile: &[usize],
    offset: &mut usize,
) -> u32
    ensures value { result ≡ status (offset_answer counts.now payoffs.now profile.now) }
    ensures offset_after { offset.new ≡ output (offset_answer counts.now payoffs.now profile.now) offset.old }
{
    c_outputs::value_into(table::offset(counts, payoffs, profile), offset)
}

// `payoff`: the player's payoff at the profile into `utility`, or 1 to 7, 8, 11, 12.
#[unsafe(no_mangle)]
pub extern "C" fn sigvanyor_payoff(
    counts: &[usize],
    payoffs: &[f64],
    profile: &[usize],
    player: usize,
    utility: &mut f64,
) -> u32
    ensures value { result ≡ status (payoff_answer counts.now payoffs.now profile.now player) }
    ensures utility_after { utility.new ≡ output (payoff_answer counts.now payoffs.now profile.now player) utility.old }
{
    let answer = table::payoff(counts, payoffs, profile, player).map(|u| u.value());
    c_outputs::value_into(answer, utility)
}

// `profile_payoffs`: the part's first place into `first` and its length into `number`, or 1 to 7,
// 11, 12.
#[unsafe(no_mangle)]
pub extern "C" fn sigvanyor_profile_payoffs(
    counts: &[usize],
    payoffs: &[f64],
    profile: &[usize],
    first: &mut usize,
    number: &mut usize,
) -> u32
    ensures value { result ≡ status (offset_answer counts.now payoffs.now profile.now) }
    ensures first_after { first.new ≡ output (part_start counts.now payoffs.now profile.now) first.old }
    ensures number_after { number.new ≡ output (part_length counts.now payoffs.now profile.now) number.old }
{
    match table::offset(counts, payoffs, profile) {
        Ok(at) => {
            *first = at * counts.len();
            *number = counts.len();
            0
        }
        Err(e) => e.number(),
    }
}

// `advance_profile`: steps `profile` in place, and returns whether there was a next one.
#[unsafe(no_mangle)]
pub extern "C" fn sigvanyor_advance_profile(
    counts: &[usize],
    profile: &mut [usize; MAX_PLAYERS],
) -> bool
    ensures value { result ≡ (step counts.now profile.old).more }
    ensures profile_after { profile.new ≡ (step counts.now profile.old).profile }
{
    let before = *profile;
    let stepped = profile_step::advance_profile(counts, before);
    let next = stepped.profile;
    *profile = next;
    stepped.more
}

// `best_responses`: the strategies into `strategies`, the payoff of each into `utilities`, and how
// many there are into `number`, or 1 to 7, 8, 9, 10, 13.
#[unsafe(no_mangle)]
pub extern "C" fn sigvanyor_best_responses(
    counts: &[usize],
    payoffs: &[f64],
    player: usize,
    opponents: &[usize],
    strategies: &mut [usize],
    utilities: &mut [f64],
    number: &mut usize,
) -> u32
    ensures value { result ≡ status (responses_answer counts.now payoffs.now player opponents.now (length strategies.old) (length utilities.old)) }
    ensures number_after { number.new ≡ output (responses_answer counts.now payoffs.now player opponents.now (length strategies.old) (length utilities.old)) number.old }
    ensures strategies_after { strategies.new ≡ over (responses_written counts.now payoffs.now player opponents.now (length strategies.old) (length utilities.old)) strategies.old }
    ensures utilities_after { utilities.new ≡ over (response_utilities counts.now payoffs.now player opponents.now (responses_written counts.now payoffs.now player opponents.now (length strategies.old) (length utilities.old))) utilities.old }
{
    let answer = best_response::best_responses(
        counts, payoffs, player, opponents, strategies, utilities,
    );
    c_outputs::value_into(answer, number)
}

// `response_list::best_responses`: a record for each into `responses`, and how many there are into
// `number`, or 1 to 7, 8, 9, 10, 13.
#[unsafe(no_mangle)]
pub extern "C" fn sigvanyor_best_response_records(
    counts: &[usize],
    payoffs: &[f64],
    player: usize,
    opponents: &[usize],
    responses: &mut [BestResponse],
    number: &mut usize,
) -> u32
    ensures { (result ≡ status (records_answer counts.now payoffs.now player opponents.now (length responses.old)))
        × (responses.new ≡ over (records_written counts.now payoffs.now player opponents.now (length responses.old)) responses.old)
        × (number.new ≡ output (records_answer counts.now payoffs.now player opponents.now (length responses.old)) number.old) }
{
    let answer = response_list::best_responses(counts, payoffs, player, opponents, responses);
    c_outputs::value_into(answer, number)
}

// `is_equilibrium`: whether the profile is an equilibrium into `equilibrium`, as 1 or 0, or 1 to 7,
// 11, 12.
#[unsafe(no_mangle)]
pub extern "C" fn sigvanyor_is_equilibrium(
    counts: &[usize],
    payoffs: &[f64],
    profile: &[usize],
    equilibrium: &mut u8,
) -> u32
    ensures value { result ≡ status (is_equilibrium_answer counts.now payoffs.now profile.now) }
    ensures equilibrium_after { equilibrium.new ≡ output (told_of byte_of (is_equilibrium_answer counts.now payoffs.now profile.now)) equilibrium.old }
{
    let answer = pure_nash::is_equilibrium(counts, payoffs, profile).map(|is| u8::from(is));
    c_outputs::value_into(answer, equilibrium)
}

// `equilibria`: the choices of the first that both outputs hold whole into `choices`, their payoffs
// into `utilities`, how many there are into `total`, and how many are written into `written`, or 1
// to 7.
#[unsafe(no_mangle)]
pub extern "C" fn sigvanyor_equilibria(
    counts: &[usize],
    payoffs: &[f64],
    choices: &mut [usize],
    utilities: &mut [f64],
    total: &mut usize,
    written: &mut usize,
) -> u32
    ensures value { result ≡ status (equilibria_answer counts.now payoffs.now (length choices.old) (length utilities.old)) }
    ensures total_after { total.new ≡ output (told_of (λ l. l.total) (equilibria_answer counts.now payoffs.now (length choices.old) (length utilities.old))) total.old }
    ensures written_after { written.new ≡ output (told_of (λ l. l.written) (equilibria_answer counts.now payoffs.now (length choices.old) (length utilities.old))) written.old }
    ensures choices_after { choices.new ≡ over (equilibria_choices counts.now payoffs.now (length choices.old) (length utilities.old)) choices.old }
    ensures utilities_after { utilities.new ≡ over (equilibria_utilities counts.now payoffs.now (length choices.old) (length utilities.old)) utilities.old }
{
    let answer = pure_nash::equilibria(counts, payoffs, choices, utilities);
    c_outputs::listing_into(answer, total, written)
}

// `best_response_marks`: a byte for each cell into `marks`, and how many are 1 into `number`, or 1
// to 7, 13.
#[unsafe(no_mangle)]
pub extern "C" fn sigvanyor_best_response_marks(
    counts: &[usize],
    payoffs: &[f64],
    marks: &mut [u8],
    number: &mut usize,
) -> u32
    ensures value { result ≡ status (marks_answer counts.now payoffs.now (length marks.old)) }
    ensures number_after { number.new ≡ output (marks_answer counts.now payoffs.now (length marks.old)) number.old }
    ensures marks_after { marks.new ≡ over (marks_written counts.now payoffs.now (length marks.old)) marks.old }
    ensures by_index { (n : ℕ) → marks_answer counts.now payoffs.now (length marks.old) ≡ values n → Counted counts.now n marks.new }
{
    let answer = mark_responses::best_response_marks(counts, payoffs, marks);
    c_outputs::value_into(answer, number)
}

// `marked_profiles`: as `equilibria`, of the profiles that have no 0 among their marks, or 1 to 7,
// 13.
#[unsafe(no_mangle)]
pub extern "C" fn sigvanyor_marked_profiles(
    counts: &[usize],
    payoffs: &[f64],
    marks: &[u8],
    choices: &mut [usize],
    utilities: &mut [f64],
    total: &mut usize,
    written: &mut usize,
) -> u32
    ensures value { result ≡ status (from_marks_answer counts.now payoffs.now marks.now (length choices.old) (length utilities.old)) }
    ensures total_after { total.new ≡ output (told_of (λ l. l.total) (from_marks_answer counts.now payoffs.now marks.now (length choices.old) (length utilities.old))) total.old }
    ensures written_after { written.new ≡ output (told_of (λ l. l.written) (from_marks_answer counts.now payoffs.now marks.now (length choices.old) (length utilities.old))) written.old }
    ensures choices_after { choices.new ≡ over (from_marks_choices counts.now payoffs.now marks.now (length choices.old) (length utilities.old)) choices.old }
    ensures utilities_after { utilities.new ≡ over (from_marks_utilities counts.now payoffs.now marks.now (length choices.old) (length utilities.old)) utilities.old }
{
    let answer = pure_nash::marked_profiles(counts, payoffs, marks, choices, utilities);
    c_outputs::listing_into(answer, total, written)
}

// `strictly_dominated_strategies`: the dominated strategies into `dominated`, the lowest dominator
// of each into `dominators`, and how many there are into `number`, or 1 to 7, 8, 13.
#[unsafe(no_mangle)]
pub extern "C" fn sigvanyor_strictly_dominated_strategies(
    counts: &[usize],
    payoffs: &[f64],
    player: usize,
    dominated: &mut [usize],
    dominators: &mut [usize],
    number: &mut usize,
) -> u32
    ensures value { result ≡ status (dominated_answer counts.now payoffs.now player (length dominated.old) (length dominators.old)) }
    ensures number_after { number.new ≡ output (dominated_answer counts.now payoffs.now player (length dominated.old) (length dominators.old)) number.old }
    ensures dominated_after { dominated.new ≡ over (strategies_of (dominated_written counts.now payoffs.now player (length dominated.old) (length dominators.old))) dominated.old }
    ensures dominators_after { dominators.new ≡ over (dominators_of (dominated_written counts.now payoffs.now player (length dominated.old) (length dominators.old))) dominators.old }
{
    let answer = strict_dominance::strictly_dominated_strategies(
        counts, payoffs, player, dominated, dominators,
    );
    c_outputs::value_into(answer, number)
}

// `fresh`: P, the counts with 0 from P on and the marks of the table's fresh survivors into the
// last three outputs, or 1 to 7.
#[unsafe(no_mangle)]
pub extern "C" fn sigvanyor_fresh(
    counts: &[usize],
    payoffs: &[f64],
    survivors_players: &mut usize,
    survivors_counts: &mut [usize; MAX_PLAYERS],
    survivors_marks: &mut [u8; MAX_MARKS],
) -> u32
    ensures value { result ≡ status (unless (table_refusal counts.now payoffs.now) (fresh_of counts.now)) }
    ensures survivors_players_after { survivors_players.new ≡ output (unless (table_refusal counts.now payoffs.now) (fresh_of counts.now).players) survivors_players.old }
    ensures survivors_counts_after { survivors_counts.new ≡ output (unless (table_refusal counts.now payoffs.now) (fresh_of counts.now).counts) survivors_counts.old }
    ensures survivors_marks_after { survivors_marks.new ≡ output (unless (table_refusal counts.now payoffs.now) (mark_bytes (fresh_of counts.now))) survivors_marks.old }
{
    let made = survivors::fresh(counts, payoffs);
    let left = made.survivors;
    match made.answer {
        Ok(()) => {
            c_outputs::survivors_into(left, survivors_players, survivors_counts, survivors_marks);
            0
        }
        Err(e) => e.number(),
    }
}

// `strike`: the lowest dominator into `dominator` and the survivors' marks into `survivors_marks`,
// or 1 to 7, 16, 8, 14, 15.
#[unsafe(no_mangle)]
pub extern "C" fn sigvanyor_strike(
    counts: &[usize],
    payoffs: &[f64],
    survivors_players: usize,
    survivors_counts: &[usize; MAX_PLAYERS],
    survivors_marks: &mut [u8; MAX_MARKS],
    player: usize,
    strategy: usize,
    dominator: &mut usize,
) -> u32
    ensures value { result ≡ status (strike_answer counts.now payoffs.now (survivors_of survivors_players survivors_counts.now survivors_marks.old) (named player strategy)) }
    ensures dominator_after { dominator.new ≡ output (strike_answer counts.now payoffs.now (survivors_of survivors_players survivors_counts.now survivors_marks.old) (named player strategy)) dominator.old }
    ensures survivors_marks_after { survivors_marks.new ≡ beside (strike_answer counts.now payoffs.now (survivors_of survivors_players survivors_counts.now survivors_marks.old) (named player strategy)) (mark_bytes (strike_leaves counts.now payoffs.now (survivors_of survivors_players survivors_counts.now survivors_marks.old) (named player strategy))) survivors_marks.old }
{
    let held = *survivors_marks;
    let before = c_outputs::survivors_of(survivors_players, survivors_counts, &held);
    let struck = survivor_calls::strike(counts, payoffs, before, player, strategy);
    let left = struck.survivors;
    match struck.answer {
        Ok(t) => {
            let marks = left.marks;
            let bytes = c_outputs::bytes_of(marks);
            *dominator = t;
            *survivors_marks = bytes;
            0
        }
        Err(e) => e.number(),
    }
}

// `surviving_equilibria`: as `equilibria`, over survivors, or 1 to 7, 16.
#[unsafe(no_mangle)]
pub extern "C" fn sigvanyor_surviving_equilibria(
    counts: &[usize],
    payoffs: &[f64],
    survivors_players: usize,
    survivors_counts: &[usize; MAX_PLAYERS],
    survivors_marks: &[u8; MAX_MARKS],
    choices: &mut [usize],
    utilities: &mut [f64],
    total: &mut usize,
    written: &mut usize,
) -> u32
    ensures value { result ≡ status (surviving_answer counts.now payoffs.now (survivors_of survivors_players survivors_counts.now survivors_marks.now) (length choices.old) (length utilities.old)) }
    ensures total_after { total.new ≡ output (told_of (λ l. l.total) (surviving_answer counts.now payoffs.now (survivors_of survivors_players survivors_counts.now survivors_marks.now) (length choices.old) (length utilities.old))) total.old }
    ensures written_after { written.new ≡ output (told_of (λ l. l.written) (surviving_answer counts.now payoffs.now (survivors_of survivors_players survivors_counts.now survivors_marks.now) (length choices.old) (length utilities.old))) written.old }
    ensures choices_after { choices.new ≡ over (surviving_choices counts.now payoffs.now (survivors_of survivors_players survivors_counts.now survivors_marks.now) (length choices.old) (length utilities.old)) choices.old }
    ensures utilities_after { utilities.new ≡ over (surviving_utilities counts.now payoffs.now (survivors_of survivors_players survivors_counts.now survivors_marks.now) (length choices.old) (length utilities.old)) utilities.old }
{
    let left = c_outputs::survivors_of(survivors_players, survivors_counts, survivors_marks);
    let answer = survivor_calls::surviving_equilibria(counts, payoffs, left, choices, utilities);
    c_outputs::listing_into(answer, total, written)
}

// `strikes`: the answer to each strike into `answers`, its dominator into `dominators`, how many
// were accepted into `number`, and P, the counts and the marks of the survivors into the last three
// outputs, or 1 to 7, 13.
#[unsafe(no_mangle)]
pub extern "C" fn sigvanyor_strikes(
    counts: &[usize],
    payoffs: &[f64],
    players: &[usize],
    strategies: &[usize],
    answers: &mut [u32],
    dominators: &mut [usize],
    number: &mut usize,
    survivors_players: &mut usize,
    survivors_counts: &mut [usize; MAX_PLAYERS],
    survivors_marks: &mut [u8; MAX_MARKS],
) -> u32
    ensures value { result ≡ status (strikes_answer counts.now payoffs.now (calls_of players.now strategies.now) (length answers.old) (length dominators.old)) }
    ensures number_after { number.new ≡ output (strikes_answer counts.now payoffs.now (calls_of players.now strategies.now) (length answers.old) (length dominators.old)) number.old }
    ensures answers_after { answers.new ≡ over (map status (strikes_written counts.now payoffs.now (calls_of players.now strategies.now) (length answers.old) (length dominators.old))) answers.old }
    ensures dominators_after { dominators.new ≡ over (map dominator_of (strikes_written counts.now payoffs.now (calls_of players.now strategies.now) (length answers.old) (length dominators.old))) dominators.old }
    ensures survivors_players_after { survivors_players.new ≡ beside (strikes_answer counts.now payoffs.now (calls_of players.now strategies.now) (length answers.old) (length dominators.old)) (strikes_leave counts.now payoffs.now (calls_of players.now strategies.now) (length answers.old) (length dominators.old)).players survivors_players.old }
    ensures survivors_counts_after { survivors_counts.new ≡ beside (strikes_answer counts.now payoffs.now (calls_of players.now strategies.now) (length answers.old) (length dominators.old)) (strikes_leave counts.now payoffs.now (calls_of players.now strategies.now) (length answers.old) (length dominators.old)).counts survivors_counts.old }
    ensures survivors_marks_after { survivors_marks.new ≡ beside (strikes_answer counts.now payoffs.now (calls_of players.now strategies.now) (length answers.old) (length dominators.old)) (mark_bytes (strikes_leave counts.now payoffs.now (calls_of players.now strategies.now) (length answers.old) (length dominators.old))) survivors_marks.old }
{
    let struck = strike_lists::strikes(counts, payoffs, players, strategies, answers, dominators);
    let left = struck.survivors;
    match struck.answer {
        Ok(accepted) => {
            *number = accepted;
            c_outputs::survivors_into(left, survivors_players, survivors_counts, survivors_marks);
            0
        }
        Err(e) => e.number(),
    }
}

// `read`: the counts and the payoffs of a deposit file into `counts` and `payoffs`, and P into
// `players`, or 17 to 20, 1 to 5, 7, 13.
#[unsafe(no_mangle)]
pub extern "C" fn sigvanyor_read(
    bytes: &[u8],
    counts: &mut [usize],
    payoffs: &mut [f64],
    players: &mut usize,
) -> u32
    ensures value { result ≡ status (read_answer bytes.now counts.old payoffs.old) }
    ensures players_after { players.new ≡ output (read_answer bytes.now counts.old payoffs.old) players.old }
    ensures counts_after { counts.new ≡ read_counts bytes.now counts.old payoffs.old }
    ensures payoffs_after { payoffs.new ≡ read_payoffs bytes.now counts.old payoffs.old }
{
    let answer = deposit_reader::read(bytes, counts, payoffs);
    c_outputs::value_into(answer, players)
}

// `write`: the deposit file of a table into `bytes`, and the number of its bytes into `number`, or
// 1 to 7, 13.
#[unsafe(no_mangle)]
pub extern "C" fn sigvanyor_write(
    counts: &[usize],
    payoffs: &[f64],
    bytes: &mut [u8],
    number: &mut usize,
) -> u32
    ensures value { result ≡ status (write_answer counts.now payoffs.now bytes.old) }
    ensures number_after { number.new ≡ output (write_answer counts.now payoffs.now bytes.old) number.old }
    ensures bytes_after { bytes.new ≡ write_bytes counts.now payoffs.now bytes.old }
{
    let answer = deposit_writer::write(counts, payoffs, bytes);
    c_outputs::value_into(answer, number)
}

// `number`: whether the table has a catalogue number into `listed`, as 1 or 0, and the number, 0
// where it has none, into `number`, or 1 to 7.
#[unsafe(no_mangle)]
pub extern "C" fn sigvanyor_number(
    counts: &[usize],
    payoffs: &[f64],
    listed: &mut u8,
    number: &mut usize,
) -> u32
    ensures value { result ≡ status (number_answer counts.now payoffs.now) }
    ensures listed_after { listed.new ≡ output (told_of some_byte (number_answer counts.now payoffs.now)) listed.old }
    ensures number_after { number.new ≡ output (told_of or_zero (number_answer counts.now payoffs.now)) number.old }
{
    c_outputs::number_into(catalogue::number(counts, payoffs), listed, number)
}

// `verify_correlated_equilibrium_incentives`: the greatest gain, or infinity.
#[unsafe(no_mangle)]
pub extern "C" fn sigvanyor_verify_correlated_equilibrium_incentives(
    m: usize,
    n: usize,
    u1: &[f64],
    u2: &[f64],
    weights: &[f64],
) -> f64
    ensures { result ≡ incentives m n u1.now u2.now weights.now }
{
    candidates::verify_correlated_equilibrium_incentives(m, n, u1, u2, weights)
}

// `verdict`: whether that gain is not over the tolerance.
#[unsafe(no_mangle)]
pub extern "C" fn sigvanyor_verdict(
    m: usize,
    n: usize,
    u1: &[f64],
    u2: &[f64],
    weights: &[f64],
    tolerance: f64,
) -> bool
    ensures { result ≡ verdict_of m n u1.now u2.now weights.now tolerance }
{
    candidates::verdict(m, n, u1, u2, weights, tolerance)
}

// `verify_minimax_residuals`: whether the claim holds.
#[unsafe(no_mangle)]
pub extern "C" fn sigvanyor_verify_minimax_residuals(
    m: usize,
    n: usize,
    payoffs: &[f64],
    p1: &[f64],
    p2: &[f64],
    claim: Claim,
) -> bool
    ensures { result ≡ minimax m n payoffs.now p1.now p2.now claim }
{
    candidates::verify_minimax_residuals(m, n, payoffs, p1, p2, claim)
}
