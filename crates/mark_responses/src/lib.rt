// All best responses of a table in one sweep: a byte for each cell, 1 where the profile's choice is
// a best response of that player and 0 where it is not. The sweep is over marks of strategies, and
// a table is the case where every strategy is marked. Each payoff is read twice, for the greatest
// of its row and to be held against it, and where a row is taken by itself four times, whatever the
// payoffs are.
#![tactic(auto)]

ghost use Rattle.std.specs.Prelude.{◌≡◌, cond, not, map, ℕ, ◌+◌, ◌*◌, ◌<◌, ◌≤◌, T, length, take};
ghost use Rattle.game.specs.Finite.{product};
ghost use Rattle.refusal.specs.Told.{values, told, byte_of};
ghost use Rattle.payoff_order.specs.Order.{finite, greater as above};
ghost use Rattle.written_lists.specs.Outputs.{over};
ghost use Rattle.payoff_tables.specs.Limits.{max_strategies, max_cells, max_marks};
ghost use Rattle.payoff_tables.specs.Table.{stride as stride_of, table_game};
ghost use Rattle.payoff_tables.specs.Meaning.{Finites, Table};
ghost use Rattle.marks.specs.Marks.{marked};
ghost use Rattle.response_marks.specs.Marks.{ones, response_marks};
ghost use Rattle.response_marks.specs.Answers.{marks_answer, marks_written, Counted};
ghost use Rattle.mark_responses.specs.Sweep.{marked_of, Greatest, Spaced, Nested, Within, RowsMarked, PlayerMarked, Ready, run};

use refusal::NormalFormError;
use table::{MAX_MARKS, MAX_STRATEGIES};
use utility::Utility;

// ---- rows, two at a time

// A row's parts are parameters one by one: the definitions of specs/Sweep, which the clauses name,
// take them so.

// How far the cells of a player's marked strategies are from that of strategy 0, ascending, into
// the first places of `steps`: how many. The marks stand from `place` on, and a strategy's cell is
// `step` after the one before.
fn put_steps(
    survivors: &[bool],
    place: usize,
    count: usize,
    step: usize,
    steps: &mut [usize],
) -> usize
    requires count_in_bounds { place + count ≤ length survivors.now }
    requires count_in_bounds_2 { count ≤ length steps.old }
    requires step_bound { count * step ≤ max_cells }
    ensures value { result ≡ length (marked_of survivors.now place count) }
    ensures steps_after { take result steps.new ≡ map (λ t. t * step) (marked_of survivors.now place count) }
{
    let mut number: usize = 0;
    for t in 0..count {
        if survivors[place + t] {
            steps[number] = t * step;
            number += 1;
        }
    }
    number
}

// The greater of two payoffs, or b where neither is.
fn greater(a: f64, b: f64) -> f64
    requires { T (finite a) × T (finite b) }
    ensures { result ≡ cond (above a b) a b }
{
    if Utility::of_finite(a).exceeds(Utility::of_finite(b)) {
        a
    } else {
        b
    }
}

// 1 where b does not exceed a, and else 0.
fn reaches(a: f64, b: f64) -> u8
    requires { T (finite a) × T (finite b) }
    ensures { result ≡ byte_of (not (above b a)) }
{
    let best = !Utility::of_finite(b).exceeds(Utility::of_finite(a));
    u8::from(best)
}

// What `greatest` finds.
#[derive(Clone, Copy)]
struct Tops {
    one: f64,
    other: f64,
}

// The greatest payoffs of two rows. The cells of one are `steps` after `start`, and those of the
// other `gap` after these.
fn greatest(payoffs: &[f64], steps: &[usize], start: usize, gap: usize) -> Tops
    requires finites { Finites payoffs.now }
    requires steps_nonzero { 0 < length steps.now }
    requires within { Within steps.now (Spaced start gap 2) (length payoffs.now) }
    ensures greatest { Greatest payoffs.now steps.now start (length steps.now) result.one }
    ensures greatest_2 { Greatest payoffs.now steps.now (start + gap) (length steps.now) result.other }
{
    let first = start + steps[0];
    let mut one = payoffs[first];
    let mut other = payoffs[first + gap];
    for step in &steps[1..] {
        let cell = start + step;
        one = greater(payoffs[cell], one);
        other = greater(payoffs[cell + gap], other);
    }
    Tops { one, other }
}

// Marks two rows: 1 in the cells whose payoff no other cell of the row exceeds, and 0 in the
// others. With a gap of 0 both are one row.
fn mark_pair(payoffs: &[f64], steps: &[usize], start: usize, gap: usize, marks: &mut [u8])
    requires finites { Finites payoffs.now }
    requires steps_nonzero { 0 < length steps.now }
    requires within { Within steps.now (Spaced start gap 2) (length payoffs.now) }
    requires payoffs_in_bounds { length payoffs.now ≤ length marks.old }
    ensures { RowsMarked payoffs.now steps.now (Spaced start gap 2) marks.old marks.new }
{
    let tops = greatest(payoffs, steps, start, gap);
    for step in steps {
        let cell = start + step;
        marks[cell] = reaches(payoffs[cell], tops.one);
        marks[cell + gap] = reaches(payoffs[cell + gap], tops.other);
    }
}

// Marks `number` rows, each `gap` after the one before, two at a time, and the last by itself where
// their number is odd.
fn mark_rows(
    payoffs: &[f64],
    steps: &[usize],
    start: usize,
    gap: usize,
    number: usize,
    marks: &mut [u8],
)
    requires finites { Finites payoffs.now }
    requires steps_nonzero { 0 < length steps.now }
    requires within { Within steps.now (Spaced start gap number) (length payoffs.now) }
    requires payoffs_len_bound { (length payoffs.now ≤ max_cells) × (length payoffs.now ≤ length marks.old) × (number ≤ max_cells) }
    ensures { RowsMarked payoffs.now steps.now (Spaced start gap number) marks.old marks.new }
{
    for i in (0..number).step_by(2) {
        let other = if i + 1 < number { gap } else { 0 };
        mark_pair(payoffs, steps, start + i * gap, other, marks);
    }
}

// Marks `others` times so many rows, each time `far` after the time before.
fn mark_groups(
    payoffs: &[f64],
    steps: &[usize],
    start: usize,
    far: usize,
    others: usize,
    gap: usize,
    number: usize,
    marks: &mut [u8],
)
    requires finites { Finites payoffs.now }
    requires steps_nonzero { 0 < length steps.now }
    requires within { Within steps.now (Nested start far others gap number) (length payoffs.now) }
    requires payoffs_len_bound { (length payoffs.now ≤ max_cells) × (length payoffs.now ≤ length marks.old) × (0 < number) × (number ≤ max_cells) × (others ≤ max_cells) }
    ensures { RowsMarked payoffs.now steps.now (Nested start far others gap number) marks.old marks.new }
{
    for o in 0..others {
        mark_rows(payoffs, steps, start + o * far, gap, number, marks);
    }
}

// ---- players

// A player's rows stand in blocks: in each of them as many as its stride, side by side. From this
// stride on rows are taken side by side, whose cells lie next to each other in memory, and below it
// those of the same place in all blocks.
const SIDE_BY_SIDE: usize = 4;

// Marks the player's rows. The caller proves that the bytes of choices that are not marked are 0.
fn mark_player(
    counts: &[usize],
    payoffs: &[f64],
    survivors: &[bool],
    profiles: usize,
    player: usize,
    stride: usize,
    steps: &mut [usize],
    marks: &mut [u8],
)
    requires table { Table counts.now payoffs.now }
    requires survivors_len { (length survivors.now ≡ max_marks) × (length steps.old ≡ max_strategies) }
    requires profiles_value { (profiles ≡ product counts.now) × (player < length counts.now) × (stride ≡ stride_of counts.now player) }
    requires payoffs_in_bounds { length payoffs.now ≤ length marks.old }
    requires ready { Ready counts.now survivors.now player marks.old }
    ensures { PlayerMarked counts.now payoffs.now survivors.now player marks.old marks.new }
{
    let players = counts.len();
    let count = counts[player];
    let step = stride * players;
    let number = put_steps(survivors, player * MAX_STRATEGIES, count, step, steps);
    if number == 0 {
        return;
    }
    let block = count * step;
    let blocks = profiles / (count * stride);
    if stride < SIDE_BY_SIDE {
        mark_groups(
            payoffs,
            &steps[..number],
            player,
            players,
            stride,
            block,
            blocks,
            marks,
        );
        return;
    }
    mark_groups(
        payoffs,
        &steps[..number],
        player,
        block,
        blocks,
        players,
        stride,
        marks,
    );
}

// Marks every cell. The caller proves that the table has none of refusals 1 to 7 and `profiles`
// profiles, that there are as many marks of strategies as there may be, and a byte for each cell,
// and that the bytes of choices that are not marked are 0.
pub fn mark_all(
    counts: &[usize],
    payoffs: &[f64],
    survivors: &[bool],
    profiles: usize,
    marks: &mut [u8],
)
    requires table { Table counts.now payoffs.now }
    requires survivors_len { length survivors.now ≡ max_marks }
    requires profiles_value { profiles ≡ product counts.now }
    requires payoffs_in_bounds { length payoffs.now ≤ length marks.old }
    requires by_index { (p : ℕ) → p < length counts.now → Ready counts.now survivors.now p marks.old }
    ensures { marks.new ≡ over (response_marks (table_game counts.now payoffs.now) (marked survivors.now)) marks.old }
{
    let mut steps = [0usize; MAX_STRATEGIES];
    let mut stride: usize = 1;
    for p in (0..counts.len()).rev() {
        mark_player(
            counts, payoffs, survivors, profiles, p, stride, &mut steps, marks,
        );
        stride *= counts[p];
    }
}

// ---- how many

// How many bytes are counted before the number goes to a wider one.
const RUN: usize = 128;

// How many of at most so many bytes are 1. The number is a byte itself, so that the loop is
// compiled to vector instructions.
fn count_run(marks: &[u8]) -> u8
    requires { length marks.now ≤ run }
    ensures { result ≡ ones marks.now }
{
    let mut number: u8 = 0;
    for mark in marks {
        number += u8::from(*mark == 1);
    }
    number
}

// How many of the first `cells` bytes are 1.
fn count_ones(marks: &[u8], cells: usize) -> usize
    requires { cells ≤ length marks.now }
    ensures { result ≡ ones (take cells marks.now) }
{
    let mut number: usize = 0;
    for part in marks[..cells].chunks(RUN) {
        number += usize::from(count_run(part));
    }
    number
}

// ---- the call

// Marks every cell of a table: 1 where the profile's choice is a best response of the cell's
// player, and else 0. How many are 1. Bytes past the cells keep their contents. Or the first of 1
// to 7, and 13 where there are fewer bytes than cells, and nothing is written.
pub fn best_response_marks(
    counts: &[usize],
    payoffs: &[f64],
    marks: &mut [u8],
) -> Result<usize, NormalFormError>
    ensures result_value { told result ≡ marks_answer counts.now payoffs.now (length marks.old) }
    ensures marks_after { marks.new ≡ over (marks_written counts.now payoffs.now (length marks.old)) marks.old }
    ensures by_index { (n : ℕ) → told result ≡ values n → Counted counts.now n marks.new }
{
    let profiles = table::table_profile_count(counts, payoffs)?;
    let cells = payoffs.len();
    if marks.len() < cells {
        return Err(NormalFormError::OutputTooShort);
    }
    let survivors = [true; MAX_MARKS];
    mark_all(counts, payoffs, &survivors, profiles, marks);
    Ok(count_ones(marks, cells))
}
