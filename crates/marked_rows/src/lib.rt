// The profiles in which a player chooses 0 and every other choice is marked, from one to the next,
// by their offsets: the rows that a strategy is tested in. No choice without a mark is passed
// through, and no division is needed.
#![tactic(auto)]

ghost use Rattle.std.specs.Prelude.{◌≡◌, ◌+◌, ◌≤◌, ◌<◌, length};
ghost use Rattle.game.specs.Finite.{product};
ghost use Rattle.payoff_tables.specs.Limits.{max_players, max_marks};
ghost use Rattle.payoff_tables.specs.Meaning.{Shape};
ghost use Rattle.marks.specs.Marks.{marked};
ghost use Rattle.marked_rows.specs.Rows.{NextMark, Kept, MarkedRow, NextRow};

use table::{MAX_PLAYERS, MAX_STRATEGIES};

// The first strategy from `from` on, below `count`, that has a mark among those that start at
// `place`, or `count` where there is none. No Option: it is no plainer, since `next_row` goes back
// by a search that always finds one.
fn next_mark(marks: &[bool], place: usize, from: usize, count: usize) -> usize
    requires from_le_count { from ≤ count }
    requires count_in_bounds { place + count ≤ length marks.now }
    ensures { NextMark marks.now place from count result }
{
    for s in from..count {
        if marks[place + s] {
            return s;
        }
    }
    count
}

// The lowest offset of a profile in which the player chooses 0 and every other choice is marked, or
// `profiles` where there is none. What each other player chooses there goes into `choices`. The
// caller proves that the counts are a table's, that there are as many marks as there may be and
// `profiles` is the number of profiles, and that the player is the table's.
pub fn first_row(
    counts: &[usize],
    marks: &[bool],
    player: usize,
    profiles: usize,
    choices: &mut [u8; MAX_PLAYERS],
) -> usize
    requires shape { Shape counts.now }
    requires marks_len { length marks.now ≡ max_marks }
    requires profiles_value { profiles ≡ product counts.now }
    requires player_in_bounds { player < length counts.now }
    requires choices_len { length choices.old ≡ max_players }
    ensures next_row { NextRow counts.now (marked marks.now) player 0 result }
    ensures kept { result < product counts.now → Kept counts.now player 0 choices.new result }
{
    let mut at: usize = 0;
    let mut stride: usize = 1;
    for q in (0..counts.len()).rev() {
        let count = counts[q];
        if q != player {
            let first = next_mark(marks, q * MAX_STRATEGIES, 0, count);
            if first == count {
                return profiles;
            }
            choices[q] = first as u8;
            at += first * stride;
        }
        stride *= count;
    }
    at
}

// The next such offset after `base`, which is one, or `profiles` where there is none; `choices` has
// the other players' choices at `base`, and then those at the next. From the last player down, each
// choice goes back to its first marked one, until one goes on to its next. The caller proves the
// same, and that `base` and `choices` are as said.
pub fn next_row(
    counts: &[usize],
    marks: &[bool],
    player: usize,
    profiles: usize,
    base: usize,
    choices: &mut [u8; MAX_PLAYERS],
) -> usize
    requires shape { Shape counts.now }
    requires marks_len { length marks.now ≡ max_marks }
    requires profiles_value { profiles ≡ product counts.now }
    requires player_in_bounds { player < length counts.now }
    requires marked_row { MarkedRow counts.now (marked marks.now) player base }
    requires kept { Kept counts.now player 0 choices.old base }
    ensures next_row { NextRow counts.now (marked marks.now) player (base + 1) result }
    ensures kept_2 { result < product counts.now → Kept counts.now player 0 choices.new result }
{
    let mut at = base;
    let mut stride: usize = 1;
    for q in (0..counts.len()).rev() {
        let count = counts[q];
        if q != player {
            let place = q * MAX_STRATEGIES;
            let choice = choices[q] as usize;
            let next = next_mark(marks, place, choice + 1, count);
            if next < count {
                choices[q] = next as u8;
                return at + (next - choice) * stride;
            }
            let first = next_mark(marks, place, 0, count);
            choices[q] = first as u8;
            at -= (choice - first) * stride;
        }
        stride *= count;
    }
    profiles
}
