// The profiles of a table by their marks, a byte for each cell, written down: P choices and P
// payoffs of each, one after the other, in profile order, as far as both outputs hold them whole.
#![tactic(auto)]

ghost use Rattle.std.specs.Prelude.{◌≡◌, [], ◌++◌, ◌+◌, ◌<◌, ◌≤◌, length, get_or, take, drop};
ghost use Rattle.game.specs.Finite.{product};
ghost use Rattle.game.specs.Game.{profiles};
ghost use Rattle.payoff_tables.specs.Table.{profile_part};
ghost use Rattle.payoff_tables.specs.Meaning.{Shape, Table};
ghost use Rattle.equilibria.specs.Answers.{Wrote};
ghost use Rattle.response_marks.specs.Marks.{no_zero, marked_profiles};
ghost use Rattle.profile_listing.specs.Entry.{Before};

use refusal::Listed;

// ---- one entry

// Writes the choices of the profile with offset k, from `at` on.
fn put_choices(counts: &[usize], k: usize, choices: &mut [usize], at: usize)
    requires shape { Shape counts.now }
    requires k_bound { k < product counts.now }
    requires counts_in_bounds { at + length counts.now ≤ length choices.old }
    ensures { choices.new ≡ take at choices.old ++ (get_or (profiles counts.now) k [] ++ drop (at + length counts.now) choices.old) }
{
    let mut rest = k;
    for p in (0..counts.len()).rev() {
        let count = counts[p];
        choices[at + p] = rest % count;
        rest /= count;
    }
}

// The same, where the choices of the profile before it stand before `at`: one step from these,
// without a division.
fn put_next_choices(counts: &[usize], k: usize, choices: &mut [usize], at: usize)
    requires shape { Shape counts.now }
    requires k_bound { k < product counts.now }
    requires counts_in_bounds { at + length counts.now ≤ length choices.old }
    requires before { Before counts.now k choices.old at }
    ensures { choices.new ≡ take at choices.old ++ (get_or (profiles counts.now) k [] ++ drop (at + length counts.now) choices.old) }
{
    let players = counts.len();
    let mut up = true;
    for p in (0..players).rev() {
        let mut choice = choices[at - players + p];
        if up {
            choice += 1;
            up = choice == counts[p];
            if up {
                choice = 0;
            }
        }
        choices[at + p] = choice;
    }
}

// Writes its payoffs, from `at` on. They are few: with `copy_from_slice` listings were slower, by a
// fifth where every profile is listed.
fn put_utilities(counts: &[usize], payoffs: &[f64], k: usize, utilities: &mut [f64], at: usize)
    requires table { Table counts.now payoffs.now }
    requires k_bound { k < product counts.now }
    requires counts_in_bounds { at + length counts.now ≤ length utilities.old }
    ensures { utilities.new ≡ take at utilities.old ++ (profile_part counts.now payoffs.now (get_or (profiles counts.now) k []) ++ drop (at + length counts.now) utilities.old) }
{
    let players = counts.len();
    for p in (0..players).rev() {
        utilities[at + p] = payoffs[k * players + p];
    }
}

// Writes the choices and the payoffs of the profile with offset k, from `at` on. Where `after` is
// k, the choices of the profile before it stand before `at`.
fn put_entry(
    counts: &[usize],
    payoffs: &[f64],
    k: usize,
    after: usize,
    choices: &mut [usize],
    utilities: &mut [f64],
    at: usize,
)
    requires table { Table counts.now payoffs.now }
    requires k_bound { k < product counts.now }
    requires counts_in_bounds { (at + length counts.now ≤ length choices.old) × (at + length counts.now ≤ length utilities.old) }
    requires before { k ≡ after → Before counts.now k choices.old at }
    ensures choices_after { choices.new ≡ take at choices.old ++ (get_or (profiles counts.now) k [] ++ drop (at + length counts.now) choices.old) }
    ensures utilities_after { utilities.new ≡ take at utilities.old ++ (profile_part counts.now payoffs.now (get_or (profiles counts.now) k []) ++ drop (at + length counts.now) utilities.old) }
{
    put_utilities(counts, payoffs, k, utilities, at);
    if k == after {
        put_next_choices(counts, k, choices, at);
        return;
    }
    put_choices(counts, k, choices, at);
}

// ---- all entries

// Whether none of the marks at `number` places from `at` on is 0. With `iter().all(..)` listings
// were slower, by a tenth where every profile is listed.
fn all_marked(marks: &[u8], at: usize, number: usize) -> bool
    requires { at + number ≤ length marks.now }
    ensures { result ≡ no_zero marks.now at number }
{
    for p in 0..number {
        if marks[at + p] == 0 {
            return false;
        }
    }
    true
}

// Writes the first of the profiles that have no 0 among their P marks, as many as both outputs hold
// whole: how many there are, and how many are written. Elements past those written keep their
// contents. The caller proves that the table has none of refusals 1 to 7 and `profiles` profiles,
// and that there is a mark for each cell.
pub fn list_marked(
    counts: &[usize],
    payoffs: &[f64],
    marks: &[u8],
    profiles: usize,
    choices: &mut [usize],
    utilities: &mut [f64],
) -> Listed
    requires table { Table counts.now payoffs.now }
    requires profiles_value { (profiles ≡ product counts.now) × (length payoffs.now ≤ length marks.now) }
    ensures { Wrote counts.now payoffs.now (marked_profiles counts.now marks.now) choices.old choices.new utilities.old utilities.new result }
{
    let players = counts.len();
    let room = choices.len().min(utilities.len());
    let mut total: usize = 0;
    let mut written: usize = 0;
    let mut after = profiles;
    for k in 0..profiles {
        if all_marked(marks, k * players, players) {
            let at = written * players;
            if at + players <= room {
                put_entry(counts, payoffs, k, after, choices, utilities, at);
                after = k + 1;
                written += 1;
            }
            total += 1;
        }
    }
    Listed { total, written }
}
