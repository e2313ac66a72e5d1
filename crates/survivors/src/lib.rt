// The survivors of a table: the record, fresh survivors, which survivors are foreign, and the
// survivors without one mark. Survivors are a record by value, and any record may be handed in.
#![tactic(auto)]

ghost use Rattle.std.specs.Prelude.{◌≡◌, ◌<◌, length};
ghost use Rattle.game.specs.Game.{strategy as named};
ghost use Rattle.refusal.specs.Told.{told, unless, unless_refused};
ghost use Rattle.payoff_tables.specs.Limits.{max_players, max_strategies, max_marks};
ghost use Rattle.payoff_tables.specs.Checks.{table_refusal};
ghost use Rattle.marks.specs.Marks.{marked};
ghost use Rattle.survivors.specs.Survivors.{without_mark, all_marks, fresh_of, no_survivors, marked_from, foreign};

use refusal::NormalFormError;
use table::{MAX_MARKS, MAX_PLAYERS, MAX_STRATEGIES, StrategySpace};

// The survivors of a table, document 01's term: P, the counts, and a mark for each strategy that
// survives, as many places to a player as it may have strategies. As `fresh` and `strike` make
// them, a player from P on has count 0 and no mark.
#[derive(Clone, Copy)]
pub struct Survivors {
    pub players: usize,
    pub counts: [usize; MAX_PLAYERS],
    pub marks: [bool; MAX_MARKS],
}

// Whether a table was accepted, beside its fresh survivors. It is no `Result`, since document 01
// has survivors beside a refusal too: P 0, counts 0 and no mark.
#[derive(Clone, Copy)]
pub struct FreshResult {
    pub answer: Result<(), NormalFormError>,
    pub survivors: Survivors,
}

// ---- fresh survivors

// The survivors of a space, every strategy below its count marked.
pub fn all_marked(space: StrategySpace) -> Survivors
    ensures { (result.players ≡ space.players) × (result.counts ≡ space.counts) × (result.marks ≡ all_marks space.counts) }
{
    let counts = space.counts;
    let mut marks = [true; MAX_MARKS];
    for i in 0..MAX_MARKS {
        let player = i / MAX_STRATEGIES;
        if counts[player] <= i % MAX_STRATEGIES {
            marks[i] = false;
        }
    }
    Survivors {
        players: space.players,
        counts,
        marks,
    }
}

// The survivors of no table, which a refusal stands beside: P 0, counts 0 and no mark.
pub fn none() -> Survivors
    ensures { result ≡ no_survivors }
{
    Survivors {
        players: 0,
        counts: [0usize; MAX_PLAYERS],
        marks: [false; MAX_MARKS],
    }
}

// The fresh survivors of a table: every strategy marked. Or the first of refusals 1 to 7, beside P
// 0, counts 0 and no mark.
pub fn fresh(counts: &[usize], payoffs: &[f64]) -> FreshResult
    ensures answer_value { told result.answer ≡ unless (table_refusal counts.now payoffs.now) tt }
    ensures survivors_value { result.survivors ≡ unless_refused (table_refusal counts.now payoffs.now) (fresh_of counts.now) no_survivors }
{
    match table::payoff_matrix(counts, payoffs) {
        Ok(space) => FreshResult {
            answer: Ok(()),
            survivors: all_marked(space),
        },
        Err(e) => FreshResult {
            answer: Err(e),
            survivors: none(),
        },
    }
}

// ---- foreign survivors

// Whether the player has a mark at or past the place `from`.
fn marked_from(marks: &[bool], player: usize, from: usize) -> bool
    requires marks_len { length marks.now ≡ max_marks }
    requires player_lt_max_players { player < max_players }
    ensures { result ≡ marked_from (marked marks.now) player from }
{
    let place = player * MAX_STRATEGIES;
    for s in from..MAX_STRATEGIES {
        if marks[place + s] {
            return true;
        }
    }
    false
}

// Whether the survivors are foreign to a table with these counts.
pub fn is_foreign(counts: &[usize], survivors: Survivors) -> bool
    ensures { result ≡ foreign counts.now survivors }
{
    if survivors.players != counts.len() {
        return true;
    }
    let held = survivors.counts;
    let marks = survivors.marks;
    for p in 0..MAX_PLAYERS {
        let mut count = 0;
        if p < counts.len() {
            count = counts[p];
            if !marked_from(&marks, p, 0) {
                return true;
            }
        }
        if held[p] != count {
            return true;
        }
        if marked_from(&marks, p, count) {
            return true;
        }
    }
    // no player past the limit has a mark
    MAX_PLAYERS < counts.len()
}

// ---- one mark less

// The survivors without one mark. The caller proves that the player and the strategy are below the
// limits.
pub fn without_mark(survivors: Survivors, player: usize, strategy: usize) -> Survivors
    requires { (player < max_players) × (strategy < max_strategies) }
    ensures { result ≡ without_mark survivors (named player strategy) }
{
    let mut left = survivors;
    left.marks[player * MAX_STRATEGIES + strategy] = false;
    left
}
