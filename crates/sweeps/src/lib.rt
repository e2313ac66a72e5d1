// Strikes sweep after sweep: players then strategies ascending, until a sweep strikes nothing.
#![tactic(auto)]

ghost use Rattle.std.specs.Prelude.{◌≡◌, [], ◌∷◌, map, ◌<◌, length, get_or};
ghost use Rattle.std.proofs.lemmas.List.Edits.{sets};
ghost use Rattle.game.specs.Finite.{below};
ghost use Rattle.game.specs.Game.{strategy as named};
ghost use Rattle.payoff_tables.specs.Meaning.{Table};
ghost use Rattle.outputs.specs.Put.{past, Puts};
ghost use Rattle.strike_sweeps.specs.Sweeps.{sweep_calls, sweeps, strikes_numbers};
ghost use Rattle.strike_sweeps.specs.Meaning.{DoneInto};
ghost use Rattle.sweeps.specs.Progress.{Ready, Runs};

use survivor_calls::StrikeResult;
use survivors::Survivors;

// The place after the strikes that were written, beside the survivors.
#[derive(Clone, Copy)]
pub struct SweepsResult {
    pub end: usize,
    pub survivors: Survivors,
}

// Where a list of strike calls has come to: the place after the strikes that were written, whether
// any call was accepted, and the survivors.
#[derive(Clone, Copy)]
struct Progress {
    end: usize,
    any: bool,
    survivors: Survivors,
}

// Puts a strike into the output as three numbers. The place after them, or the end.
fn put_strike(
    struck: &mut [usize],
    at: usize,
    player: usize,
    strategy: usize,
    dominator: usize,
) -> usize
    ensures { Puts struck.old at (player ∷ strategy ∷ dominator ∷ []) result struck.new }
{
    let second = outputs::put(struck, at, player);
    let third = outputs::put(struck, second, strategy);
    outputs::put(struck, third, dominator)
}

// The table that is struck, and how many profiles it has.
#[derive(Clone, Copy)]
struct StruckTable<'a> {
    counts: &'a [usize],
    payoffs: &'a [f64],
    profiles: usize,
}

impl<'a> StruckTable<'a> {
    // One strike, put into the output where it is accepted.
    fn strike_one(
        self,
        from: Progress,
        player: usize,
        strategy: usize,
        struck: &mut [usize],
    ) -> Progress
        requires { Ready self.counts.now self.payoffs.now self.profiles from struck.old }
        ensures { Runs self.entry.counts.now self.entry.payoffs.now (named player strategy ∷ []) from struck.old result struck.new }
    {
        let StrikeResult { answer, survivors } = survivor_calls::strike_marked(
            self.counts,
            self.payoffs,
            self.profiles,
            from.survivors,
            player,
            strategy,
        );
        match answer {
            Ok(t) => Progress {
                end: put_strike(struck, from.end, player, strategy, t),
                any: true,
                survivors,
            },
            Err(_) => Progress { survivors, ..from },
        }
    }

    // A strike of each strategy of a player, ascending.
    fn strike_player(self, from: Progress, player: usize, struck: &mut [usize]) -> Progress
        requires ready { Ready self.counts.now self.payoffs.now self.profiles from struck.old }
        requires player_in_bounds { player < length self.counts.now }
        ensures { Runs self.entry.counts.now self.entry.payoffs.now (map (named player) (below (get_or self.entry.counts.now player 0))) from struck.old result struck.new }
    {
        let mut progress = from;
        for s in 0..self.counts[player] {
            progress = self.strike_one(progress, player, s, struck);
        }
        progress
    }

    // A sweep: a strike of each strategy of each player, ascending.
    fn sweep(self, from: Progress, struck: &mut [usize]) -> Progress
        requires { Ready self.counts.now self.payoffs.now self.profiles from struck.old }
        ensures { Runs self.entry.counts.now self.entry.payoffs.now (sweep_calls self.entry.counts.now self.entry.payoffs.now) from struck.old result struck.new }
    {
        let mut progress = from;
        for p in 0..self.counts.len() {
            progress = self.strike_player(progress, p, struck);
        }
        progress
    }
}

// Strikes the table sweep after sweep from its fresh survivors, until a sweep strikes nothing. Each
// accepted strike is put into `struck` as three numbers, its player, strategy and lowest dominator,
// in strike order and as far as there is room. The place after them, beside the survivors. The
// caller proves that the table has none of refusals 1 to 7.
pub fn sweeps(counts: &[usize], payoffs: &[f64], struck: &mut [usize]) -> SweepsResult
    requires { Table counts.now payoffs.now }
    ensures end_value { result.end ≡ past struck.old 0 (strikes_numbers (sweeps counts.now payoffs.now).strikes) }
    ensures survivors_value { result.survivors ≡ (sweeps counts.now payoffs.now).survivors }
    ensures struck_after { struck.new ≡ sets struck.old 0 (strikes_numbers (sweeps counts.now payoffs.now).strikes) }
    ensures done_into { DoneInto counts.now payoffs.now result.survivors struck.old result.end struck.new }
{
    let table = StruckTable {
        counts,
        payoffs,
        // the table has P payoffs for each profile
        profiles: payoffs.len() / counts.len(),
    };
    let mut progress = Progress {
        end: 0,
        any: true,
        survivors: survivors::fresh(counts, payoffs).survivors,
    };
    while progress.any {
        let from = Progress {
            any: false,
            ..progress
        };
        progress = table.sweep(from, struck);
    }
    SweepsResult {
        end: progress.end,
        survivors: progress.survivors,
    }
}
