// Strikes tables in several orders each, until no survivor is dominated, and compares. The tables
// and the orders come from a generator with a fixed seed. An order is a list of single strikes,
// every second of them drawn, so that many name no player, no strategy, a struck one or one that
// nothing dominates. After each order this must hold:
//     the survivors are those of the table's first order;
//     the accepted strikes and the marks together are as many as the strategies of the table;
//     `surviving_equilibria` returns and writes what `equilibria` does, bits of payoffs included,
//     and the same total into short outputs, and after each accepted strike too;
//     `strikes` on the same list answers, and leaves, the same.
// Only counts are printed, and the table's number where one of these does not hold.
#![tactic(auto)]

use refusal::{Listed, NormalFormError};
use std::alloc::{AllocError, Global};
use std::io;
use survivors::Survivors;
use table::{MAX_PLAYERS, MAX_STRATEGIES};
use test_print::print_lines;

const TABLES: usize = 1000;

const ORDERS: usize = 4;

// How many places the sweep goes on in each order of a table. None has a factor in common with the
// number of places.
const PACES: [usize; ORDERS] = [1, 5, 7, 11];

// The most players of a table.
const PLAYERS: usize = 4;

// The most that the number of players and a count are together. Drawn strategies are below it.
const SPREAD: usize = 7;

// The most cells of a table: 4 players with 3 strategies each.
const CELLS: usize = 324;

// How many strategies of each player the sweep of an order tries: the most that a player has.
const WIDTH: usize = 6;

// The most strikes of an order: 4 players have 24 places of the sweep, which are passed in 48
// strikes, after the start and after each of 8 accepted strikes.
const CALLS: usize = 432;

const SEED: u64 = 88172645463325252;

// What stands in each element of an output before the call.
const FILLING: usize = 100;

const FLOAT_FILLING: f64 = 100.0;

// ---- the generator

// The number after x.
fn next(x: u64) -> u64 {
    let a = x ^ (x << 13);
    let b = a ^ (a >> 7);
    b ^ (b << 17)
}

// The remainder by n, or 0 where n is 0.
fn modulo(a: usize, n: usize) -> usize {
    a.checked_rem(n).unwrap_or(0)
}

// A number below n that x gives, or 0.
fn below(x: u64, n: usize) -> usize {
    modulo((x >> 11) as usize, n)
}

fn add(count: &mut usize, n: usize) {
    *count = count.saturating_add(n);
}

// ---- tables

// How a payoff is drawn: among three values, where a level is worth so much more than the one below
// it; or as minus the distance of twice the own level from the next player's: the highest levels are
// dominated, and once they are struck, those below them.
#[derive(Clone, Copy)]
enum Kind {
    Worth(usize),
    Distance,
}

// A table that was drawn, and the number that the generator came to.
#[derive(Drop)]
struct Drawn {
    counts: Vec<usize>,
    payoffs: Vec<f64>,
    x: u64,
}

// Up to 6 strategies of a single player, and one less for each player more.
fn drawn_counts(players: usize, x: u64, alloc: Global) -> Result<Vec<usize>, AllocError> {
    let most = SPREAD.saturating_sub(players);
    let mut counts = Vec::new(alloc);
    let mut y = x;
    for _ in 0..players {
        counts.push(below(y, most).saturating_add(1))?;
        y = next(y);
    }
    Ok(counts)
}

// The level of a player's choice: the strategies, from one on that the shift gives, have the levels
// 0, 1 and so on.
fn level(counts: &[usize], profile: &[usize; MAX_PLAYERS], player: usize, shift: usize) -> f64 {
    match (counts.get(player), profile.get(player)) {
        (Some(count), Some(choice)) => {
            let moved = choice.wrapping_add(shift).wrapping_add(player);
            std::num::nearest_usize_to_f64(modulo(moved, *count))
        }
        _ => 0.0,
    }
}

// A player's payoff. A zero has either sign.
fn drawn_payoff(
    counts: &[usize],
    profile: &[usize; MAX_PLAYERS],
    player: usize,
    kind: Kind,
    shift: usize,
    x: u64,
) -> f64 {
    let own = level(counts, profile, player, shift);
    let value = match kind {
        Kind::Distance => {
            let after = modulo(player.wrapping_add(1), counts.len());
            -(own + own - level(counts, profile, after, shift)).abs()
        }
        Kind::Worth(worth) => {
            let drawn = std::num::nearest_usize_to_f64(below(x, 3));
            drawn - 2.0 + own * std::num::nearest_usize_to_f64(worth)
        }
    };
    if value != 0.0 {
        value
    } else if x % 2 == 1 {
        -0.0
    } else {
        0.0
    }
}

// Draws the table of a number. The numbers of players and the kinds take turns.
fn drawn_table(table: usize, x: u64, alloc: Global) -> Result<Drawn, AllocError> {
    let counts = drawn_counts(table % PLAYERS + 1, x, alloc)?;
    let kind = match table / PLAYERS % 4 {
        3 => Kind::Distance,
        worth => Kind::Worth(worth),
    };
    let shift = below(x, WIDTH);
    let mut y = next(x);
    let mut payoffs = Vec::new(alloc);
    let mut profile = [0; MAX_PLAYERS];
    for _ in 0..CELLS {
        for player in 0..counts.len() {
            y = next(y);
            payoffs.push(drawn_payoff(&counts, &profile, player, kind, shift, y))?;
        }
        let step = profile_step::advance_profile(&counts, profile);
        if !step.more {
            break;
        }
        profile = step.profile;
    }
    Ok(Drawn {
        counts,
        payoffs,
        x: y,
    })
}

// ---- the counts that are printed

// What is counted, and the table of each order that differs.
#[derive(Drop)]
struct Tally {
    tables: usize,
    orders: usize,
    accepted: usize,
    dominators: usize,
    no_player: usize,
    no_strategy: usize,
    not_dominated: usize,
    equilibria: usize,
    struck: usize,
    several: usize,
    other_refusals: usize,
    differing: Vec<usize>,
}

impl Tally {
    fn new(alloc: Global) -> Tally {
        Tally {
            tables: 0,
            orders: 0,
            accepted: 0,
            dominators: 0,
            no_player: 0,
            no_strategy: 0,
            not_dominated: 0,
            equilibria: 0,
            struck: 0,
            several: 0,
            other_refusals: 0,
            differing: Vec::new(alloc),
        }
    }

    // Counts what a strike answered. Any other refusal than these three is a difference.
    fn add_answer(&mut self, answer: Result<usize, NormalFormError>) {
        match answer {
            Ok(dominator) => {
                add(&mut self.accepted, 1);
                add(&mut self.dominators, dominator);
            }
            Err(NormalFormError::InvalidPlayer) => add(&mut self.no_player, 1),
            Err(NormalFormError::NoSurvivingStrategy) => add(&mut self.no_strategy, 1),
            Err(NormalFormError::NotDominated) => add(&mut self.not_dominated, 1),
            Err(_) => add(&mut self.other_refusals, 1),
        }
    }

    fn tell(&self, out: &mut String) -> Result<(), AllocError> {
        for table in self.differing.iter() {
            writeln!(out, "table {table} differs")?;
        }
        let differences = self.other_refusals.saturating_add(self.differing.len());
        writeln!(out, "tables {}", self.tables)?;
        writeln!(out, "orders {}", self.orders)?;
        writeln!(out, "accepted {}", self.accepted)?;
        writeln!(out, "their dominators, summed {}", self.dominators)?;
        writeln!(out, "refused 8, {}", self.no_player)?;
        writeln!(out, "refused 14, {}", self.no_strategy)?;
        writeln!(out, "refused 15, {}", self.not_dominated)?;
        writeln!(out, "equilibria compared {}", self.equilibria)?;
        writeln!(out, "tables in which something was struck {}", self.struck)?;
        writeln!(out, "of several players {}", self.several)?;
        writeln!(out, "differences {differences}")
    }
}

// ---- what is compared

// Whether two floats have the same bits: they are equal, and zeros of one sign. No NaN is compared.
fn same_bits(a: f64, b: f64) -> bool {
    a == b && 1.0 / a == 1.0 / b
}

// What a listing told, as numbers that can be compared.
fn told(r: Result<Listed, NormalFormError>) -> Result<(usize, usize), NormalFormError> {
    r.map(|listed| (listed.total, listed.written))
}

// How many equilibria the survivors' listing tells, into outputs of one element.
fn short_total(
    counts: &[usize],
    payoffs: &[f64],
    left: Survivors,
) -> Result<usize, NormalFormError> {
    let mut choices = [FILLING; 1];
    let mut utilities = [FLOAT_FILLING; 1];
    let listed = survivor_calls::surviving_equilibria(
        counts,
        payoffs,
        left,
        &mut choices,
        &mut utilities,
    )?;
    Ok(listed.total)
}

// Whether both listings told and wrote the same, and told the same total into short outputs. Counts
// the equilibria.
fn same_listings(
    counts: &[usize],
    payoffs: &[f64],
    left: Survivors,
    equilibria: &mut usize,
) -> bool {
    let mut choices = [FILLING; CELLS];
    let mut utilities = [FLOAT_FILLING; CELLS];
    let mut whole_choices = [FILLING; CELLS];
    let mut whole_utilities = [FLOAT_FILLING; CELLS];
    let surviving = told(survivor_calls::surviving_equilibria(
        counts,
        payoffs,
        left,
        &mut choices,
        &mut utilities,
    ));
    let whole = told(pure_nash::equilibria(
        counts,
        payoffs,
        &mut whole_choices,
        &mut whole_utilities,
    ));
    let total = whole.map(|numbers| numbers.0);
    add(equilibria, total.unwrap_or(0));
    surviving == whole
        && short_total(counts, payoffs, left) == total
        && choices == whole_choices
        && utilities
            .iter()
            .zip(whole_utilities.iter())
            .all(|(a, b)| same_bits(*a, *b))
}

fn same_survivors(a: Survivors, b: Survivors) -> bool {
    a.players == b.players && a.counts == b.counts && a.marks == b.marks
}

// How many strategies survive.
fn mark_count(left: Survivors) -> usize {
    left.marks.iter().filter(|marked| **marked).count()
}

// How many players have a struck strategy.
fn struck_players(counts: &[usize], left: Survivors) -> usize {
    left.marks
        .chunks_exact(MAX_STRATEGIES)
        .zip(counts.iter())
        .filter(|(marks, count)| marks.iter().take(**count).any(|marked| !*marked))
        .count()
}

// ---- an order

// How far an order has come: the generator's number, the last strike and what it answered, how many
// were accepted, the survivors, the place of the sweep, how many strikes of the sweep were refused
// since the last accepted strike, and whether the listings agreed.
#[derive(Clone, Copy)]
struct Progress {
    x: u64,
    player: usize,
    strategy: usize,
    answer: Result<usize, NormalFormError>,
    accepted: usize,
    left: Survivors,
    place: usize,
    quiet: usize,
    good: bool,
}

// An order before its first strike.
fn started(counts: &[usize], payoffs: &[f64], x: u64) -> Progress {
    Progress {
        x,
        player: 0,
        strategy: 0,
        answer: Ok(0),
        accepted: 0,
        left: survivors::fresh(counts, payoffs).survivors,
        place: below(x, WIDTH.wrapping_mul(counts.len())),
        quiet: 0,
        good: true,
    }
}

impl Progress {
    // Chooses the next strike of the sweep, which goes on by `pace` places.
    fn sweep(&mut self, places: usize, pace: usize) {
        self.x = next(self.x);
        self.player = self.place / WIDTH;
        self.strategy = self.place % WIDTH;
        self.place = modulo(self.place.wrapping_add(pace), places);
        self.quiet = self.quiet.saturating_add(1);
    }

    // Draws the next strike. Often there is no such player or no such strategy, and sometimes either
    // number is a large one.
    fn draw(&mut self, players: usize) {
        let x = next(self.x);
        self.x = x;
        self.player = if x % 32 == 0 {
            x as usize
        } else {
            below(x, players.wrapping_add(1))
        };
        self.strategy = if x % 32 == 1 {
            x as usize
        } else {
            below(next(x), SPREAD)
        };
    }

    // Makes the strike that was chosen, counts it and, where it was accepted, compares the listings.
    fn strike(&mut self, counts: &[usize], payoffs: &[f64], tally: &mut Tally) {
        let made = survivor_calls::strike(counts, payoffs, self.left, self.player, self.strategy);
        self.left = made.survivors;
        self.answer = made.answer;
        if made.answer.is_ok() {
            add(&mut self.accepted, 1);
            self.quiet = 0;
            let same = same_listings(counts, payoffs, self.left, &mut tally.equilibria);
            self.good = self.good && same;
        }
        tally.add_answer(made.answer);
    }
}

// The strikes of an order, each with its answer as `strikes` writes it: 0 or the refusal, and the
// dominator or 0.
#[derive(Drop)]
struct Strikes {
    players: Vec<usize>,
    strategies: Vec<usize>,
    answers: Vec<u32>,
    dominators: Vec<usize>,
}

impl Strikes {
    fn new(alloc: Global) -> Strikes {
        Strikes {
            players: Vec::new(alloc),
            strategies: Vec::new(alloc),
            answers: Vec::new(alloc),
            dominators: Vec::new(alloc),
        }
    }

    fn push(&mut self, p: &Progress) -> Result<(), AllocError> {
        self.players.push(p.player)?;
        self.strategies.push(p.strategy)?;
        self.answers.push(match p.answer {
            Ok(_) => 0,
            Err(e) => e.number(),
        })?;
        self.dominators.push(p.answer.unwrap_or(0))?;
        Ok(())
    }

    // Whether `strikes` on the list does what the single strikes did, and writes nothing past it.
    fn are_list(
        &mut self,
        counts: &[usize],
        payoffs: &[f64],
        p: &Progress,
    ) -> Result<bool, AllocError> {
        let mut answers = [0; CALLS];
        let mut dominators = [0; CALLS];
        let made = strike_lists::strikes(
            counts,
            payoffs,
            &self.players,
            &self.strategies,
            &mut answers,
            &mut dominators,
        );
        self.answers.resize(CALLS, 0)?;
        self.dominators.resize(CALLS, 0)?;
        Ok(
            made.answer == Ok(p.accepted)
                && same_survivors(made.survivors, p.left)
                && self.answers.as_slice() == answers.as_slice()
                && self.dominators.as_slice() == dominators.as_slice(),
        )
    }
}

// Strikes until the sweep has been through all of its places since the last accepted strike, and
// has `strikes` do the same.
fn one_order(
    counts: &[usize],
    payoffs: &[f64],
    x: u64,
    pace: usize,
    tally: &mut Tally,
    alloc: Global,
) -> Result<Progress, AllocError> {
    let places = WIDTH.wrapping_mul(counts.len());
    let mut p = started(counts, payoffs, x);
    let mut strikes = Strikes::new(alloc);
    for i in 0..CALLS {
        if places <= p.quiet {
            break;
        }
        if i % 2 == 1 {
            p.sweep(places, pace);
        } else {
            p.draw(counts.len());
        }
        p.strike(counts, payoffs, tally);
        strikes.push(&p)?;
    }
    let same = strikes.are_list(counts, payoffs, &p)?;
    p.good = p.good && same && places <= p.quiet;
    Ok(p)
}

// ---- the orders of a table

// Whether an order has come out right, of a table whose first order left `base`.
fn is_right(
    counts: &[usize],
    payoffs: &[f64],
    base: Survivors,
    p: Progress,
    tally: &mut Tally,
) -> bool {
    let strategies = counts
        .iter()
        .fold(0usize, |sum, count| sum.saturating_add(*count));
    let same = same_listings(counts, payoffs, p.left, &mut tally.equilibria);
    p.good
        && same
        && same_survivors(p.left, base)
        && p.accepted.saturating_add(mark_count(p.left)) == strategies
}

// Counts a table, whose first order left `base`.
fn count_table(counts: &[usize], base: Survivors, tally: &mut Tally) {
    let players = struck_players(counts, base);
    add(&mut tally.tables, 1);
    if players > 0 {
        add(&mut tally.struck, 1);
    }
    if players > 1 {
        add(&mut tally.several, 1);
    }
}

// Draws a table and runs its orders. The number that the generator came to.
fn run_table(table: usize, x: u64, tally: &mut Tally, alloc: Global) -> Result<u64, AllocError> {
    let drawn = drawn_table(table, x, alloc)?;
    let mut x = drawn.x;
    let mut base = None;
    for pace in PACES {
        let p = one_order(&drawn.counts, &drawn.payoffs, x, pace, tally, alloc)?;
        let base = match base {
            Some(base) => base,
            None => {
                count_table(&drawn.counts, p.left, tally);
                base = Some(p.left);
                p.left
            }
        };
        add(&mut tally.orders, 1);
        if !is_right(&drawn.counts, &drawn.payoffs, base, p, tally) {
            tally.differing.push(table)?;
        }
        x = p.x;
    }
    Ok(x)
}

fn main(rt: HostRuntime) -> io::Result<()> {
    let mut tally = Tally::new(rt.alloc());
    let mut x = SEED;
    for table in 0..TABLES {
        x = run_table(table, x, &mut tally, rt.alloc())?;
    }
    let mut out = String::new(rt.alloc());
    tally.tell(&mut out)?;
    print_lines(&out, &rt)
}
