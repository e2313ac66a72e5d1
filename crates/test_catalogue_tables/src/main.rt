// The catalogue's numbers of all 65,536 tables of two players with 2 strategies each whose payoffs
// are 0, 1, 2 or 3. The eight base-4 digits of k, from 0 to 65,535, are such a table, player 0's
// payoffs at the four profiles in order and then player 1's, so that k is the key of a strictly
// ranked one. A line for each number of the catalogue: how often it came, and the keys of the first
// four tables. 576 tables are strictly ranked, so each comes four times; the others have ties, and
// how many had no number is the last line.
#![tactic(auto)]

ghost use Rattle.std.specs.Prelude.{◌<◌};

use catalogue::KEYS;
use std::alloc::AllocError;
use std::io;
use test_print::{print_lines, tell_all};

// How many tables of eight digits there are.
const TABLES: usize = 65536;

// How many tables of each number are told by their keys.
const EACH: usize = 4;

// How often a number came, and the keys of the first tables that it came for.
#[derive(Clone, Copy)]
struct Tally {
    times: usize,
    keys: [usize; EACH],
}

impl Tally {
    // Counts that the table of this key has the number.
    fn note(&mut self, key: usize) {
        if let Some(place) = self.keys.get_mut(self.times) {
            *place = key;
        }
        self.times = self.times.saturating_add(1);
    }
}

// The base-4 digit of k that is worth `worth`.
fn digit(k: usize, worth: usize) -> f64
    requires { 0 < worth }
{
    std::num::nearest_usize_to_f64(k / worth % 4)
}

// The table whose digits are those of k, profile after profile.
fn table_of(k: usize) -> [f64; 8] {
    [
        digit(k, 16384),
        digit(k, 64),
        digit(k, 4096),
        digit(k, 16),
        digit(k, 1024),
        digit(k, 4),
        digit(k, 256),
        digit(k, 1),
    ]
}

// Notes each table's number; how many had none.
fn survey(tallies: &mut [Tally; KEYS]) -> usize {
    let mut without = 0usize;
    for key in 0..TABLES {
        match catalogue::number(&[2, 2], &table_of(key)) {
            Ok(Some(n)) => {
                if let Some(tally) = tallies.get_mut(n) {
                    tally.note(key);
                }
            }
            Ok(None) => without = without.saturating_add(1),
            Err(_) => {}
        }
    }
    without
}

// A line for each number.
fn tell_numbers(tallies: &[Tally; KEYS], out: &mut String) -> Result<(), AllocError> {
    for (n, tally) in tallies.iter().enumerate() {
        let times = tally.times;
        write!(out, "number {n}: came {times}, keys")?;
        tell_all(&tally.keys, out)?;
        out.push_str("\n")?;
    }
    Ok(())
}

fn main(rt: HostRuntime) -> io::Result<()> {
    let mut tallies = [Tally {
        times: 0,
        keys: [0; EACH],
    }; KEYS];
    let without = survey(&mut tallies);
    let mut out = String::new(rt.alloc());
    tell_numbers(&tallies, &mut out)?;
    writeln!(out, "none: came {without}")?;
    print_lines(&out, &rt)
}
