// What goes between a call and C: an answer into its outputs, which a refused answer leaves as they
// were, and survivors as C holds them.
#![tactic(auto)]

ghost use Rattle.std.specs.Prelude.{◌≡◌, not, map, eqb};
ghost use Rattle.refusal.specs.Told.{told_of, told, status, byte_of};
ghost use Rattle.catalogue.specs.Answers.{told_number};
ghost use Rattle.c_answers.specs.Status.{output, beside, some_byte, or_zero, survivors_of, mark_bytes};

use refusal::{Listed, NormalFormError};
use survivors::Survivors;
use table::{MAX_MARKS, MAX_PLAYERS, StrategySpace};

// ---- an answer into its outputs

// A value into `out`.
pub fn value_into<T: Copy>(answer: Result<T, NormalFormError>, out: &mut T) -> u32
    ensures value { result ≡ status (told answer) }
    ensures out_after { out.new ≡ output (told answer) out.old }
{
    match answer {
        Ok(value) => {
            *out = value;
            0
        }
        Err(e) => e.number(),
    }
}

// Both numbers of a listing into `total` and `written`.
pub fn listing_into(
    answer: Result<Listed, NormalFormError>,
    total: &mut usize,
    written: &mut usize,
) -> u32
    ensures value { result ≡ status (told answer) }
    ensures total_after { total.new ≡ output (told_of (λ l. l.total) (told answer)) total.old }
    ensures written_after { written.new ≡ output (told_of (λ l. l.written) (told answer)) written.old }
{
    match answer {
        Ok(listed) => {
            *total = listed.total;
            *written = listed.written;
            0
        }
        Err(e) => e.number(),
    }
}

// Whether there is a number of the catalogue into `listed`, as 1 or 0, and the number, 0 where
// there is none, into `number`.
pub fn number_into(
    answer: Result<Option<usize>, NormalFormError>,
    listed: &mut u8,
    number: &mut usize,
) -> u32
    ensures value { result ≡ status (told_number answer) }
    ensures listed_after { listed.new ≡ output (told_of some_byte (told_number answer)) listed.old }
    ensures number_after { number.new ≡ output (told_of or_zero (told_number answer)) number.old }
{
    match answer {
        Ok(Some(place)) => {
            *listed = 1;
            *number = place;
            0
        }
        Ok(None) => {
            *listed = 0;
            *number = 0;
            0
        }
        Err(e) => e.number(),
    }
}

// A space into `players` and `space_counts`.
pub fn space_into(
    answer: Result<StrategySpace, NormalFormError>,
    players: &mut usize,
    space_counts: &mut [usize; MAX_PLAYERS],
) -> u32
    ensures value { result ≡ status (told answer) }
    ensures players_after { players.new ≡ output (told_of (λ s. s.players) (told answer)) players.old }
    ensures space_counts_after { space_counts.new ≡ output (told_of (λ s. s.counts) (told answer)) space_counts.old }
{
    match answer {
        Ok(space) => {
            let counts = space.counts;
            *players = space.players;
            *space_counts = counts;
            0
        }
        Err(e) => e.number(),
    }
}

// ---- survivors, as C holds them

// The marks of bytes: 0 is no mark, and any other byte is one.
pub fn marks_of(bytes: [u8; MAX_MARKS]) -> [bool; MAX_MARKS]
    ensures { result ≡ map (λ b. not (eqb b 0)) bytes }
{
    let mut marks = [true; MAX_MARKS];
    for i in 0..MAX_MARKS {
        marks[i] = bytes[i] != 0;
    }
    marks
}

// The bytes of marks: 1, or 0 for no mark.
pub fn bytes_of(marks: [bool; MAX_MARKS]) -> [u8; MAX_MARKS]
    ensures { result ≡ map byte_of marks }
{
    let mut bytes = [0u8; MAX_MARKS];
    for i in 0..MAX_MARKS {
        bytes[i] = u8::from(marks[i]);
    }
    bytes
}

// The survivors that C hands in.
pub fn survivors_of(
    players: usize,
    counts: &[usize; MAX_PLAYERS],
    marks: &[u8; MAX_MARKS],
) -> Survivors
    ensures { result ≡ survivors_of players counts.now marks.now }
{
    let held = *counts;
    let bytes = *marks;
    Survivors {
        players,
        counts: held,
        marks: marks_of(bytes),
    }
}

// Survivors into `players`, `counts` and `marks`.
pub fn survivors_into(
    survivors: Survivors,
    players: &mut usize,
    counts: &mut [usize; MAX_PLAYERS],
    marks: &mut [u8; MAX_MARKS],
)
    ensures players_after { players.new ≡ survivors.players }
    ensures counts_after { counts.new ≡ survivors.counts }
    ensures marks_after { marks.new ≡ mark_bytes survivors }
{
    let held = survivors.counts;
    let left = survivors.marks;
    let bytes = bytes_of(left);
    *players = survivors.players;
    *counts = held;
    *marks = bytes;
}
