// The deposit file: a table as bytes. The format is document 01's, "The deposit file"; its
// definition stands in specs/Deposit, on the words of `words`. Reading and writing undo each other,
// bits and all: proofs/Back. `deposit_reader` and `deposit_writer` have the calls; here are the
// numbers that both use, and the opening word.
#![tactic(auto)]

ghost use Rattle.std.specs.Prelude.{◌≡◌};
ghost use Rattle.refusal.specs.Refusal.{◌then◌};
ghost use Rattle.refusal.specs.Told.{told, unless};
ghost use Rattle.file_words.specs.Words.{words_of};
ghost use Rattle.file_words.specs.Faults.{length_fault};
ghost use Rattle.deposit_format.specs.Deposit.{players_in, opening_fault};

use refusal::NormalFormError;
use table::MAX_PLAYERS;

// The kinds of an opening word, a count and a part of a payoff, as `words::due` takes them.
pub const OPENING: u32 = 0;

pub const COUNT: u32 = 1;

pub const CELL: u32 = 2;

// The opening payload is EDITION × PLAYER_NUMBERS + P.
pub const EDITION: usize = 1;

pub const PLAYER_NUMBERS: usize = 256;

// How many words a cell has.
pub const CELL_WORDS: usize = 3;

// P, or 17 of the length, and 17, 18, 19, 1 or 2 of the opening word.
pub fn opening(bytes: &[u8]) -> Result<usize, NormalFormError>
    ensures { told result ≡ unless (length_fault bytes.now then opening_fault (words_of bytes.now)) (players_in (words_of bytes.now)) }
{
    words::whole(bytes)?;
    let payload = words::due(bytes, 0, OPENING)?;
    if payload / PLAYER_NUMBERS != EDITION {
        return Err(NormalFormError::WrongPayload);
    }
    let players = payload % PLAYER_NUMBERS;
    if players == 0 {
        return Err(NormalFormError::NoPlayers);
    }
    if MAX_PLAYERS < players {
        return Err(NormalFormError::TooManyPlayers);
    }
    Ok(players)
}
