// The deposit file's writer: the table is checked, and then each word stored.
#![tactic(auto)]

ghost use Rattle.std.specs.Prelude.{◌≡◌, ◌+◌, ◌*◌, ◌/◌, ◌%◌, ◌^◌, ◌≤◌, ◌<◌, T, length};
ghost use mathlib.Core.List.{[], ◌∷◌, map, flat_map};
ghost use Rattle.std.specs.Float.{binary64};
ghost use Rattle.std.specs.Float.Ieee.{to_bits};
ghost use Rattle.refusal.specs.Told.{told};
ghost use Rattle.payoff_order.specs.Order.{finite};
ghost use Rattle.payoff_tables.specs.Meaning.{Shape, Finites};
ghost use Rattle.file_words.specs.Words.{payloads, word};
ghost use Rattle.deposit_format.specs.Deposit.{count_kind, cell_kind, payoff_words};
ghost use Rattle.deposit_format.specs.Answers.{write_answer, write_bytes};
ghost use Rattle.deposit_writer.specs.Put.{words_put};

use deposit::{CELL, CELL_WORDS, COUNT, EDITION, OPENING, PLAYER_NUMBERS};
use refusal::NormalFormError;
use words::{CLOSING, WORD_BYTES};

// How many payloads there are, as a part of a payoff's bits, and the kinds of two words of a cell.
const PAYLOADS: u64 = words::PAYLOADS as u64;

const CELL_KINDS: u64 = CELL as u64 * PAYLOADS * 0x100000001;

// Puts a word at a place.
fn put_word(bytes: &mut [u8], place: usize, kind: u32, payload: u32)
    requires { (kind < 4) × (payload < payloads) × (4 * place + 4 ≤ length bytes.old) }
    ensures { bytes.new ≡ words_put bytes.old place (word kind payload ∷ []) }
{
    let word = kind * words::PAYLOADS + payload;
    let at = WORD_BYTES * place;
    bytes[at..at + WORD_BYTES].copy_from_slice(&word.to_be_bytes());
}

// Puts the count words.
fn write_counts(counts: &[usize], bytes: &mut [u8])
    requires { Shape counts.now × (4 + length counts.now * 4 ≤ length bytes.old) }
    ensures { bytes.new ≡ words_put bytes.old 1 (map (word count_kind) counts.now) }
{
    for (p, count) in counts.iter().enumerate() {
        put_word(bytes, 1 + p, COUNT, *count as u32);
    }
}

// The second and the third word of a finite payoff, as one number. The test is always passed:
// behind it the number is one value to the compiler, which then stores its eight bytes at once, and
// not one by one. Three calls of `put_word` in place of it were tried, and took twice the time.
fn pair(x: f64) -> u64
    requires { T (finite x) }
    ensures { result ≡ word cell_kind (to_bits binary64 x / payloads % payloads) * 2 ^ 32 + word cell_kind (to_bits binary64 x % payloads) }
{
    if utility::is_finite(x) {
        let bits = f64::to_bits(x);
        CELL_KINDS + bits / PAYLOADS % PAYLOADS * 0x100000000 + bits % PAYLOADS
    } else {
        0
    }
}

// Puts two words, which are one number, at a place.
fn put_pair(bytes: &mut [u8], place: usize, pair: u64)
    requires { 4 * place + 8 ≤ length bytes.old }
    ensures { bytes.new ≡ words_put bytes.old place (pair / 2 ^ 32 ∷ pair % 2 ^ 32 ∷ []) }
{
    let at = WORD_BYTES * place;
    bytes[at..at + 2 * WORD_BYTES].copy_from_slice(&pair.to_be_bytes());
}

// Puts the three words of a payoff at a place.
fn put_payoff(x: f64, place: usize, bytes: &mut [u8])
    requires { T (finite x) × (4 * place + 12 ≤ length bytes.old) }
    ensures { bytes.new ≡ words_put bytes.old place (payoff_words x) }
{
    let bits = f64::to_bits(x);
    put_word(bytes, place, CELL, (bits / 0x1000000000000000) as u32);
    put_pair(bytes, place + 1, pair(x));
}

// Puts the words of the payoffs at a place.
fn write_payoffs(payoffs: &[f64], start: usize, bytes: &mut [u8])
    requires { Finites payoffs.now × (4 * start + length payoffs.now * 12 ≤ length bytes.old) }
    ensures { bytes.new ≡ words_put bytes.old start (flat_map payoff_words payoffs.now) }
{
    for (i, payoff) in payoffs.iter().enumerate() {
        put_payoff(*payoff, start + CELL_WORDS * i, bytes);
    }
}

// The number of bytes of the table's file, written to the output; or the first of 1 to 7, then 13,
// and nothing written.
pub fn write(counts: &[usize], payoffs: &[f64], bytes: &mut [u8]) -> Result<usize, NormalFormError>
    ensures result_value { told result ≡ write_answer counts.now payoffs.now bytes.old }
    ensures bytes_after { bytes.new ≡ write_bytes counts.now payoffs.now bytes.old }
{
    table::table_profile_count(counts, payoffs)?;
    let start = 1 + counts.len();
    let last = start + CELL_WORDS * payoffs.len();
    let size = WORD_BYTES * (last + 1);
    if bytes.len() < size {
        return Err(NormalFormError::OutputTooShort);
    }
    put_word(
        bytes,
        0,
        OPENING,
        (EDITION * PLAYER_NUMBERS + counts.len()) as u32,
    );
    write_counts(counts, bytes);
    write_payoffs(payoffs, start, bytes);
    put_word(bytes, last, CLOSING, last as u32);
    Ok(size)
}
