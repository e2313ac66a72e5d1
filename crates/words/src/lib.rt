// Files of words, each of a kind and with a payload, as the deposit file is one: what a reader of
// such a file asks of each word. Any bytes and any places may be handed in, but for `part`. A place
// is the number of words before it.
#![tactic(auto)]

ghost use Rattle.std.specs.Prelude.{◌≡◌, ◌+◌, ◌*◌, ◌≤◌, ◌<◌, length};
ghost use Rattle.std.proofs.Math.Option.{none};
ghost use Rattle.refusal.specs.Told.{told, unless};
ghost use Rattle.file_words.specs.Words.{word_at, words_of, payload_at};
ghost use Rattle.file_words.specs.Faults.{length_fault, due_fault, closing_fault};

use refusal::NormalFormError;

// How many payloads there are: 30 bits of a word.
pub const PAYLOADS: u32 = 0x40000000;

// How many bytes a word has.
pub const WORD_BYTES: usize = 4;

// The kind of a closing word. Kinds are numbers: `due` takes any number as the kind that is due.
pub const CLOSING: u32 = 3;

// The word at a place that the bytes have.
fn word_at(bytes: &[u8], place: usize) -> u32
    requires { 4 * place + 4 ≤ length bytes.now }
    ensures { result ≡ word_at bytes.now place }
{
    let at = WORD_BYTES * place;
    u32::from_be_bytes([bytes[at], bytes[at + 1], bytes[at + 2], bytes[at + 3]])
}

// The payload of the word at a place, and 0 where there is none.
pub fn payload(bytes: &[u8], place: usize) -> usize
    ensures { result ≡ payload_at (words_of bytes.now) place }
{
    if place < bytes.len() / WORD_BYTES {
        (word_at(bytes, place) % PAYLOADS) as usize
    } else {
        0
    }
}

// Whether the bytes are whole words, or 17.
pub fn whole(bytes: &[u8]) -> Result<(), NormalFormError>
    ensures { told result ≡ unless (length_fault bytes.now) tt }
{
    if bytes.len() % WORD_BYTES != 0 {
        return Err(NormalFormError::MissingWord);
    }
    Ok(())
}

// The payload of the word that is due at a place, or 17 where it is absent, or 18 where its kind
// isn't the one due.
pub fn due(bytes: &[u8], place: usize, kind: u32) -> Result<usize, NormalFormError>
    ensures { told result ≡ unless (due_fault (words_of bytes.now) place kind) (payload_at (words_of bytes.now) place) }
{
    if bytes.len() / WORD_BYTES <= place {
        return Err(NormalFormError::MissingWord);
    }
    let word = word_at(bytes, place);
    if word / PAYLOADS != kind {
        return Err(NormalFormError::WrongKind);
    }
    Ok((word % PAYLOADS) as usize)
}

// The payload of the word that is due at a place. The caller proves that the word is there and has
// the kind; nothing is tested when it runs. Less its kind the word is one value to the compiler,
// which then loads its four bytes at once; for a remainder it loads them one by one.
pub fn part(bytes: &[u8], place: usize, kind: u32) -> usize
    requires { (kind < 4) × (due_fault (words_of bytes.now) place kind ≡ none) }
    ensures { result ≡ payload_at (words_of bytes.now) place }
{
    (word_at(bytes, place) - kind * PAYLOADS) as usize
}

// Whether the word at a place closes the file: 17 or 18 as of any word that is due, 19 where its
// number isn't that of the words before it, 20 where a word follows it.
pub fn closing(bytes: &[u8], place: usize) -> Result<(), NormalFormError>
    ensures { told result ≡ unless (closing_fault (words_of bytes.now) place) tt }
{
    let number = due(bytes, place, CLOSING)?;
    if number != place {
        return Err(NormalFormError::WrongPayload);
    }
    if number + 1 < bytes.len() / WORD_BYTES {
        return Err(NormalFormError::TrailingWord);
    }
    Ok(())
}
