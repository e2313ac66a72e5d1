// Text in a lent buffer: words, numbers in decimal and hexadecimal digits, and lines. Each call
// puts its text at a place, as far as there is room, and gives the place after it (`outputs`).
#![tactic(auto)]

ghost use Rattle.std.specs.Prelude.{◌≡◌, ◌∷◌, map};
ghost use Rattle.std.proofs.lemmas.List.Edits.{sets};
ghost use Rattle.outputs.specs.Put.{past};
ghost use Rattle.digits_and_lines.specs.Text.{decimal, hexadecimal, spaced, joined, line};

// Puts the bytes as they are.
pub fn put(out: &mut [u8], at: usize, bytes: &[u8]) -> usize
    ensures value { result ≡ past out.old at bytes.now }
    ensures out_after { out.new ≡ sets out.old at bytes.now }
{
    let mut place = outputs::within(out.len(), at);
    for &byte in bytes {
        place = outputs::put(out, place, byte);
    }
    place
}

// Puts a number in decimal digits.
fn put_decimal(out: &mut [u8], at: usize, n: usize) -> usize
    ensures value { result ≡ past out.old at (decimal n) }
    ensures out_after { out.new ≡ sets out.old at (decimal n) }
{
    let mut digits = [0u8; 20];
    let width = io::decimal(n as u64, &mut digits);
    put(out, at, &digits[..width])
}

// Puts 64 bits in 16 hexadecimal digits, in lower case.
pub fn put_hexadecimal(out: &mut [u8], at: usize, bits: u64) -> usize
    ensures value { result ≡ past out.old at (hexadecimal bits) }
    ensures out_after { out.new ≡ sets out.old at (hexadecimal bits) }
{
    let mut digits = [0u8; 16];
    let width = io::hex(bits, 16, &mut digits);
    put(out, at, &digits[..width])
}

// Puts each number in decimal digits, after a space.
fn put_spaced(out: &mut [u8], at: usize, numbers: &[usize]) -> usize
    ensures value { result ≡ past out.old at (spaced (map decimal numbers.now)) }
    ensures out_after { out.new ≡ sets out.old at (spaced (map decimal numbers.now)) }
{
    let mut place = outputs::within(out.len(), at);
    for &n in numbers {
        place = outputs::put(out, place, b' ');
        place = put_decimal(out, place, n);
    }
    place
}

// Puts numbers in decimal digits, with a space between two.
pub fn put_numbers(out: &mut [u8], at: usize, numbers: &[usize]) -> usize
    ensures value { result ≡ past out.old at (joined (map decimal numbers.now)) }
    ensures out_after { out.new ≡ sets out.old at (joined (map decimal numbers.now)) }
{
    let Some((first, others)) = numbers.split_first() else {
        return outputs::within(out.len(), at);
    };
    let place = put_decimal(out, at, *first);
    put_spaced(out, place, others)
}

// Puts a line: a word, and numbers in decimal digits.
pub fn put_labelled(out: &mut [u8], at: usize, label: &[u8], numbers: &[usize]) -> usize
    ensures value { result ≡ past out.old at (line (label.now ∷ map decimal numbers.now)) }
    ensures out_after { out.new ≡ sets out.old at (line (label.now ∷ map decimal numbers.now)) }
{
    let mut place = put(out, at, label);
    place = put_spaced(out, place, numbers);
    outputs::put(out, place, b'\n')
}
