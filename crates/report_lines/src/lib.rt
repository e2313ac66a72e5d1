// The lines of the report's two lists, put into a lent buffer as `text` puts its own.
#![tactic(auto)]

ghost use Rattle.std.specs.Prelude.{◌≡◌, map, ℕ, ◌*◌, ◌≤◌, ◌<◌, T, length, get_or};
ghost use Rattle.std.proofs.lemmas.List.Edits.{sets};
ghost use Rattle.std.specs.Float.{nan};
ghost use Rattle.payoff_order.specs.Order.{finite};
ghost use Rattle.payoff_tables.specs.Meaning.{Finites};
ghost use Rattle.outputs.specs.Put.{past};
ghost use Rattle.digits_and_lines.specs.Text.{spaced};
ghost use Rattle.report_layout.specs.Lines.{bits_word, entry_line, numbers_line, entry_lines, numbers_lines};

// Puts each payoff's bits in hexadecimal digits, after a space.
fn put_bits(out: &mut [u8], at: usize, utilities: &[f64]) -> usize
    requires { Finites utilities.now }
    ensures value { result ≡ past out.old at (spaced (map bits_word utilities.now)) }
    ensures out_after { out.new ≡ sets out.old at (spaced (map bits_word utilities.now)) }
{
    let mut place = outputs::within(out.len(), at);
    for &utility in utilities {
        place = outputs::put(out, place, b' ');
        place = text::put_hexadecimal(out, place, utility.to_bits());
    }
    place
}

// Puts the line of an equilibrium.
fn put_entry(out: &mut [u8], at: usize, choices: &[usize], utilities: &[f64]) -> usize
    requires choices_nonzero { 0 < length choices.now }
    requires finites { Finites utilities.now }
    ensures value { result ≡ past out.old at (entry_line choices.now utilities.now) }
    ensures out_after { out.new ≡ sets out.old at (entry_line choices.now utilities.now) }
{
    let mut place = text::put_numbers(out, at, choices);
    place = put_bits(out, place, utilities);
    outputs::put(out, place, b'\n')
}

// Puts the lines of `number` equilibria, whose choices and payoffs stand one after the other,
// `players` of each. The caller proves that there is a player, that the slices have so many, and
// that the payoffs are finite.
#[tactic(auto, using(crate::proofs::Lines::entry_within))]
pub fn put_entries(
    out: &mut [u8],
    at: usize,
    choices: &[usize],
    utilities: &[f64],
    players: usize,
    number: usize,
) -> usize
    requires players_nonzero { 0 < players }
    requires players_in_bounds { (number * players ≤ length choices.now) × (number * players ≤ length utilities.now) }
    requires by_index { (i : ℕ) → i < number * players → T (finite (get_or utilities.now i nan)) }
    ensures value { result ≡ past out.old at (entry_lines players number choices.now utilities.now) }
    ensures out_after { out.new ≡ sets out.old at (entry_lines players number choices.now utilities.now) }
{
    let mut place = outputs::within(out.len(), at);
    for i in 0..number {
        let from = i * players;
        let to = from + players;
        place = put_entry(out, place, &choices[from..to], &utilities[from..to]);
    }
    place
}

// Puts a line of numbers.
fn put_line(out: &mut [u8], at: usize, numbers: &[usize]) -> usize
    ensures value { result ≡ past out.old at (numbers_line numbers.now) }
    ensures out_after { out.new ≡ sets out.old at (numbers_line numbers.now) }
{
    let place = text::put_numbers(out, at, numbers);
    outputs::put(out, place, b'\n')
}

// Puts `number` lines of `width` numbers, which stand one after the other. The caller proves that
// there are so many.
#[tactic(auto, using(crate::proofs::Lines::entry_within))]
pub fn put_lines(out: &mut [u8], at: usize, numbers: &[usize], width: usize, number: usize) -> usize
    requires { number * width ≤ length numbers.now }
    ensures value { result ≡ past out.old at (numbers_lines width number numbers.now) }
    ensures out_after { out.new ≡ sets out.old at (numbers_lines width number numbers.now) }
{
    let mut place = outputs::within(out.len(), at);
    for i in 0..number {
        let from = i * width;
        let to = from + width;
        place = put_line(out, place, &numbers[from..to]);
    }
    place
}
