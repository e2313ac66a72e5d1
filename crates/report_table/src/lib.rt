// The report on a table, put into a lent buffer byte for byte as specs/Report defines it.
#![tactic(auto)]

ghost use Rattle.std.specs.Prelude.{◌≡◌, [], ◌∷◌, ◌≤◌, length};
ghost use Rattle.std.proofs.lemmas.List.Edits.{sets};
ghost use Rattle.payoff_tables.specs.Table.{table_game};
ghost use Rattle.payoff_tables.specs.Meaning.{Table};
ghost use Rattle.catalogue.specs.Catalogue.{catalogue};
ghost use Rattle.catalogue.specs.Answers.{game_number};
ghost use Rattle.outputs.specs.Put.{past};
ghost use Rattle.digits_and_lines.specs.Text.{decimal, line};
ghost use Rattle.report_input.specs.Input.{max_report_cells};
ghost use Rattle.report_layout.specs.Table.{catalogue_line, equilibria_text, struck_text, table_report};

use report_input::MAX_REPORT_CELLS;
use table::MAX_MARKS;

// How many numbers a strike has: player, strategy, dominator.
const STRIKE_NUMBERS: usize = 3;

// The most numbers that strikes have.
const MOST_NUMBERS: usize = STRIKE_NUMBERS * MAX_MARKS;

// Puts a line of a word and a number.
pub fn put_number_line(out: &mut [u8], at: usize, name: &[u8], n: usize) -> usize
    ensures value { result ≡ past out.old at (line (name.now ∷ decimal n ∷ [])) }
    ensures out_after { out.new ≡ sets out.old at (line (name.now ∷ decimal n ∷ [])) }
{
    text::put_labelled(out, at, name, &[n])
}

// Puts the list of equilibria after its length: the total that one listing tells, and what it
// writes. Both of its outputs hold every profile's choices and payoffs.
fn put_equilibria(out: &mut [u8], at: usize, counts: &[usize], payoffs: &[f64]) -> usize
    requires table { Table counts.now payoffs.now }
    requires payoffs_len_bound { length payoffs.now ≤ max_report_cells }
    ensures value { result ≡ past out.old at (equilibria_text counts.now payoffs.now) }
    ensures out_after { out.new ≡ sets out.old at (equilibria_text counts.now payoffs.now) }
{
    let mut choices = [0usize; MAX_REPORT_CELLS];
    let mut utilities = [0.0f64; MAX_REPORT_CELLS];
    let Ok(listed) = pure_nash::equilibria(counts, payoffs, &mut choices, &mut utilities) else {
        return at;
    };
    let place = put_number_line(out, at, b"equilibria", listed.total);
    report_lines::put_entries(
        out,
        place,
        &choices,
        &utilities,
        counts.len(),
        listed.written,
    )
}

// Puts the list of strikes after its length.
fn put_struck(out: &mut [u8], at: usize, counts: &[usize], payoffs: &[f64]) -> usize
    requires { Table counts.now payoffs.now }
    ensures value { result ≡ past out.old at (struck_text counts.now payoffs.now) }
    ensures out_after { out.new ≡ sets out.old at (struck_text counts.now payoffs.now) }
{
    let mut struck = [0usize; MOST_NUMBERS];
    let swept = sweeps::sweeps(counts, payoffs, &mut struck);
    let number = swept.end / STRIKE_NUMBERS;
    let place = put_number_line(out, at, b"struck", number);
    report_lines::put_lines(out, place, &struck, STRIKE_NUMBERS, number)
}

// Puts the line of the catalogue's number.
fn put_catalogue(out: &mut [u8], at: usize, counts: &[usize], payoffs: &[f64]) -> usize
    requires { Table counts.now payoffs.now }
    ensures value { result ≡ past out.old at (catalogue_line (game_number catalogue (table_game counts.now payoffs.now))) }
    ensures out_after { out.new ≡ sets out.old at (catalogue_line (game_number catalogue (table_game counts.now payoffs.now))) }
{
    match catalogue::number(counts, payoffs) {
        Err(_) => at,
        Ok(None) => text::put(out, at, b"catalogue none\n"),
        Ok(Some(n)) => put_number_line(out, at, b"catalogue", n),
    }
}

// Puts the report on a table at the start of the output. The caller proves that the table has none
// of refusals 1 to 7, and no more cells than the report takes.
pub fn put_table(out: &mut [u8], counts: &[usize], payoffs: &[f64]) -> usize
    requires table { Table counts.now payoffs.now }
    requires payoffs_len_bound { length payoffs.now ≤ max_report_cells }
    ensures value { result ≡ past out.old 0 (table_report counts.now payoffs.now) }
    ensures out_after { out.new ≡ sets out.old 0 (table_report counts.now payoffs.now) }
{
    let mut place = put_number_line(out, 0, b"players", counts.len());
    place = text::put_labelled(out, place, b"counts", counts);
    place = put_equilibria(out, place, counts, payoffs);
    place = put_struck(out, place, counts, payoffs);
    put_catalogue(out, place, counts, payoffs)
}
