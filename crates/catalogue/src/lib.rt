// The catalogue of document 01: a number for each strictly ranked 2 x 2 table. Two tables have the
// same number exactly where swapping rows, columns, both or neither turns the ranks of one into
// those of the other.
#![tactic(auto)]

ghost use Rattle.std.specs.Prelude.{◌≡◌, ◌+◌, ◌<◌, length};
ghost use Rattle.refusal.specs.Told.{optional};
ghost use Rattle.payoff_tables.specs.Table.{cell_rank, table_game};
ghost use Rattle.payoff_tables.specs.Meaning.{Finites, Table};
ghost use Rattle.bimatrix.specs.Matrices.{in_order};
ghost use Rattle.bimatrix.specs.Keys.{one_if_less, rank_among, ranked};
ghost use Rattle.catalogue.specs.Catalogue.{place, catalogue};
ghost use Rattle.catalogue.specs.Answers.{cell_matrix, two_by_two, game_number, told_number, number_answer};

use bimatrix::{Bimatrix, Matrix};
use refusal::NormalFormError;

// How many keys there are.
pub const KEYS: usize = 144;

// The least keys of all strictly ranked tables, ascending.
const CATALOGUE: [u16; KEYS] = [
    6939, 6942, 6951, 6957, 6966, 6969, 6987, 6990, 7011, 7020, 7026, 7032, 7047, 7053, 7059, 7068,
    7089, 7092, 7110, 7113, 7122, 7128, 7137, 7140, 7707, 7710, 7719, 7725, 7734, 7737, 7755, 7758,
    7779, 7788, 7794, 7800, 7815, 7821, 7827, 7836, 7857, 7860, 7878, 7881, 7890, 7896, 7905, 7908,
    10011, 10014, 10023, 10029, 10038, 10041, 10059, 10062, 10083, 10092, 10098, 10104, 10119,
    10125, 10131, 10140, 10161, 10164, 10182, 10185, 10194, 10200, 10209, 10212, 11547, 11550,
    11559, 11565, 11574, 11577, 11595, 11598, 11619, 11628, 11634, 11640, 11655, 11661, 11667,
    11676, 11697, 11700, 11718, 11721, 11730, 11736, 11745, 11748, 13851, 13854, 13863, 13869,
    13878, 13881, 13899, 13902, 13923, 13932, 13938, 13944, 13959, 13965, 13971, 13980, 14001,
    14004, 14022, 14025, 14034, 14040, 14049, 14052, 14619, 14622, 14631, 14637, 14646, 14649,
    14667, 14670, 14691, 14700, 14706, 14712, 14727, 14733, 14739, 14748, 14769, 14772, 14790,
    14793, 14802, 14808, 14817, 14820,
];

// The keys of the catalogue.
pub fn keys() -> [u16; KEYS]
    ensures { result ≡ catalogue }
{
    CATALOGUE
}

// ---- the ranks of payoffs

// 1 where the payoff of one cell is less than that of the other, else 0.
fn less(payoffs: &[f64], cell: usize, other: usize) -> u8
    requires cell_in_bounds { (cell < length payoffs.now) × (other < length payoffs.now) }
    requires finites { Finites payoffs.now }
    ensures { result ≡ one_if_less (cell_rank payoffs.now cell) (cell_rank payoffs.now other) }
{
    u8::from(table::exceeds(payoffs, other, cell))
}

// How many of a player's four payoffs are less than that of a cell.
fn rank(payoffs: &[f64], player: usize, cell: usize) -> u8
    requires payoffs_len { (length payoffs.now ≡ 8) × (player < 2) × (cell < 8) }
    requires finites { Finites payoffs.now }
    ensures { result ≡ rank_among (in_order (cell_matrix payoffs.now player)) (cell_rank payoffs.now cell) }
{
    less(payoffs, player, cell)
        + less(payoffs, 2 + player, cell)
        + less(payoffs, 4 + player, cell)
        + less(payoffs, 6 + player, cell)
}

// A player's ranks at the four profiles.
fn player_ranks(payoffs: &[f64], player: usize) -> Matrix
    requires payoffs_len { (length payoffs.now ≡ 8) × (player < 2) }
    requires finites { Finites payoffs.now }
    ensures { result ≡ ranked (cell_matrix payoffs.now player) }
{
    Matrix {
        at00: rank(payoffs, player, player),
        at01: rank(payoffs, player, 2 + player),
        at10: rank(payoffs, player, 4 + player),
        at11: rank(payoffs, player, 6 + player),
    }
}

// ---- a table's number

// The first place of a key, or none.
fn place(keys: &[u16], key: usize) -> Option<usize>
    ensures { optional result ≡ place keys.now key }
{
    keys.iter().position(|k| usize::from(*k) == key)
}

// Whether there are two players with two strategies each.
fn two_by_two(counts: &[usize]) -> bool
    ensures { result ≡ two_by_two counts.now }
{
    counts == [2, 2].as_slice()
}

// The number of a table that has none of refusals 1 to 7, or none.
fn table_number(counts: &[usize], payoffs: &[f64]) -> Option<usize>
    requires { Table counts.now payoffs.now }
    ensures { optional result ≡ game_number catalogue (table_game counts.now payoffs.now) }
{
    if !two_by_two(counts) {
        return None;
    }
    let ranks = Bimatrix {
        first: player_ranks(payoffs, 0),
        second: player_ranks(payoffs, 1),
    };
    if ranks.strictly_ranked() {
        place(&keys(), ranks.least_key())
    } else {
        None
    }
}

// The number of a strictly ranked 2 x 2 table in the catalogue, 0 to 143, none for any other table,
// or the first of refusals 1 to 7.
pub fn number(counts: &[usize], payoffs: &[f64]) -> Result<Option<usize>, NormalFormError>
    ensures { told_number result ≡ number_answer counts.now payoffs.now }
{
    table::table_profile_count(counts, payoffs)?;
    Ok(table_number(counts, payoffs))
}
