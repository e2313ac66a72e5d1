// The report on a deposit file: from the file's bytes to the report's, as specs/Report defines it.
#![tactic(auto)]

ghost use Rattle.std.specs.Prelude.{◌≡◌, ◌≤◌, length, take};
ghost use Rattle.std.proofs.lemmas.List.Edits.{sets};
ghost use Rattle.written_lists.specs.Outputs.{over};
ghost use Rattle.io.specs.Counts.{IsPrefixLen};
ghost use Rattle.payoff_tables.specs.Table.{cells};
ghost use Rattle.payoff_tables.specs.Meaning.{Table};
ghost use Rattle.outputs.specs.Put.{past};
ghost use Rattle.report_input.specs.Input.{max_report_cells};
ghost use Rattle.report_layout.specs.Table.{table_report};
ghost use Rattle.report_layout.specs.Report.{report};

use report_input::MAX_REPORT_CELLS;
use report_table::{put_number_line, put_table};
use table::{MAX_MARKS, MAX_PLAYERS};

// The bytes of the other lines than those of the lists, at their longest: players, counts,
// equilibria, struck, catalogue.
const OTHER_LINES: usize = 10 + 31 + 16 + 11 + 15;

// The most bytes of a report, which every report fits into: 20 for each cell, 8 for each strike,
// and the other lines.
pub const MAX_REPORT_BYTES: usize = 20 * MAX_REPORT_CELLS + 8 * MAX_MARKS + OTHER_LINES;

// Puts the report on a table that was read: P, and outputs that begin with its counts and its
// payoffs.
fn put_read(out: &mut [u8], players: usize, counts: &[usize], payoffs: &[f64]) -> usize
    requires players_in_bounds { (players ≤ length counts.now) × (cells (take players counts.now) ≤ length payoffs.now) }
    requires table { Table (take players counts.now) (take (cells (take players counts.now)) payoffs.now) }
    requires counts_bound { cells (take players counts.now) ≤ max_report_cells }
    ensures value { result ≡ past out.old 0 (table_report (take players counts.now) (take (cells (take players counts.now)) payoffs.now)) }
    ensures out_after { out.new ≡ sets out.old 0 (table_report (take players counts.now) (take (cells (take players counts.now)) payoffs.now)) }
{
    let table_counts = &counts[..players];
    let Ok(profiles) = table::profile_count(table_counts) else {
        return 0;
    };
    put_table(out, table_counts, &payoffs[..profiles * players])
}

// The report on a deposit file, written to the start of the output, which has room for every
// report, and its length. The rest of the output keeps its contents.
pub fn report(bytes: &[u8], out: &mut [u8; MAX_REPORT_BYTES]) -> usize
    ensures prefix_len { IsPrefixLen result out.new }
    ensures value { result ≡ length (report bytes.now) }
    ensures out_after { out.new ≡ over (report bytes.now) out.old }
{
    let mut counts = [0usize; MAX_PLAYERS];
    let mut payoffs = [0.0f64; MAX_REPORT_CELLS];
    match report_input::read(bytes, &mut counts, &mut payoffs) {
        Err(e) => put_number_line(out, 0, b"refused", e.number() as usize),
        Ok(players) => put_read(out, players, &counts, &payoffs),
    }
}
