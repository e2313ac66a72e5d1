// The deposit file as the report reads it: at most 2,048 cells.
#![tactic(auto)]

ghost use Rattle.std.specs.Prelude.{◌≡◌, length};
ghost use Rattle.refusal.specs.Told.{told, told_of};
ghost use Rattle.written_lists.specs.Outputs.{written_of, over};
ghost use Rattle.report_input.specs.Input.{five, input_table};

use refusal::NormalFormError;
use table::MAX_PLAYERS;

// The most cells.
pub const MAX_REPORT_CELLS: usize = 2048;

// The most bytes: those of a file with so many cells and MAX_PLAYERS counts.
pub const MAX_FILE_BYTES: usize = 24616;

// The report's refusal in place of the reader's: only the payoffs can be short of room, where there
// are more cells than the report takes.
fn reported(refusal: NormalFormError) -> NormalFormError
    ensures { result ≡ five refusal }
{
    match refusal {
        NormalFormError::OutputTooShort => NormalFormError::TooManyCells,
        _ => refusal,
    }
}

// P, with the counts and the payoffs of the file written to the outputs, which have room for every
// file within the limits; or the first fault of the file, 5 where it is over a limit, and nothing
// written.
pub fn read(
    bytes: &[u8],
    counts: &mut [usize; MAX_PLAYERS],
    payoffs: &mut [f64; MAX_REPORT_CELLS],
) -> Result<usize, NormalFormError>
    ensures result_value { told result ≡ told_of (λ t. length t.0) (input_table bytes.now) }
    ensures counts_after { counts.new ≡ over (written_of (λ t. t.0) (input_table bytes.now)) counts.old }
    ensures payoffs_after { payoffs.new ≡ over (written_of (λ t. t.1) (input_table bytes.now)) payoffs.old }
{
    if MAX_FILE_BYTES < bytes.len() {
        return Err(NormalFormError::TooManyCells);
    }
    deposit_reader::read(bytes, counts, payoffs).map_err(reported)
}
