// Reading and writing undo each other, as statements about the calls that run: the contracts of
// `write_read` and `read_write` say so for every table, every file and all outputs, and both run on
// the prisoner's dilemma and on a table with both zeros. One line each: the answer, then what came
// back.
#![tactic(auto)]

ghost use Rattle.std.specs.Prelude.{◌≡◌, length};
ghost use Rattle.refusal.specs.Told.{told, told_of};
ghost use Rattle.written_lists.specs.Outputs.{written_of, over};
ghost use Rattle.deposit_format.specs.Answers.{read_counts, read_payoffs, write_bytes};
ghost use Rattle.test_round_trips.specs.RoundTrips.{written_read, read_written};

use refusal::NormalFormError;
use std::alloc::AllocError;
use std::io;
use test_print::{Tell, print_lines, tell_all};

// A call of `write`, and then one of `read` on what it wrote: the table comes back.
fn write_read(
    counts: &[usize],
    payoffs: &[f64],
    bytes: &mut [u8],
    counts_back: &mut [usize],
    payoffs_back: &mut [f64],
) -> Result<usize, NormalFormError>
    ensures result_value { told result ≡ told_of (λ t. length t.0) (written_read counts.now payoffs.now (length bytes.old) (length counts_back.old) (length payoffs_back.old)) }
    ensures counts_back_after { counts_back.new ≡ over (written_of (λ t. t.0) (written_read counts.now payoffs.now (length bytes.old) (length counts_back.old) (length payoffs_back.old))) counts_back.old }
    ensures payoffs_back_after { payoffs_back.new ≡ over (written_of (λ t. t.1) (written_read counts.now payoffs.now (length bytes.old) (length counts_back.old) (length payoffs_back.old))) payoffs_back.old }
    ensures bytes_after { bytes.new ≡ write_bytes counts.now payoffs.now bytes.old }
{
    let n = deposit_writer::write(counts, payoffs, bytes)?;
    deposit_reader::read(&bytes[0..n], counts_back, payoffs_back)
}

// A call of `read`, and then one of `write` on what it read: the bytes come back.
fn read_write(
    bytes: &[u8],
    counts: &mut [usize],
    payoffs: &mut [f64],
    bytes_back: &mut [u8],
) -> Result<usize, NormalFormError>
    ensures result_value { told result ≡ told_of length (read_written bytes.now (length counts.old) (length payoffs.old) (length bytes_back.old)) }
    ensures bytes_back_after { bytes_back.new ≡ over (written_of (λ b. b) (read_written bytes.now (length counts.old) (length payoffs.old) (length bytes_back.old))) bytes_back.old }
    ensures counts_after { counts.new ≡ read_counts bytes.now counts.old payoffs.old }
    ensures payoffs_after { payoffs.new ≡ read_payoffs bytes.now counts.old payoffs.old }
{
    let players = deposit_reader::read(bytes, counts, payoffs)?;
    let profiles = table::profile_count(&counts[0..players])?;
    deposit_writer::write(
        &counts[0..players],
        &payoffs[0..profiles * players],
        bytes_back,
    )
}

// A table, written and read, and its file, read and written.
fn tell(
    counts: &[usize],
    payoffs: &[f64],
    file: &mut [u8],
    counts_back: &mut [usize],
    payoffs_back: &mut [f64],
    file_back: &mut [u8],
    out: &mut String,
) -> Result<(), AllocError> {
    write_read(counts, payoffs, file, counts_back, payoffs_back).tell(out)?;
    tell_all(counts_back, out)?;
    tell_all(payoffs_back, out)?;
    out.push_str("\nits file:")?;
    read_write(file, counts_back, payoffs_back, file_back).tell(out)?;
    tell_all(file_back, out)?;
    out.push_str("\n")
}

// The prisoner's dilemma, and its file of 112 bytes.
fn tell_dilemma(out: &mut String) -> Result<(), AllocError> {
    out.push_str("dilemma:")?;
    tell(
        &[2, 2],
        &[2.0, 2.0, 0.0, 3.0, 3.0, 0.0, 1.0, 1.0],
        &mut [0; 112],
        &mut [7; 3],
        &mut [7.0; 9],
        &mut [7; 113],
        out,
    )
}

// One player with both zeros, and its file of 36 bytes.
fn tell_both_zeros(out: &mut String) -> Result<(), AllocError> {
    out.push_str("both zeros:")?;
    tell(
        &[2],
        &[-0.0, 0.0],
        &mut [0; 36],
        &mut [7; 2],
        &mut [7.0; 3],
        &mut [7; 37],
        out,
    )
}

fn main(rt: HostRuntime) -> io::Result<()> {
    let mut out = String::new(rt.alloc());
    tell_dilemma(&mut out)?;
    tell_both_zeros(&mut out)?;
    print_lines(&out, &rt)
}
