// The report on a deposit file: it reads the file from standard input, and writes the report to
// standard output. Where a read fails it writes no report. Where a read or a write fails it says so
// in a line on standard error, and ends with status 1.
#![tactic(auto)]

ghost use Rattle.std.specs.Prelude.{IfOk};
ghost use Rattle.io.specs.Counts.{IsPrefixLen};

use report_input::MAX_FILE_BYTES;
use report_text::MAX_REPORT_BYTES;
use std::io::{Error, ErrorKind, Read, Write};
use std::process::ExitCode;

// A byte more than a file may have, so that a longer one is told from the longest.
const ROOM: usize = MAX_FILE_BYTES + 1;

// Reads the input into the start of file, until the input ends, file is full or a read fails, and
// answers how many bytes were read, or why a read failed. A read that a signal interrupted is made
// again. A proved loop has to end, so these are counted down, from a number that no run uses up.
fn read_input<R: Read>(input: &mut R, file: &mut [u8]) -> Result<usize, Error>
    ensures { IfOk result (λ size. IsPrefixLen size file.new) }
{
    let mut size = 0;
    let mut again = usize::MAX;
    while size < file.len() {
        match input.read(&mut file[size..]) {
            Ok(0) => break,
            Ok(moved) => size += moved,
            Err(e) if again > 0 && e.kind() == ErrorKind::Interrupted => again -= 1,
            Err(e) => return Err(e),
        }
    }
    Ok(size)
}

// Writes the report on a file to the output, and answers why it could not be written whole, if it
// could not.
fn write_report<W: Write>(output: &mut W, file: &[u8]) -> Result<(), Error> {
    let mut text = [0u8; MAX_REPORT_BYTES];
    let end = report_text::report(file, &mut text);
    output.write_all(&text[..end])
}

fn main(rt: HostRuntime) -> ExitCode {
    let mut file = [0u8; ROOM];
    let size = match read_input(&mut rt.stdin(), &mut file) {
        Ok(size) => size,
        Err(e) => {
            let _ = eprintln!(rt; "report: standard input could not be read: {e}");
            return ExitCode::FAILURE;
        }
    };
    if let Err(e) = write_report(&mut rt.stdout(), &file[..size]) {
        let _ = eprintln!(rt; "report: standard output could not be written whole: {e}");
        return ExitCode::FAILURE;
    }
    ExitCode::SUCCESS
}
