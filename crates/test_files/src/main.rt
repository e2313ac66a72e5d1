// The cases of deposit files and of the catalogue: a call of docs/TESTING.md in each arm of `tell`.
#![tactic(auto)]

use bimatrix::{Bimatrix, Matrix};
use std::alloc::{AllocError, Global};
use std::io;
use test_lines::{Arguments, ELEMENTS, ReadError, run_lines};
use test_print::{Tell, tell_output};

// The most bytes of a file that is read. Those past them are left out.
const BYTES: usize = 4 * ELEMENTS;

// The bytes of a file that has these words, each with its highest byte first, and these bytes after
// them.
fn file_of(words: &[u32], rest: &[u8], alloc: Global) -> Result<Vec<u8>, AllocError> {
    let mut file = Vec::new(alloc);
    for word in words {
        file.extend_from_slice(&word.to_be_bytes())?;
    }
    file.extend_from_slice(rest)?;
    file.truncate(BYTES);
    Ok(file)
}

// The number of a table in the catalogue, that it has none, or the refusal.
fn tell_number(counts: &[usize], payoffs: &[f64], out: &mut String) -> Result<(), AllocError> {
    match catalogue::number(counts, payoffs) {
        Ok(Some(n)) => n.tell(out),
        Ok(None) => out.push_str(" none"),
        Err(e) => e.tell(out),
    }
}

fn tell_bimatrix(game: Bimatrix, out: &mut String) -> Result<(), AllocError> {
    out.push_str(" strictly ranked")?;
    game.strictly_ranked().tell(out)?;
    out.push_str(", least key")?;
    game.least_key().tell(out)
}

// The matrix of four numbers below 256.
fn read_matrix(arguments: &mut Arguments<'_>) -> Result<Matrix, ReadError> {
    match arguments.bytes()?.as_slice() {
        [at00, at01, at10, at11] => Ok(Matrix {
            at00: *at00,
            at01: *at01,
            at10: *at10,
            at11: *at11,
        }),
        _ => Err(ReadError::Unreadable),
    }
}

fn tell(call: &str, arguments: &mut Arguments<'_>, out: &mut String) -> Result<(), ReadError> {
    match call {
        "read" => {
            let words = arguments.words()?;
            let rest = arguments.bytes()?;
            let mut counts = arguments.numbers()?;
            let mut payoffs = arguments.floats()?;
            arguments.end()?;
            let file = file_of(&words, &rest, arguments.alloc)?;
            deposit_reader::read(&file, &mut counts, &mut payoffs).tell(out)?;
            tell_output(&counts, out)?;
            tell_output(&payoffs, out)?;
        }
        "write" => {
            let (counts, payoffs) = arguments.table()?;
            let mut file = arguments.bytes()?;
            arguments.end()?;
            deposit_writer::write(&counts, &payoffs, &mut file).tell(out)?;
            tell_output(&file, out)?;
        }
        "number" => {
            let (counts, payoffs) = arguments.table()?;
            arguments.end()?;
            tell_number(&counts, &payoffs, out)?;
        }
        "keys" => {
            arguments.end()?;
            for key in catalogue::keys() {
                usize::from(key).tell(out)?;
            }
        }
        "bimatrix" => {
            let first = read_matrix(arguments)?;
            let second = read_matrix(arguments)?;
            arguments.end()?;
            tell_bimatrix(Bimatrix { first, second }, out)?;
        }
        _ => return Err(ReadError::Unreadable),
    }
    Ok(())
}

fn main(rt: HostRuntime) -> io::Result<()> {
    run_lines(&rt, ELEMENTS, tell)
}
