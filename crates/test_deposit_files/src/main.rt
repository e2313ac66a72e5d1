// Deposit files, kept in data/, cut and damaged at each place, as the reader tells of them.
// Standard input has the files' names, a line each: document 01's game, tables at the limits, and
// for each fault a file that has it and, as far as bytes can, every later fault.
//
// The lines of a file: what `read` told of the file cut at each length, and with the word at each
// place damaged: another kind, which is the old one plus 1, 2 or 3, modulo 4, or another payload:
// one more modulo 2^30, 0, or all ones. Equal answers of neighbours stand together, as `FIRST to
// LAST`. Then a table with the most cells: what `write` told, with a digest of the bytes, and what
// `read` told of them, whole, cut and damaged, with outputs of several lengths.
//
// Each element of an output holds a filling before the call. `wrong` stands in place of an answer
// where a refused call wrote something, an accepted one wrote past its result, or `write` does not
// give the very file back that was read.
#![tactic(auto)]

ghost use Rattle.std.specs.Prelude.{◌≤◌, IfOk};
ghost use Rattle.std.specs.Vec.{vec_len};

use refusal::NormalFormError;
use std::alloc::{AllocError, Global};
use std::fs::Files;
use std::io::{BufReader, ErrorKind, Read};
use std::{fmt, fs, io, str};
use table::{MAX_CELLS, MAX_PLAYERS};
use test_lines::{Line, bits_of, read_line};
use test_print::{Tell, print_lines, tell_all};
use words::PAYLOADS;

// The room of the outputs that the files are read into, and of the bytes: more than the largest
// file here needs.
const COUNTS: usize = MAX_PLAYERS + 1;

const CELLS: usize = 2050;

const LENGTH: usize = 24620;

// The counts of a table with the most cells, the bytes of its file, and a word more.
const LARGE_COUNTS: [usize; 4] = [8, 8, 16, 16];

const LARGE: usize = 786456;

const LARGE_ROOM: usize = LARGE + 4;

// What stands in each element of an output before the call.
const FILLING: usize = 100;

const FLOAT_FILLING: f64 = -1234.5;

const BYTE_FILLING: u8 = 0xa5;

// The most words of a file whose payload becomes ones, since each cell then has runs of its own.
// Only the largest file has more.
const ONES: usize = 224;

// What is added to the number of an accepted call where an answer is wrong.
const ACCEPTED: usize = 100;

// How many kinds there are.
const KINDS: u32 = 4;

// ---- answers

// What a call told, and whether its outputs are as they have to be.
#[derive(Clone, Copy, PartialEq)]
struct Answer {
    told: Result<usize, NormalFormError>,
    is_right: bool,
}

// Of a wrong one a number: the refusal's, or the accepted call's, of which each is larger.
impl Tell for Answer {
    fn tell(self, out: &mut String) -> Result<(), AllocError> {
        if self.is_right {
            return self.told.tell(out);
        }
        let number = match self.told {
            Ok(n) => n.saturating_add(ACCEPTED),
            Err(e) => e.number() as usize,
        };
        write!(out, " wrong {number}")
    }
}

// Whether each element from a place on is still the filling.
fn is_kept<T: PartialEq>(list: &[T], from: usize, filling: &T) -> bool {
    list.iter().skip(from).all(|x| *x == *filling)
}

// The first n of a list, or all of it where it is shorter.
fn first<T>(list: &[T], n: usize) -> &[T] {
    &list[..n.min(list.len())]
}

// Whether both have the same bits, element after element.
fn have_same_bits(a: &[f64], b: &[f64]) -> bool {
    a.len() == b.len()
        && a.iter()
            .zip(b.iter())
            .all(|(x, y)| bits_of(*x) == bits_of(*y))
}

// Outputs to read a file into, and bytes to write it back into.
#[derive(Drop)]
struct Outputs {
    counts: Vec<usize>,
    payoffs: Vec<f64>,
    bytes: Vec<u8>,
}

impl Outputs {
    fn new(alloc: Global) -> Result<Outputs, AllocError> {
        Ok(Outputs {
            counts: vec![in alloc; FILLING; COUNTS]?,
            payoffs: vec![in alloc; FLOAT_FILLING; CELLS]?,
            bytes: vec![in alloc; BYTE_FILLING; LENGTH]?,
        })
    }

    // What the reader tells of a file. An accepted file's table has to be written as this very file.
    fn read(&mut self, file: &[u8]) -> Answer {
        self.counts.fill(FILLING);
        self.payoffs.fill(FLOAT_FILLING);
        let told = deposit_reader::read(file, &mut self.counts, &mut self.payoffs);
        let is_right = match told {
            Ok(players) => self.gives_back(file, players),
            Err(_) => self.are_kept(0, 0),
        };
        Answer { told, is_right }
    }

    fn are_kept(&self, players: usize, cells: usize) -> bool {
        is_kept(&self.counts, players, &FILLING) && is_kept(&self.payoffs, cells, &FLOAT_FILLING)
    }

    // Whether the outputs hold a table whose file this is, and the filling past it.
    fn gives_back(&mut self, file: &[u8], players: usize) -> bool {
        let cells = self
            .payoffs
            .iter()
            .take_while(|x| **x != FLOAT_FILLING)
            .count();
        self.bytes.fill(BYTE_FILLING);
        let counts = first(&self.counts, players);
        let payoffs = first(&self.payoffs, cells);
        match deposit_writer::write(counts, payoffs, &mut self.bytes) {
            Ok(n) => {
                n == file.len()
                    && self.bytes.starts_with(file)
                    && is_kept(&self.bytes, n, &BYTE_FILLING)
                    && self.are_kept(players, cells)
            }
            Err(_) => false,
        }
    }
}

// ---- damage

// A way to damage a file at a place.
#[derive(Clone, Copy)]
enum Damage {
    Cut,
    Kind(u32),
    NextPayload,
    NoPayload,
    Ones,
}

impl fmt::Display for Damage {
    fn fmt<W: fmt::Write>(&self, f: &mut fmt::Formatter<W>) -> fmt::Result {
        match self {
            Damage::Cut => write!(f, "cut"),
            Damage::Kind(more) => write!(f, "kind + {more}"),
            Damage::NextPayload => write!(f, "payload + 1"),
            Damage::NoPayload => write!(f, "payload 0"),
            Damage::Ones => write!(f, "payload of ones"),
        }
    }
}

impl Damage {
    // A word damaged so. To cut a file changes no word.
    fn word(self, word: u32) -> u32 {
        let kind = word / PAYLOADS;
        let payload = word % PAYLOADS;
        match self {
            Damage::Cut => word,
            Damage::Kind(more) => kind.wrapping_add(more) % KINDS * PAYLOADS + payload,
            Damage::NextPayload => kind * PAYLOADS + (payload + 1) % PAYLOADS,
            Damage::NoPayload => kind * PAYLOADS,
            Damage::Ones => kind * PAYLOADS + (PAYLOADS - 1),
        }
    }
}

// What the reader tells of a file that is cut at a place, or whose word at a place is damaged; the
// file is whole again afterwards.
fn tried(file: &mut [u8], damage: Damage, place: usize, outputs: &mut Outputs) -> Answer {
    if let Damage::Cut = damage {
        return outputs.read(first(file, place));
    }
    let Some(bytes) = file.chunks_exact_mut(4).nth(place) else {
        return outputs.read(file);
    };
    let word = [bytes[0], bytes[1], bytes[2], bytes[3]];
    let damaged = damage.word(u32::from_be_bytes(word)).to_be_bytes();
    bytes.copy_from_slice(&damaged);
    let answer = outputs.read(file);
    if let Some(bytes) = file.chunks_exact_mut(4).nth(place) {
        bytes.copy_from_slice(&word);
    }
    answer
}

// The answer at each place of a run.
fn tell_run(from: usize, to: usize, answer: Answer, out: &mut String) -> Result<(), AllocError> {
    from.tell(out)?;
    if from < to {
        write!(out, " to {to}")?;
    }
    answer.tell(out)?;
    out.push_str(";")
}

// The answers at each place before the last, in runs.
fn tell_damage(
    name: &str,
    file: &mut [u8],
    damage: Damage,
    places: usize,
    outputs: &mut Outputs,
    out: &mut String,
) -> Result<(), AllocError> {
    write!(out, "{name}, {damage} at")?;
    let mut from = 0;
    let mut last = tried(file, damage, 0, outputs);
    for place in 1..places {
        let next = tried(file, damage, place, outputs);
        if next != last {
            tell_run(from, place - 1, last, out)?;
            from = place;
            last = next;
        }
    }
    if from < places {
        tell_run(from, places - 1, last, out)?;
    }
    out.push_str("\n")
}

// ---- a file

// What the reader tells of a file, damaged in each way at each place.
fn tell_file(name: &str, file: &mut [u8], out: &mut String) -> Result<(), AllocError> {
    let mut outputs = Outputs::new(*out.allocator())?;
    let words = file.len() / 4;
    tell_damage(name, file, Damage::Cut, file.len() + 1, &mut outputs, out)?;
    for more in 1..KINDS {
        tell_damage(name, file, Damage::Kind(more), words, &mut outputs, out)?;
    }
    tell_damage(name, file, Damage::NextPayload, words, &mut outputs, out)?;
    tell_damage(name, file, Damage::NoPayload, words, &mut outputs, out)?;
    tell_damage(name, file, Damage::Ones, words.min(ONES), &mut outputs, out)
}

// The first LENGTH bytes of a file, or all of them where there are fewer.
fn read_file<R: Files + AllocGlobal>(rt: &R, name: &str) -> io::Result<Vec<u8>>
    ensures most { IfOk result (λ file. vec_len file ≤ 24620) }
{
    let mut file = Vec::new(rt.alloc());
    fs::open(rt, name)?
        .take(LENGTH as u64)
        .read_to_end(&mut file)?;
    // `read_to_end` does not say that it hands on the limit of `take`
    file.truncate(LENGTH);
    Ok(file)
}

// A file by its name, or a line on standard error where it cannot be read.
fn print_file<R: Files + Print + Eprint + AllocGlobal>(rt: &R, name: &str) -> io::Result<()> {
    match read_file(rt, name) {
        Ok(mut file) => {
            let mut out = String::new(rt.alloc());
            tell_file(name, &mut file, &mut out)?;
            print_lines(&out, rt)?;
        }
        Err(e) if e.kind() == ErrorKind::OutOfMemory => return Err(e),
        Err(e) => {
            let _ = eprintln!(rt; "{name}: {e}");
        }
    }
    Ok(())
}

// Each file that standard input names, until the input ends or cannot be read: what came before is
// the last name.
fn print_files<R: Files + Input + Print + Eprint + AllocGlobal>(rt: &R) -> io::Result<()> {
    let mut input = BufReader::new(rt.alloc(), rt.reader())?;
    let mut line = Vec::new(rt.alloc());
    for _ in 0..u64::MAX {
        let is_last = match read_line(&mut input, &mut line) {
            Ok(Line::Whole) => false,
            Ok(Line::TooLong) => {
                print_lines("a line that is too long\n", rt)?;
                break;
            }
            Ok(Line::End) => break,
            Err(e) if e.kind() == ErrorKind::OutOfMemory => return Err(e),
            Err(_) if line.is_empty() => break,
            Err(_) => true,
        };
        match str::from_utf8(&line) {
            Ok(name) => print_file(rt, name)?,
            Err(e) => {
                let _ = eprintln!(rt; "a file's name: {e}");
            }
        }
        if is_last {
            break;
        }
    }
    Ok(())
}

// ---- the largest table

// The payoff at a place: steps of 0.1, and extremes.
fn large_payoff(at: usize) -> f64 {
    if at == MAX_CELLS - 1 {
        return -1.7976931348623157e308;
    }
    match at {
        1 => -0.0,
        2 => -5e-324,
        3 => 1.7976931348623157e308,
        _ => -3276.75 + 0.1 * std::num::nearest_usize_to_f64(at),
    }
}

// A number below 1000000007 that tells most lists of bytes apart.
fn digest(list: &[u8]) -> u64 {
    list.iter().fold(0u64, |sum, byte| {
        sum.wrapping_mul(257).wrapping_add(u64::from(*byte)) % 1000000007
    })
}

// What the writer tells of the table, with a digest of what it wrote, into an output of so many bytes.
fn tell_write(payoffs: &[f64], room: usize, out: &mut String) -> Result<(), AllocError> {
    let mut back = vec![in *out.allocator(); BYTE_FILLING; room]?;
    let told = deposit_writer::write(&LARGE_COUNTS, payoffs, &mut back);
    let is_right = is_kept(&back, told.unwrap_or(0), &BYTE_FILLING);
    write!(out, "large, output of {room}:")?;
    Answer { told, is_right }.tell(out)?;
    if let Ok(n) = told {
        let digest = digest(first(&back, n));
        write!(out, ", digest {digest}")?;
    }
    out.push_str("\n")
}

// What the reader tells of the table's file, and whether it gives the table back, into outputs of so
// many counts and payoffs.
fn tell_read(
    name: &str,
    file: &[u8],
    payoffs: &[f64],
    counts: usize,
    cells: usize,
    out: &mut String,
) -> Result<(), AllocError> {
    let alloc = *out.allocator();
    let mut counts_back = vec![in alloc; FILLING; counts]?;
    let mut payoffs_back = vec![in alloc; FLOAT_FILLING; cells]?;
    let told = deposit_reader::read(file, &mut counts_back, &mut payoffs_back);
    let players = told.unwrap_or(0);
    let written = if told.is_ok() { payoffs.len() } else { 0 };
    let is_right = is_kept(&counts_back, players, &FILLING)
        && is_kept(&payoffs_back, written, &FLOAT_FILLING);
    let bytes = file.len();
    write!(
        out,
        "large, {name}: {bytes} bytes, outputs of {counts} {cells}:"
    )?;
    Answer { told, is_right }.tell(out)?;
    if told.is_ok() {
        out.push_str(", counts")?;
        tell_all(first(&counts_back, players), out)?;
        if have_same_bits(payoffs, first(&payoffs_back, payoffs.len())) {
            out.push_str(", the same payoffs")?;
        }
    }
    out.push_str("\n")
}

// The table is written into several outputs; its file is read whole, cut and with a wrong word at its
// end, and with outputs that are exactly long enough, longer, or too short.
fn tell_large(out: &mut String) -> Result<(), AllocError> {
    let alloc = *out.allocator();
    let payoffs: Vec<f64> = (0..MAX_CELLS).map(|at| large_payoff(at)).collect(alloc)?;
    for room in [LARGE_ROOM, LARGE, LARGE - 1, 0] {
        tell_write(&payoffs, room, out)?;
    }
    let mut file = vec![in alloc; BYTE_FILLING; LARGE_ROOM]?;
    let _ = deposit_writer::write(&LARGE_COUNTS, &payoffs, &mut file);
    let whole = first(&file, LARGE);
    tell_read("longer outputs", whole, &payoffs, 5, MAX_CELLS + 1, out)?;
    tell_read("counts short", whole, &payoffs, 3, MAX_CELLS, out)?;
    tell_read("payoffs short", whole, &payoffs, 4, MAX_CELLS - 1, out)?;
    tell_read("whole", whole, &payoffs, 4, MAX_CELLS, out)?;
    tell_read("a word after", &file, &payoffs, 4, MAX_CELLS, out)?;
    tell_read(
        "a byte short",
        first(&file, LARGE - 1),
        &payoffs,
        4,
        MAX_CELLS,
        out,
    )?;
    tell_read(
        "a word short",
        first(&file, LARGE - 4),
        &payoffs,
        4,
        MAX_CELLS,
        out,
    )?;
    if let Some(last) = file.get_mut(LARGE - 1) {
        *last = 0;
    }
    tell_read(
        "the last byte 0",
        first(&file, LARGE),
        &payoffs,
        4,
        MAX_CELLS,
        out,
    )
}

fn main(rt: HostRuntime) -> io::Result<()> {
    print_files(&rt)?;
    let mut out = String::new(rt.alloc());
    tell_large(&mut out)?;
    print_lines(&out, &rt)
}
