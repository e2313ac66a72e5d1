// The cases of standard input: each line's name, its call and the call's arguments.

ghost use Rattle.std.specs.Prelude.{◌≡◌, ◌≤◌, ◌↔◌, IfOk, IfErr, IsOk, IsNone};
ghost use Rattle.std.specs.IoError.{error_kind};
ghost use Rattle.std.specs.Vec.{vec_len};

use crate::ReadError;
use crate::lists::{Element, read_list};
use std::alloc::{AllocError, Global};
use std::io::{BufRead, BufReader, BufWriter, ErrorKind, Read, Write};
use std::num::TryFromIntError;
use std::{io, str};
use table::MAX_PLAYERS;

// The most bytes of a line, its end included, and the most elements of a list.
pub const LINE: usize = 65536;

pub const ELEMENTS: usize = 65538;

// How many bytes are asked for and given back before the first line. The C library hands the memory
// of a long list back to the system as soon as the list goes, and would fetch its pages anew for
// the next line; of a block that was given back it learns to keep as much, and twice that of all
// lists.
const KEPT: usize = 4 * 8 * ELEMENTS;

// The most bytes that go to the output's buffer at once, which has room for eight times as many.
const PIECE: usize = 1024;

// The fields of a line that are not read yet, and the most elements that a list of them may have.
#[derive(Drop)]
pub struct Arguments<'a> {
    rest: Option<&'a str>,
    most: usize,
    pub alloc: Global,
}

impl<'a> Arguments<'a> {
    // The next field, without the spaces around it.
    fn field(&mut self) -> Result<&'a str, ReadError>
        ensures kept { self.new.most ≡ self.old.most }
    {
        let rest = self.rest.ok_or(ReadError::Unreadable)?;
        let field = match rest.split_once('|') {
            Some((field, others)) => {
                self.rest = Some(others);
                field
            }
            None => {
                self.rest = None;
                rest
            }
        };
        Ok(field.trim_matches(' '))
    }

    fn one<T: Element>(&mut self) -> Result<T, ReadError>
        ensures kept { self.new.most ≡ self.old.most }
    {
        T::parse(self.field()?).ok_or(ReadError::Unreadable)
    }

    fn list<T: Element>(&mut self) -> Result<Vec<T>, ReadError>
        ensures most { IfOk result (λ list. vec_len list ≤ self.old.most) }
        ensures kept { self.new.most ≡ self.old.most }
    {
        read_list(self.field()?, self.most, self.alloc)
    }

    pub fn number(&mut self) -> Result<usize, ReadError>
        ensures kept { self.new.most ≡ self.old.most }
    {
        self.one()
    }

    pub fn float(&mut self) -> Result<f64, ReadError>
        ensures kept { self.new.most ≡ self.old.most }
    {
        self.one()
    }

    pub fn numbers(&mut self) -> Result<Vec<usize>, ReadError>
        ensures most { IfOk result (λ list. vec_len list ≤ self.old.most) }
        ensures kept { self.new.most ≡ self.old.most }
    {
        self.list()
    }

    pub fn floats(&mut self) -> Result<Vec<f64>, ReadError>
        ensures most { IfOk result (λ list. vec_len list ≤ self.old.most) }
        ensures kept { self.new.most ≡ self.old.most }
    {
        self.list()
    }

    // A table's counts and payoffs.
    pub fn table(&mut self) -> Result<(Vec<usize>, Vec<f64>), ReadError>
        ensures counts { IfOk result (λ lists. vec_len lists.0 ≤ self.old.most) }
        ensures payoffs { IfOk result (λ lists. vec_len lists.1 ≤ self.old.most) }
        ensures kept { self.new.most ≡ self.old.most }
    {
        let counts = self.numbers()?;
        let payoffs = self.floats()?;
        Ok((counts, payoffs))
    }

    // Numbers that a smaller type has.
    fn narrow<T: TryFrom<usize, Error = TryFromIntError> + Drop>(
        &mut self,
    ) -> Result<Vec<T>, ReadError>
        ensures most { IfOk result (λ list. vec_len list ≤ self.old.most) }
        ensures kept { self.new.most ≡ self.old.most }
    {
        let list = self.numbers()?;
        let mut narrow = Vec::with_capacity(self.alloc, list.len())?;
        for n in list.iter() {
            narrow.push(T::try_from(*n).ok().ok_or(ReadError::Unreadable)?)?;
        }
        Ok(narrow)
    }

    // Numbers below 256.
    pub fn bytes(&mut self) -> Result<Vec<u8>, ReadError>
        ensures most { IfOk result (λ list. vec_len list ≤ self.old.most) }
        ensures kept { self.new.most ≡ self.old.most }
    {
        self.narrow()
    }

    // Numbers below 2^32.
    pub fn words(&mut self) -> Result<Vec<u32>, ReadError>
        ensures most { IfOk result (λ list. vec_len list ≤ self.old.most) }
        ensures kept { self.new.most ≡ self.old.most }
    {
        self.narrow()
    }

    // A number for each player's place.
    pub fn eight(&mut self) -> Result<[usize; MAX_PLAYERS], ReadError>
        ensures kept { self.new.most ≡ self.old.most }
    {
        let list = self.numbers()?;
        match list.as_slice().try_into() {
            Ok(places) => Ok(places),
            Err(_) => Err(ReadError::Unreadable),
        }
    }

    // There are no more fields.
    pub fn end(&self) -> Result<(), ReadError>
        ensures end { IsOk result ↔ IsNone self.now.rest }
    {
        match self.rest {
            Some(_) => Err(ReadError::Unreadable),
            None => Ok(()),
        }
    }
}

// The bytes without the spaces before and after them.
fn trimmed(bytes: &[u8]) -> &[u8] {
    let first = bytes.iter().position(|b| *b != b' ').unwrap_or(0);
    let end = bytes
        .iter()
        .rposition(|b| *b != b' ')
        .map_or(0, |last| last + 1);
    bytes.get(first..end).unwrap_or(&[])
}

// A line's name, and the text after it. There is no such text where it has no field more.
fn name_and_rest(line: &[u8]) -> (&[u8], Option<&str>) {
    match line.iter().position(|b| *b == b'|') {
        Some(at) => (trimmed(&line[..at]), str::from_utf8(&line[at + 1..]).ok()),
        None => (trimmed(line), None),
    }
}

// What a line's call tells.
fn tell_call<F>(
    name: &[u8],
    rest: Option<&str>,
    most: usize,
    call: &mut F,
    told: &mut String,
) -> Result<(), ReadError>
where
    F: FnMut(&str, &mut Arguments<'_>, &mut String) -> Result<(), ReadError>,
    requires { F.IsAlwaysCallable call.old }
    ensures { F.IsAlwaysCallable call.new }
{
    let mut arguments = Arguments {
        rest,
        most,
        alloc: *told.allocator(),
    };
    let field = arguments.field()?;
    if name.is_empty() {
        return Err(ReadError::Unreadable);
    }
    call(field, &mut arguments, told)
}

// Writes a line's name and what its call tells. A piece for which there is no room, since what came
// before it cannot be written, is tried once more. Of an output that cannot be written a program
// says nothing: what it printed is compared.
fn run_line<W: Write, F>(
    line: &[u8],
    most: usize,
    call: &mut F,
    told: &mut String,
    output: &mut W,
) -> Result<(), AllocError>
where
    F: FnMut(&str, &mut Arguments<'_>, &mut String) -> Result<(), ReadError>,
    requires { F.IsAlwaysCallable call.old }
    ensures { F.IsAlwaysCallable call.new }
{
    let (name, rest) = name_and_rest(line);
    told.clear();
    match tell_call(name, rest, most, call, told) {
        Ok(()) => {}
        Err(ReadError::Unreadable) => {
            told.clear();
            told.push_str(" cannot be read")?;
        }
        Err(ReadError::Memory(e)) => return Err(e),
    }
    for part in [name, b":", told.as_bytes(), b"\n"] {
        for piece in part.chunks(PIECE) {
            if output.write_all(piece).is_err() {
                let _ = output.write_all(piece);
            }
        }
    }
    Ok(())
}

// What was read of the input: a whole line, the start of a line that is too long, or nothing, since
// it ended.
pub enum Line {
    Whole,
    TooLong,
    End,
}

// Reads the next line, without its end.
pub fn read_line<R: BufRead>(input: &mut R, line: &mut Vec<u8>) -> io::Result<Line>
    ensures too_long { IfOk result (λ read. read ≡ Line.TooLong → vec_len line.new ≡ 65536) }
    ensures end { IfOk result (λ read. read ≡ Line.End → vec_len line.new ≡ 0) }
{
    line.clear();
    if input.by_ref().take(LINE as u64).read_until(b'\n', line)? == 0 {
        return Ok(Line::End);
    }
    if line.last() == Some(&b'\n') {
        line.pop();
    } else if line.len() == LINE {
        return Ok(Line::TooLong);
    }
    Ok(Line::Whole)
}

fn is_remark(line: &[u8]) -> bool {
    line.is_empty() || line.starts_with(b"#")
}

// Runs each line of standard input, but for remarks where the program has them. A line that is too
// long ends the run, and so does an input that cannot be read: what came before is the last line.
// Memory that runs out is the only error.
fn run<R: Input + Print + AllocGlobal, F>(
    rt: &R,
    most: usize,
    has_remarks: bool,
    mut call: F,
) -> io::Result<()>
where
    F: FnMut(&str, &mut Arguments<'_>, &mut String) -> Result<(), ReadError>,
    requires { F.IsAlwaysCallable call }
    ensures memory { IfErr result (λ e. error_kind e ≡ ErrorKind.OutOfMemory) }
{
    let _ = Vec::<u8>::with_capacity(rt.alloc(), KEPT);
    let mut input = BufReader::new(rt.alloc(), rt.reader())?;
    let mut output = BufWriter::new(rt.alloc(), io::writer(rt))?;
    let mut told = String::new(rt.alloc());
    let mut line = Vec::new(rt.alloc());
    for _ in 0..u64::MAX {
        let is_last = match read_line(&mut input, &mut line) {
            Ok(Line::Whole) => false,
            Ok(Line::TooLong) => {
                let _ = writeln!(output, "a line that is too long");
                break;
            }
            Ok(Line::End) => break,
            Err(e) if e.kind() == ErrorKind::OutOfMemory => return Err(e),
            Err(_) if line.is_empty() => break,
            Err(_) => true,
        };
        if !(has_remarks && is_remark(&line)) {
            run_line(&line, most, &mut call, &mut told, &mut output)?;
            // before the next line may have to be waited for
            let _ = output.flush();
        }
        if is_last {
            break;
        }
    }
    let _ = output.flush();
    Ok(())
}

// Runs each line of standard input that is no remark. Memory that runs out is the only error.
pub fn run_lines<R: Input + Print + AllocGlobal, F>(rt: &R, most: usize, call: F) -> io::Result<()>
where
    F: FnMut(&str, &mut Arguments<'_>, &mut String) -> Result<(), ReadError>,
    requires { F.IsAlwaysCallable call }
    ensures memory { IfErr result (λ e. error_kind e ≡ ErrorKind.OutOfMemory) }
{
    run(rt, most, true, call)
}

// Runs each line of standard input: of a program that has no remarks. Memory that runs out is the
// only error.
pub fn run_all_lines<R: Input + Print + AllocGlobal, F>(
    rt: &R,
    most: usize,
    call: F,
) -> io::Result<()>
where
    F: FnMut(&str, &mut Arguments<'_>, &mut String) -> Result<(), ReadError>,
    requires { F.IsAlwaysCallable call }
    ensures memory { IfErr result (λ e. error_kind e ≡ ErrorKind.OutOfMemory) }
{
    run(rt, most, false, call)
}
