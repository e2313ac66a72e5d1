// What the test programs print, as docs/TESTING.md has it: numbers, floats, what a call told and what
// its outputs hold, each after a space.
#![tactic(auto)]

ghost use Rattle.std.specs.Prelude.{◌≡◌, OnOk, IfErr, to_bits};
ghost use Rattle.std.specs.Float.{binary64};
ghost use Rattle.std.specs.IoError.{error_kind};
ghost use Rattle.std.specs.String.{string_bytes};
ghost use Rattle.test_print.specs.Told.{IsAdded};

use refusal::{Listed, NormalFormError};
use std::alloc::AllocError;
use std::io;
use std::io::{BufWriter, ErrorKind, Write};

// The most elements of an output that is printed whole.
const WHOLE: usize = 128;

// The first and the last elements of a longer one that are printed.
const FIRST: usize = 4;

const LAST: usize = 5;

// What a line of a test program can tell. It is written after a space.
pub trait Tell: Copy {
    fn tell(self, out: &mut String) -> Result<(), AllocError>
        ensures added { OnOk result (IsAdded (string_bytes out.old) (string_bytes out.new)) };
}

// What an output's element can be. Its word counts in the sums of a long output.
pub trait Element: Tell {
    fn word(self) -> usize;
}

// An accepted call that has nothing more to tell.
impl Tell for () {
    fn tell(self, _out: &mut String) -> Result<(), AllocError> {
        Ok(())
    }
}

impl Tell for bool {
    fn tell(self, out: &mut String) -> Result<(), AllocError> {
        out.push_str(if self { " yes" } else { " no" })
    }
}

impl Tell for usize {
    fn tell(self, out: &mut String) -> Result<(), AllocError> {
        write!(out, " {self}")
    }
}

impl Element for usize {
    fn word(self) -> usize
        ensures { result ≡ self }
    {
        self
    }
}

impl Tell for u8 {
    fn tell(self, out: &mut String) -> Result<(), AllocError> {
        write!(out, " {self}")
    }
}

impl Element for u8 {
    fn word(self) -> usize
        ensures { result ≡ self }
    {
        usize::from(self)
    }
}

impl Tell for u32 {
    fn tell(self, out: &mut String) -> Result<(), AllocError> {
        write!(out, " {self}")
    }
}

impl Element for u32 {
    fn word(self) -> usize
        ensures { result ≡ self }
    {
        self as usize
    }
}

// The magnitude, after a minus sign where it is negative or -0.0, or `NaN`.
impl Tell for f64 {
    fn tell(self, out: &mut String) -> Result<(), AllocError> {
        if self.is_nan() {
            return out.push_str(" NaN");
        }
        out.push_str(if self.is_sign_negative() { " -" } else { " " })?;
        tell_magnitude(self.abs(), out)
    }
}

// Its bits; those of one NaN for every NaN.
impl Element for f64 {
    fn word(self) -> usize
        ensures { result ≡ to_bits binary64 self }
    {
        if self.is_nan() {
            0x7ff8000000000000
        } else {
            self.to_bits() as usize
        }
    }
}

// The total and the number written of a listing.
impl Tell for Listed {
    fn tell(self, out: &mut String) -> Result<(), AllocError> {
        self.total.tell(out)?;
        self.written.tell(out)
    }
}

// A refusal's number.
impl Tell for NormalFormError {
    fn tell(self, out: &mut String) -> Result<(), AllocError> {
        let number = self.number();
        write!(out, " refused {number}")
    }
}

// What a call told: that it was accepted and its value, or the refusal.
impl<T: Tell> Tell for Result<T, NormalFormError> {
    fn tell(self, out: &mut String) -> Result<(), AllocError> {
        match self {
            Ok(value) => {
                out.push_str(" ok")?;
                value.tell(out)
            }
            Err(e) => e.tell(out),
        }
    }
}

// A float that has no minus sign and is no NaN: a whole number below 2^64 in decimal, infinity by its
// name, and any other by its bits.
fn tell_magnitude(x: f64, out: &mut String) -> Result<(), AllocError>
    ensures added { OnOk result (IsAdded (string_bytes out.old) (string_bytes out.new)) }
{
    if x.is_infinite() {
        return out.push_str("infinity");
    }
    if x < 18446744073709551616.0 {
        let n = std::num::saturating_f64_to_u64(x);
        if std::num::nearest_u64_to_f64(n) == x {
            return write!(out, "{n}");
        }
    }
    out.push_str("bits")?;
    tell_bits(x, out)
}

// A float's bits, in hexadecimal. A NaN has none here.
pub fn tell_bits(x: f64, out: &mut String) -> Result<(), AllocError>
    ensures added { OnOk result (IsAdded (string_bytes out.old) (string_bytes out.new)) }
{
    if x.is_nan() {
        return out.push_str(" NaN");
    }
    let bits = x.to_bits();
    write!(out, " {bits:016x}")
}

// Each element of the list.
pub fn tell_all<T: Tell>(list: &[T], out: &mut String) -> Result<(), AllocError>
    ensures added { OnOk result (IsAdded (string_bytes out.old) (string_bytes out.new)) }
{
    for x in list {
        x.tell(out)?;
    }
    Ok(())
}

// The sum of the words, modulo 2^64, and the sum of the sums of the first one, the first two and so
// on, which tells their order too.
fn tell_sums<T: Element>(list: &[T], out: &mut String) -> Result<(), AllocError>
    ensures added { OnOk result (IsAdded (string_bytes out.old) (string_bytes out.new)) }
{
    let mut all = 0usize;
    let mut sums = 0usize;
    for x in list {
        all = all.wrapping_add(x.word());
        sums = sums.wrapping_add(all);
    }
    write!(out, " sum {all} {sums}")
}

// An output: whole, or its first and last elements and the sums.
pub fn tell_output<T: Element>(list: &[T], out: &mut String) -> Result<(), AllocError>
    ensures added { OnOk result (IsAdded (string_bytes out.old) (string_bytes out.new)) }
{
    out.push_str(",")?;
    if list.len() <= WHOLE {
        return tell_all(list, out);
    }
    tell_all(&list[..FIRST], out)?;
    out.push_str(" ..")?;
    tell_all(&list[list.len() - LAST..], out)?;
    tell_sums(list, out)
}

// Prints each line of the text by itself. One that cannot be written is tried again with the next
// one. Of an output that cannot be written at all a program says nothing: what it printed is
// compared. Memory that runs out is the only error.
pub fn print_lines<R: Print + AllocGlobal>(text: &str, rt: &R) -> io::Result<()>
    ensures memory { IfErr result (λ e. error_kind e ≡ ErrorKind.OutOfMemory) }
{
    let room = text.len().saturating_add(1);
    let mut output = BufWriter::with_capacity(rt.alloc(), room, io::writer(rt))?;
    for line in text.split_inclusive('\n') {
        let _ = output.write_all(line.as_bytes());
        let _ = output.flush();
    }
    Ok(())
}
