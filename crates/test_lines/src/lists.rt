// Lists of items, as docs/TESTING.md has them.

ghost use Rattle.std.specs.Prelude.{◌≡◌, ◌+◌, ◌≤◌, OnOk, IfOk, from_bits, to_bits};
ghost use Rattle.std.specs.Float.{binary64};
ghost use Rattle.std.specs.Vec.{vec_len};
ghost use Rattle.test_lines.specs.Room.{spoken_for};

use crate::ReadError;
use std::alloc::Global;

// What a list's element can be.
pub trait Element: Copy {
    // The element that a text is.
    fn parse(text: &str) -> Option<Self>;

    // The element of a run that comes after so many others.
    fn in_run(first: Self, step: Self, place: usize) -> Self;
}

// Decimal digits alone: `parse` takes a sign too.
fn decimal(text: &str) -> Option<usize> {
    if !text.bytes().all(|b| b.is_ascii_digit()) {
        return None;
    }
    text.parse().ok()
}

// 1 to 16 hexadecimal digits.
fn hexadecimal(digits: &str) -> Option<u64> {
    if digits.len() > 16 || !digits.bytes().all(|b| b.is_ascii_hexdigit()) {
        return None;
    }
    u64::from_str_radix(digits, 16).ok()
}

impl Element for usize {
    fn parse(text: &str) -> Option<usize> {
        match text.strip_prefix("0x") {
            Some(digits) => Some(hexadecimal(digits)? as usize),
            None => decimal(text),
        }
    }

    fn in_run(first: usize, step: usize, place: usize) -> usize {
        first.wrapping_add(step.wrapping_mul(place))
    }
}

// The f64 of 64 bits. Those of every NaN give 0.0 / 0.0.
pub fn float_of(bits: u64) -> f64
    ensures { result ≡ from_bits binary64 bits }
{
    // the exponent's field
    if bits % 0x8000000000000000 / 0x10000000000000 != 0x7ff {
        return f64::from_bits(bits);
    }
    // an infinity
    if bits % 0x10000000000000 == 0 {
        return f64::from_bits(bits);
    }
    0.0 / 0.0
}

// The bits of every NaN.
const NAN_BITS: u64 = 0x7ff8000000000000;

// The bits of an f64; those of one NaN for every NaN.
pub fn bits_of(x: f64) -> u64
    ensures { result ≡ to_bits binary64 x }
{
    if x == x { x.to_bits() } else { NAN_BITS }
}

// The float of 16 hexadecimal digits, which are no NaN's bits.
fn float_of_bits(digits: &str) -> Option<f64> {
    if digits.len() != 16 {
        return None;
    }
    let x = float_of(hexadecimal(digits)?);
    if x.is_nan() { None } else { Some(x) }
}

// The float nearest to a decimal whole number.
fn whole_float(text: &str) -> Option<f64> {
    Some(std::num::nearest_usize_to_f64(decimal(text)?))
}

impl Element for f64 {
    fn parse(text: &str) -> Option<f64> {
        if text == "NaN" {
            return Some(f64::NAN);
        }
        if let Some(digits) = text.strip_prefix("0x") {
            return float_of_bits(digits);
        }
        match text.strip_prefix('-') {
            Some(magnitude) => Some(-whole_float(magnitude)?),
            None => whole_float(text),
        }
    }

    // The first element is not added to, since a sum loses the sign of -0.0.
    fn in_run(first: f64, step: f64, place: usize) -> f64 {
        if place == 0 {
            first
        } else {
            first + std::num::nearest_usize_to_f64(place) * step
        }
    }
}

// Adds n elements to a list: x, or by a step from x on.
fn push_run<T: Element>(list: &mut Vec<T>, n: usize, x: T, step: Option<T>) -> Result<(), ReadError>
    ensures len { OnOk result (vec_len list.new ≡ vec_len list.old + n) }
{
    match step {
        Some(step) => {
            for place in 0..n {
                list.push(T::in_run(x, step, place))?;
            }
        }
        None => {
            let len = list.len().checked_add(n).ok_or(ReadError::Unreadable)?;
            list.resize(len, x)?;
        }
    }
    Ok(())
}

// A group that is open: how often its elements come, and the place of the first.
#[derive(Clone, Copy)]
struct Group {
    times: usize,
    first: usize,
}

// A list as far as it is read: the elements, those of the open group last, that group, and how many
// more elements there may be.
#[derive(Drop)]
struct Reading<T> {
    elements: Vec<T>,
    group: Option<Group>,
    room: usize,
}

impl<T: Element> Reading<T> {
    // Takes room for so many elements.
    fn take_room(&mut self, n: usize) -> Result<(), ReadError>
        ensures room { OnOk result (self.new.room + n ≡ self.old.room) }
        ensures elements { self.new.elements ≡ self.old.elements }
        ensures group { self.new.group ≡ self.old.group }
    {
        self.room = self.room.checked_sub(n).ok_or(ReadError::Unreadable)?;
        Ok(())
    }

    // Takes memory for n elements, which have taken their room. It is twice what there was, where
    // that is more, so that many short runs are not copied each time, but for no more elements than
    // there may be.
    fn reserve(&mut self, n: usize) -> Result<(), ReadError>
        ensures elements { vec_len self.new.elements ≡ vec_len self.old.elements }
        ensures room { self.new.room ≡ self.old.room }
        ensures group { self.new.group ≡ self.old.group }
    {
        let len = self.elements.len();
        if self.elements.capacity().saturating_sub(len) < n {
            let most = self.room.saturating_add(n);
            self.elements.reserve_exact(n.max(len.min(most)))?;
        }
        Ok(())
    }

    // Adds n elements: x, or by a step from x on.
    fn add_run(&mut self, n: usize, x: T, step: Option<T>) -> Result<(), ReadError>
        ensures held { OnOk result (spoken_for self.new ≤ spoken_for self.old) }
    {
        self.take_room(n)?;
        self.reserve(n)?;
        push_run(&mut self.elements, n, x, step)
    }

    // `x` or `x+s`, n times.
    fn read_run(&mut self, n: usize, run: &str) -> Result<(), ReadError>
        ensures held { OnOk result (spoken_for self.new ≤ spoken_for self.old) }
    {
        let (x, step) = match run.split_once('+') {
            Some((x, step)) => (x, Some(T::parse(step).ok_or(ReadError::Unreadable)?)),
            None => (run, None),
        };
        self.add_run(n, T::parse(x).ok_or(ReadError::Unreadable)?, step)
    }

    // `p=x`: the element at place p becomes x.
    fn read_put(&mut self, text: &str) -> Result<(), ReadError>
        ensures held { OnOk result (spoken_for self.new ≤ spoken_for self.old) }
    {
        let (place, x) = text.split_once('=').ok_or(ReadError::Unreadable)?;
        let place = decimal(place).ok_or(ReadError::Unreadable)?;
        let x = T::parse(x).ok_or(ReadError::Unreadable)?;
        if self.group.is_some() {
            return Err(ReadError::Unreadable);
        }
        let element = self.elements.get_mut(place).ok_or(ReadError::Unreadable)?;
        *element = x;
        Ok(())
    }

    // An item that is no group.
    fn read_item(&mut self, item: &str) -> Result<(), ReadError>
        ensures held { OnOk result (spoken_for self.new ≤ spoken_for self.old) }
    {
        if let Some(text) = item.strip_prefix('@') {
            return self.read_put(text);
        }
        match item.split_once('*') {
            Some((n, run)) => self.read_run(decimal(n).ok_or(ReadError::Unreadable)?, run),
            None => self.add_run(1, T::parse(item).ok_or(ReadError::Unreadable)?, None),
        }
    }

    // The opening bracket of a group.
    fn open_group(&mut self, times: usize) -> Result<(), ReadError>
        ensures held { OnOk result (spoken_for self.new ≤ spoken_for self.old) }
    {
        if self.group.is_some() {
            return Err(ReadError::Unreadable);
        }
        self.group = Some(Group {
            times,
            first: self.elements.len(),
        });
        Ok(())
    }

    // The closing bracket. The group's elements have taken their room once; where they come no time
    // it is free again. Nothing any number of times is nothing.
    fn close_group(&mut self) -> Result<(), ReadError>
        ensures held { OnOk result (spoken_for self.new ≤ spoken_for self.old) }
    {
        let group = self.group.take().ok_or(ReadError::Unreadable)?;
        let end = self.elements.len();
        let width = end.saturating_sub(group.first);
        if width == 0 {
            return Ok(());
        }
        match group.times.checked_sub(1) {
            Some(more) => {
                let rest = width.checked_mul(more).ok_or(ReadError::Unreadable)?;
                self.take_room(rest)?;
                self.reserve(rest)?;
                for _ in 0..more {
                    self.elements.extend_from_within(group.first..end)?;
                }
            }
            None => {
                self.elements.truncate(group.first);
                self.room = self.room.saturating_add(width);
            }
        }
        Ok(())
    }

    // What stands between two spaces: an item, after the opening bracket of a group, before a closing
    // bracket, or both.
    fn read_word(&mut self, word: &str) -> Result<(), ReadError>
        ensures held { OnOk result (spoken_for self.new ≤ spoken_for self.old) }
    {
        let mut rest = word;
        if let Some((times, items)) = word.split_once("*(") {
            self.open_group(decimal(times).ok_or(ReadError::Unreadable)?)?;
            rest = items;
        }
        let before = rest.strip_suffix(')');
        let item = before.unwrap_or(rest);
        if !item.is_empty() {
            self.read_item(item)?;
        }
        if before.is_some() {
            self.close_group()?;
        }
        Ok(())
    }
}

// The list that a text is, of at most so many elements.
pub fn read_list<T: Element>(text: &str, most: usize, alloc: Global) -> Result<Vec<T>, ReadError>
    ensures most { IfOk result (λ list. vec_len list ≤ most) }
{
    let mut reading = Reading {
        elements: Vec::new(alloc),
        group: None,
        room: most,
    };
    for word in text.split(' ') {
        if !word.is_empty() {
            reading.read_word(word)?;
        }
    }
    if reading.group.is_some() {
        return Err(ReadError::Unreadable);
    }
    Ok(reading.elements)
}
