// Lines of test cases, as docs/TESTING.md has them: a name, a call and its arguments.
#![tactic(auto)]

use std::alloc::{AllocError, AllocFailed};

mod cases;
mod lists;

pub use cases::{Arguments, ELEMENTS, LINE, Line, read_line, run_all_lines, run_lines};
pub use lists::{bits_of, float_of};

// Why an argument was not read: it is not what it has to be, or memory ran out.
#[derive(Debug, Drop)]
pub enum ReadError {
    Unreadable,
    Memory(AllocError),
}

impl From<AllocError> for ReadError {
    fn from(e: AllocError) -> ReadError {
        ReadError::Memory(e)
    }
}

impl<T: Drop> From<AllocFailed<T>> for ReadError {
    fn from(e: AllocFailed<T>) -> ReadError {
        ReadError::Memory(AllocError::from(e))
    }
}
