// What requests are read from and answers are written to, and how the conversation ends.
use std::io::{Read, Write};

// Why a request cannot be answered: docs/PIPE.md has the numbers.
#[derive(Clone, Copy)]
pub enum Why {
    NoOperation = 1,
    CutOff = 2,
    NoRoom = 3,
}

// There is no further request, or nobody takes the answer; or a request cannot be answered.
#[derive(Clone, Copy)]
pub enum End {
    Over,
    Stopped(Why),
}

#[derive(Drop)]
pub struct Channel<R, W> {
    pub from: R,
    pub to: W,
}

impl<R: Read, W: Write> Channel<R, W> {
    // As many bytes as there is room for.
    pub fn read(&mut self, into: &mut [u8]) -> Result<(), End> {
        match input::fill(&mut self.from, into) {
            Ok(n) if n == into.len() => Ok(()),
            _ => Err(End::Stopped(Why::CutOff)),
        }
    }

    pub fn write(&mut self, answer: &[u8]) -> Result<(), End> {
        match self.to.write_all(answer) {
            Ok(()) => Ok(()),
            Err(_) => Err(End::Over),
        }
    }
}
