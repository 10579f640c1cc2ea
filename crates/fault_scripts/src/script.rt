// A script's words, and what those read so far have set.
ghost use Rattle.std.specs.Prelude.{◌<◌, IfSome};

use std::io;
use thiserror::Error;

/// Why a script is read no further.
#[derive(Debug, Drop, Error)]
pub enum Fault {
    #[error("a number too large")]
    NumberTooLarge,
    #[error("no digit")]
    NoDigit,
    #[error("a number or a place too large")]
    NoRoom,
    #[error("not among the words")]
    NotWords,
    #[error("not among the bytes")]
    NotBytes,
    #[error("too many ids")]
    TooManyIds,
    #[error("no such operation")]
    NoOperation,
    #[error("no such word")]
    NoWord,
    // no fault of the script: an answer could not be written
    #[error("{0}")]
    Io(#[from] io::Error),
}

/// Where the next number goes: a pool's letter, and a place in it.
#[derive(Clone, Copy)]
pub struct Place {
    pub pool: u8,
    pub at: usize,
}

#[derive(Clone, Copy)]
pub struct Script {
    // the word that is being read: its letter, 0 before it, and its number so far
    pub letter: u8,
    pub number: u64,
    pub place: Place,
    // the last number put, and the step to the next
    pub last: u64,
    pub step: u64,
    // the line of the case
    pub line: u64,
}

impl Script {
    pub fn new() -> Self {
        Script {
            letter: 0,
            number: 0,
            place: Place { pool: 0, at: 0 },
            last: 0,
            step: 0,
            line: 1,
        }
    }

    // One byte more of a word.
    pub fn spell(&mut self, b: u8) -> Result<(), Fault> {
        if self.letter == 0 {
            self.letter = b;
            return Ok(());
        }
        if self.number >= 0x1000_0000_0000_0000 {
            return Err(Fault::NumberTooLarge);
        }
        let base = if self.letter == b'x' { 16 } else { 10 };
        match digit(b) {
            Some(d) if d < base => {
                self.number = self.number * base + d;
                Ok(())
            }
            _ => Err(Fault::NoDigit),
        }
    }

    pub fn next_word(&mut self) {
        self.letter = 0;
        self.number = 0;
    }

    pub fn next_line(&mut self) {
        self.line = self.line.wrapping_add(1);
    }

    // The word is a pool's letter and a place in it.
    pub fn set_place(&mut self) {
        self.place = Place {
            pool: self.letter,
            at: self.number as usize,
        };
        self.step = 0;
    }

    // The word is a step.
    pub fn set_step(&mut self) {
        self.step = self.number;
    }

    // After a number was put.
    pub(crate) fn go_on(&mut self, n: u64) {
        self.last = n;
        self.place.at = self.place.at.wrapping_add(1);
    }
}

/// A hexadecimal digit's value.
pub fn digit(b: u8) -> Option<u64>
    ensures { IfSome result (λ d. d < 16) }
{
    match b {
        b'0'..=b'9' => Some((b - b'0') as u64),
        b'a'..=b'f' => Some((b - b'a') as u64 + 10),
        _ => None,
    }
}
