// The script's words.
use fault_scripts::{Place, digit};

#[derive(Clone, Copy)]
pub struct Script {
    // the word that is being read: its letter, 0 before it, and its number so far
    pub letter: u8,
    pub number: u64,
    // where the next number goes
    pub place: Place,
}

impl Script {
    pub(crate) fn new() -> Self {
        Script {
            letter: 0,
            number: 0,
            place: Place { pool: 0, at: 0 },
        }
    }

    // One byte more of a word. What is no digit counts as 0, and a digit too many is left out.
    pub(crate) fn spell(&mut self, b: u8) {
        if self.letter == 0 {
            self.letter = b;
        } else if self.number < 0x1000_0000_0000_0000 {
            let base = if self.letter == b'x' { 16 } else { 10 };
            self.number = self.number * base + digit(b).unwrap_or(0);
        }
    }

    pub(crate) fn next_word(&mut self) {
        self.letter = 0;
        self.number = 0;
    }
}
