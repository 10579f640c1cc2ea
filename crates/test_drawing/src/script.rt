// A word of the text so far, and how much of each pool is filled.
#[derive(Clone, Copy)]
pub struct Script {
    pub letter: u8,
    pub number: u64,
    pub bytes: usize,
    pub words: usize,
    pub reals: usize,
}

impl Script {
    pub(crate) fn new() -> Self {
        Script {
            letter: 0,
            number: 0,
            bytes: 0,
            words: 0,
            reals: 0,
        }
    }

    // One byte more: the letter, or a digit of the number.
    pub(crate) fn spell(&mut self, b: u8) {
        let before = self.number % 0x1000_0000_0000_0000;
        match self.letter {
            0 => self.letter = b,
            b'r' => self.number = before * 16 + (hex(b) % 16) as u64,
            _ => self.number = before * 10 + (b % 16) as u64,
        }
    }

    pub(crate) fn next_word(&mut self) {
        self.letter = 0;
        self.number = 0;
    }
}

// A digit's value.
fn hex(b: u8) -> u8 {
    if b < 64 { b % 16 } else { b % 16 + 9 }
}
