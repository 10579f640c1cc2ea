// The lines of an input. It is read in chunks, and a line is put together in a buffer of its own, both of a fixed length: how long a line may be is part of the language.
use input_bytes::read_full;
use std::io;
use std::io::Read;

// The chunk that is read, of which the bytes from `at` up to n are not taken, and the line that is put together.
#[derive(Drop)]
pub struct Lines<'a> {
    chunk: &'a mut [u8],
    at: usize,
    n: usize,
    line: &'a mut [u8],
}

impl<'a> Lines<'a> {
    // Nothing is read yet. A line as long as `line` is held, and no longer one.
    pub fn new(chunk: &'a mut [u8], line: &'a mut [u8]) -> Lines<'a> {
        Lines {
            chunk,
            at: 0,
            n: 0,
            line,
        }
    }

    // The next byte; none where all are taken.
    fn next_byte(&mut self, input: &mut impl Read) -> io::Result<Option<u8>> {
        if self.n <= self.at {
            self.n = read_full(input, self.chunk)?;
            self.at = 0;
        }
        if self.n <= self.at {
            return Ok(None);
        }
        let at = self.at;
        self.at += 1;
        Ok(self.chunk.get(at).copied())
    }

    // The length of the next line, without its newline; the last may lack it. None where no line is left.
    pub(crate) fn next_line(&mut self, input: &mut impl Read) -> io::Result<Option<usize>> {
        for size in 0..usize::MAX {
            match self.next_byte(input)? {
                None if size == 0 => return Ok(None),
                None | Some(b'\n') => return Ok(Some(size)),
                Some(byte) => {
                    if let Some(place) = self.line.get_mut(size) {
                        *place = byte;
                    }
                }
            }
        }
        Ok(None)
    }

    // The line of that length; none where it is longer than any that is held.
    pub(crate) fn line(&self, length: usize) -> Option<&[u8]> {
        self.line.get(..length)
    }
}
