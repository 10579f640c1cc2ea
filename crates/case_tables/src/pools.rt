// The pools that a program lends, and how much of them a case has. They are slices of fixed length: how much a case may hold is part of its language (docs/CASES.md).
ghost use Rattle.std.specs.Prelude.{◌≡◌, ◌≤◌, OnOk, OnErr};

use crate::held::Case;
use crate::place::{IdPlace, put};
use crate::{layout, limits};
use ids::Lent;

#[derive(Drop)]
pub struct Pools<'a> {
    pub bytes: &'a mut [u8],
    pub words: &'a mut [u32],
    pub times: &'a mut [i64],
    pub reals: &'a mut [f64],
    pub dists: &'a mut [f32],
    pub held: Case,
}

// Why an id is not put.
#[derive(Clone, Copy, Debug, PartialEq, Eq)]
pub enum NotPut {
    // the text is no id, or one of too many bytes
    NoId,
    // more id bytes than are held
    Full,
}

impl Pools<'_> {
    // What of them the operations are lent.
    pub fn lent(&self) -> Lent<'_>
        ensures bytes { result.bytes.now ≡ self.now.bytes.now }
        ensures words { result.words.now ≡ self.now.words.now }
        ensures times { result.times.now ≡ self.now.times.now }
        ensures reals { result.reals.now ≡ self.now.reals.now }
        ensures dists { result.dists.now ≡ self.now.dists.now }
    {
        Lent {
            bytes: self.bytes,
            words: self.words,
            times: self.times,
            reals: self.reals,
            dists: self.dists,
        }
    }

    // Puts an id after the others, as a row of a column.
    pub fn put_id(&mut self, column: IdPlace, row: u32, s: &[u8]) -> Result<(), NotPut>
        ensures ok { OnOk result (self.new.held.id_bytes ≤ 131072) }
        ensures err { OnErr result (self.new.held ≡ self.old.held) }
    {
        let before = self.held.id_bytes;
        let left = limits::ID_BYTES.checked_sub(before).ok_or(NotPut::Full)?;
        let n = case_ids::id_length(s, limits::ID as usize).ok_or(NotPut::NoId)?;
        if (left as usize) < n {
            return Err(NotPut::Full);
        }
        let start = layout::IDS + before;
        case_ids::put_id(self.bytes, start as usize, n, s);
        put(self.words, column.at, row, start);
        put(self.words, column.lengths(), row, n as u32);
        self.held.id_bytes = before + n as u32;
        Ok(())
    }

    // The id of a row, as a row of another column too.
    pub fn copy_id(&mut self, column: IdPlace, row: u32, to: IdPlace, to_row: u32)
        ensures { self.new.held ≡ self.old.held }
    {
        let start = ids::word(self.words, column.at as usize + row as usize);
        put(self.words, to.at, to_row, start);
        let length = ids::word(self.words, column.lengths() as usize + row as usize);
        put(self.words, to.lengths(), to_row, length);
    }
}
