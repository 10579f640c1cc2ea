// Numbers into pools.
use crate::script::{Fault, Place, Script};
use worlds::{Pools, put};

impl Place {
    /// Writes a number, a negative one with `minus`, and says whether the pool has this place and the number is small enough. A float is put by its bits.
    pub fn put(self, pools: &mut Pools<'_>, number: u64, minus: bool) -> bool {
        let at = self.at;
        match self.pool {
            b'b' if number <= 0xff => put(pools.bytes, at, number as u8),
            b'w' if number <= 0xffff_ffff => put(pools.words, at, number as u32),
            b't' if number <= 0x7fff_ffff_ffff_ffff => {
                let t = number as i64;
                put(pools.times, at, if minus { t.wrapping_neg() } else { t })
            }
            b'r' => put(pools.reals, at, float_bits::f64_of(number)),
            b'd' if number <= 0xffff_ffff => {
                put(pools.dists, at, float_bits::f32_of(number as u32))
            }
            _ => false,
        }
    }
}

impl Script {
    /// Puts the word's number at the next place.
    pub fn put_one(&mut self, pools: &mut Pools<'_>) -> Result<(), Fault> {
        let n = self.number;
        if !self.place.put(pools, n, self.letter == b'-') {
            return Err(Fault::NoRoom);
        }
        self.go_on(n);
        Ok(())
    }

    /// As many numbers more as the word says, each the last one plus the step.
    pub fn put_more(&mut self, pools: &mut Pools<'_>) -> Result<(), Fault> {
        if self.place.pool != b'w' {
            return Err(Fault::NotWords);
        }
        for _ in 0..self.number {
            let n = self.last.wrapping_add(self.step);
            if !self.place.put(pools, n, false) {
                return Err(Fault::NoRoom);
            }
            self.go_on(n);
        }
        Ok(())
    }

    /// As many ids as the word says.
    pub fn put_ids(&self, pools: &mut Pools<'_>) -> Result<(), Fault> {
        if self.place.pool != b'b' {
            return Err(Fault::NotBytes);
        }
        let mut at = self.place.at;
        for k in 0..self.number {
            if !put_id(pools.bytes, at, k) {
                return Err(Fault::TooManyIds);
            }
            at = at.wrapping_add(3);
        }
        Ok(())
    }
}

// Id k: three digits in base 95, from a space on.
fn put_id(bytes: &mut [u8], at: usize, k: u64) -> bool {
    put(bytes, at, (32 + k / 9025 % 95) as u8)
        && put(bytes, at.wrapping_add(1), (32 + k / 95 % 95) as u8)
        && put(bytes, at.wrapping_add(2), (32 + k % 95) as u8)
}
