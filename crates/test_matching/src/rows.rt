// A line's fields, and where each goes. Columns are counted as crate `worlds` counts them.
#[derive(Clone, Copy)]
pub struct Row {
    // the table's letter, 0 before it, and its first column
    pub letter: u8,
    pub first: u32,
    // the row, and the column of the field that is read; outside of a field before the first tab
    pub row: u32,
    pub column: u32,
    pub inside: bool,
    // a number so far
    pub number: u32,
    pub minus: bool,
    // an id so far: where it begins and ends in the bytes
    pub start: u32,
    pub end: u32,
}

// What a column holds.
#[derive(Clone, Copy, PartialEq, Eq)]
pub enum Held {
    Ids,
    Words,
    Flags,
    Times,
    // which all are missing
    Distances,
}

impl Row {
    pub(crate) fn new(end: u32) -> Self {
        Row {
            letter: 0,
            first: 0,
            row: 0,
            column: 0,
            inside: false,
            number: 0,
            minus: false,
            start: end,
            end,
        }
    }

    // A row of a table, whose letter was read.
    pub(crate) fn begin(&mut self, letter: u8, first: u32, row: u32) {
        self.letter = letter;
        self.first = first;
        self.row = row;
        self.column = first;
    }

    pub(crate) fn is_id(&self) -> bool {
        held_in(self.column) == Held::Ids
    }

    // One byte more of an id.
    pub(crate) fn lengthen(&mut self) {
        self.end = self.end.wrapping_add(1);
    }

    // One byte more of a number.
    pub(crate) fn add_digit(&mut self, b: u8) {
        if b == b'-' {
            self.minus = true;
        } else {
            self.number = self.number % 429496729 * 10 + (b % 16) as u32;
        }
    }

    pub(crate) fn next_field(&mut self) {
        if self.inside {
            self.column = next_column(self.column);
        }
        self.inside = true;
        self.number = 0;
        self.minus = false;
        self.start = self.end;
    }
}

// The first column of a table.
pub(crate) fn first_column(letter: u8) -> u32 {
    match letter {
        b't' => 10,
        b'k' => 19,
        b'c' => 22,
        b'a' => 34,
        b'l' => 38,
        b'f' => 41,
        b'r' => 43,
        b'e' => 50,
        b'j' => 78,
        _ => 86,
    }
}

pub(crate) fn held_in(column: u32) -> Held {
    match column {
        10 | 12 | 19 | 34 | 36 | 38 | 41 | 43 | 45 | 50 | 52 | 78 | 80 | 86 | 88 => Held::Ids,
        15 | 16 | 27 | 49 | 55 | 82 | 84 => Held::Flags,
        83 | 85 => Held::Times,
        26 => Held::Distances,
        _ => Held::Words,
    }
}

// A column of ids has two places.
fn next_column(column: u32) -> u32 {
    let places = if held_in(column) == Held::Ids { 2 } else { 1 };
    column.wrapping_add(places)
}
