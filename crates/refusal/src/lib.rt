// The numbered answers that every operation gives.
#![tactic(auto)]

ghost use Rattle.std.specs.Prelude.{◌≡◌};
ghost use Rattle.refusal.specs.Numbers.{number_of, detail_of};

// The most scalars that a text may have.
pub const MAX_SCALARS: usize = 65535;

// Why a call was refused, with the detail that the host is told.
#[derive(Clone, Copy, Debug, PartialEq, Eq)]
pub enum Refusal {
    // 1: the bytes aren't well-formed UTF-8. The length of the longest well-formed prefix.
    IllFormed(usize),
    // 2: more than 65,535 scalars. That number.
    TooManyScalars(usize),
    // 3: a cell isn't a Unicode scalar value. The index of the first.
    NotAScalar(usize),
    // 4: the pool isn't a dictionary.
    NotADictionary,
    // 5: scratch has fewer than 9n+128 cells. 9n+128.
    ScratchTooShort(usize),
    // 6: the output has fewer cells than the answer. The cells needed.
    OutputTooShort(usize),
    // 7: the word is over 255 scalars after trimming. Its trimmed length.
    WordTooLong(usize),
    // 8: the pool has too few free nodes. The nodes missing.
    TooFewNodes(usize),
    // 9: a word list image isn't as said. The offset of the first record that breaks a rule.
    BadImage(usize),
    // 10: a position is wrong. The position, or its index where it is one of a list.
    WrongPosition(usize),
    // 11: a map of breaks has a bit set above n in its last used cell. The lowest such position.
    BitAboveEnd(usize),
    // 12: the limits of two plants are too large for the pool.
    LimitsTooLarge,
    // 13: a figure would be too large.
    FiguresFull,
}

impl Refusal {
    // The number that a host is told, from 1 to 13.
    pub fn number(self) -> u8
        ensures { result ≡ number_of self }
    {
        match self {
            Refusal::IllFormed(_) => 1,
            Refusal::TooManyScalars(_) => 2,
            Refusal::NotAScalar(_) => 3,
            Refusal::NotADictionary => 4,
            Refusal::ScratchTooShort(_) => 5,
            Refusal::OutputTooShort(_) => 6,
            Refusal::WordTooLong(_) => 7,
            Refusal::TooFewNodes(_) => 8,
            Refusal::BadImage(_) => 9,
            Refusal::WrongPosition(_) => 10,
            Refusal::BitAboveEnd(_) => 11,
            Refusal::LimitsTooLarge => 12,
            Refusal::FiguresFull => 13,
        }
    }

    // The refusal's detail; 0 where it has none.
    pub fn detail(self) -> usize
        ensures { result ≡ detail_of self }
    {
        match self {
            Refusal::IllFormed(d)
            | Refusal::TooManyScalars(d)
            | Refusal::NotAScalar(d)
            | Refusal::ScratchTooShort(d)
            | Refusal::OutputTooShort(d)
            | Refusal::WordTooLong(d)
            | Refusal::TooFewNodes(d)
            | Refusal::BadImage(d)
            | Refusal::WrongPosition(d)
            | Refusal::BitAboveEnd(d) => d,
            Refusal::NotADictionary => 0,
            Refusal::LimitsTooLarge | Refusal::FiguresFull => 0,
        }
    }
}
