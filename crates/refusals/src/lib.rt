// What a call answers: numbers that it tells, or one of the refusals of documents 01 and 02, each with its number and its place.
#![tactic(auto)]

ghost use Rattle.std.specs.Prelude.{◌≡◌};
ghost use Rattle.refusals.specs.Refusal.{number_of, place_of};

use formula::Word;

// A variant for each numbered refusal, in the order of the numbers; it holds its place where that varies.
#[derive(Clone, Copy)]
pub enum Refusal {
    TooLong,
    Foreign(usize),
    NoContinuation(usize),
    Unfinished(usize),
    OutputTooShort(usize),
    NoSuchRow,
    FaultyLine(usize),
    EmptyWord,
    NotABook(usize),
    AlreadyLive(usize),
    NotLive,
    BookFull(usize),
    RankTooHigh(usize),
    StopOrSign(usize),
    ConfusableDigit(usize),
    TooManySyllables,
}

impl Refusal {
    // The number that the documents give the refusal.
    pub fn number(self) -> u8
        ensures { result ≡ number_of self }
    {
        match self {
            Refusal::TooLong => 1,
            Refusal::Foreign(_) => 2,
            Refusal::NoContinuation(_) => 3,
            Refusal::Unfinished(_) => 4,
            Refusal::OutputTooShort(_) => 5,
            Refusal::NoSuchRow => 6,
            Refusal::FaultyLine(_) => 7,
            Refusal::EmptyWord => 8,
            Refusal::NotABook(_) => 11,
            Refusal::AlreadyLive(_) => 12,
            Refusal::NotLive => 13,
            Refusal::BookFull(_) => 14,
            Refusal::RankTooHigh(_) => 15,
            Refusal::StopOrSign(_) => 21,
            Refusal::ConfusableDigit(_) => 22,
            Refusal::TooManySyllables => 23,
        }
    }

    // The place that goes with the number.
    pub fn place(self) -> usize
        ensures { result ≡ place_of self }
    {
        match self {
            Refusal::TooLong => Word::LIMIT,
            Refusal::Foreign(place) => place,
            Refusal::NoContinuation(place) => place,
            Refusal::Unfinished(place) => place,
            Refusal::OutputTooShort(place) => place,
            Refusal::NoSuchRow => 0,
            Refusal::FaultyLine(place) => place,
            Refusal::EmptyWord => 0,
            Refusal::NotABook(place) => place,
            Refusal::AlreadyLive(place) => place,
            Refusal::NotLive => 0,
            Refusal::BookFull(place) => place,
            Refusal::RankTooHigh(place) => place,
            Refusal::StopOrSign(place) => place,
            Refusal::ConfusableDigit(place) => place,
            Refusal::TooManySyllables => Word::LABEL_LIMIT,
        }
    }
}

// Which of two words is refused, and why.
#[derive(Clone, Copy)]
pub enum PairRefusal {
    First(Refusal),
    Second(Refusal),
}
