// The numbers a call can hand back (the paper, 'Numbers a call can hand back').
#![tactic(auto)]

ghost use Rattle.std.specs.Prelude.{◌≡◌, []};
ghost use Rattle.refusal.specs.Step.{silent, refused_with, by_writer};
ghost use Rattle.refusal.specs.Table.{refusal_number, answer_number};

use std::error::Error;
use std::fmt;

// Why a call is refused, one case for each row of the table.
#[derive(Clone, Copy, Debug, PartialEq, Eq, Hash)]
pub enum Refusal {
    ShortHeader,
    BadLength,
    OtherCode,
    BrokenObject,
    MissingObject,
    BadValue,
    ClockBack,
    OtherKey,
    SecurityType,
    NetworkNumber,
    StampAhead,
    StampOld,
    StampUsed,
    NoPlace,
    NoAttempt,
    WrongAuthenticator,
    WrongCheck,
    OutOfRange,
    BrokenBook,
    SmallOutput,
    NotExpected,
    UnknownRouter,
}

// The table's number of a refusal.
impl From<Refusal> for u8 {
    ghost use Rattle.std.specs.Prelude.{ℕ};
    ghost use Rattle.refusal.specs.declared.Refusal.{Refusal};

    ghost from_gives = { λ (why : Refusal) (n : ℕ). n ≡ refusal_number why };

    fn from(why: Refusal) -> u8 {
        match why {
            Refusal::ShortHeader => 1,
            Refusal::BadLength => 2,
            Refusal::OtherCode => 3,
            Refusal::BrokenObject => 4,
            Refusal::MissingObject => 5,
            Refusal::BadValue => 6,
            Refusal::ClockBack => 7,
            Refusal::OtherKey => 8,
            Refusal::SecurityType => 9,
            Refusal::NetworkNumber => 10,
            Refusal::StampAhead => 11,
            Refusal::StampOld => 12,
            Refusal::StampUsed => 13,
            Refusal::NoPlace => 14,
            Refusal::NoAttempt => 15,
            Refusal::WrongAuthenticator => 16,
            Refusal::WrongCheck => 17,
            Refusal::OutOfRange => 18,
            Refusal::BrokenBook => 19,
            Refusal::SmallOutput => 20,
            Refusal::NotExpected => 21,
            Refusal::UnknownRouter => 22,
        }
    }
}

impl fmt::Display for Refusal {
    ghost use Rattle.std.specs.Prelude.{Some, decimal};

    ghost output = { λ why. Some (decimal (refusal_number why)) };

    fn fmt<W: fmt::Write>(&self, f: &mut fmt::Formatter<W>) -> fmt::Result {
        write!(f, "{}", u8::from(*self))
    }
}

impl Error for Refusal {}

// The number a call hands back: 0 where it was done.
pub fn answer_number(a: Result<(), Refusal>) -> u8
    ensures { result ≡ answer_number a }
{
    match a {
        Ok(()) => 0,
        Err(why) => u8::from(why),
    }
}

// To whom goes what a call wrote: nobody, everyone in reach, the server, or a link address.
#[derive(Clone, Copy, Debug, PartialEq, Eq, Hash)]
pub enum To {
    Nobody,
    Everyone,
    Server,
    Address([u8; 6]),
}

// What a call hands back of a party or of one place: the answer, the state after it, how many bytes it wrote and to whom they go.
#[derive(Drop)]
pub struct Outcome<S> {
    pub answer: Result<(), Refusal>,
    pub state: S,
    pub written: usize,
    pub to: To,
}

// Nothing is written.
pub fn silent<S>(answer: Result<(), Refusal>, state: S) -> Outcome<S>
    ensures { result ≡ (silent answer state []).outcome }
{
    Outcome {
        answer,
        state,
        written: 0,
        to: To::Nobody,
    }
}

// A refusal that writes nothing.
pub fn refused<S>(why: Refusal, state: S) -> Outcome<S>
    ensures { result ≡ (refused_with why state []).outcome }
{
    silent(Err(why), state)
}

// A writer's answer, passed on: where it wrote, the state is `after`.
pub fn written<S: Drop>(
    w: Result<usize, Refusal>,
    answer: Result<(), Refusal>,
    before: S,
    after: S,
    to: To,
) -> Outcome<S>
    ensures { result ≡ by_writer w answer before after to }
{
    match w {
        Err(why) => refused(why, before),
        Ok(n) => Outcome {
            answer,
            state: after,
            written: n,
            to,
        },
    }
}
