// Why a routine refused (01, 'Refusal numbers').
ghost use Rattle.std.specs.Prelude.{◌≡◌};
ghost use Rattle.params.specs.Refusal.{number, place, unless, done};

use std::error::Error;
use std::fmt;

/// A variant for each row of the refusal table. Those that speak of a place in a circuit or a text carry it, where it is not always the same.
#[derive(Clone, Copy, Debug, PartialEq, Eq)]
pub enum Refusal {
    /// 1: a parameter is outside its range.
    Parameters,
    /// 2: a lent slice has not exactly its stated length.
    Length,
    /// 3: a rotation amount, an extraction index or a key row's index is outside its range.
    Index,
    /// 4: a secret key word is neither 0 nor 1.
    KeyWord,
    /// 5: the message modulus is not one of the six.
    Modulus,
    /// 6: a circuit's mark is wrong.
    Mark,
    /// 7: a circuit's version is not 1.
    Version,
    /// 8: a circuit's length or count.
    Count(u32),
    /// 9: a gate of a circuit.
    Gate(u32),
    /// 10: an output of a circuit.
    Output(u32),
    /// 11: a token of a circuit's text.
    Text(usize),
    /// 12: a limit of the circuits that a text stands for.
    Limit(usize),
    /// 13: a report of more than 65,535 wires.
    Wires,
}

impl Refusal {
    /// Its number in the refusal table.
    pub fn number(self) -> u32
        ensures { result ≡ number self }
    {
        match self {
            Refusal::Parameters => 1,
            Refusal::Length => 2,
            Refusal::Index => 3,
            Refusal::KeyWord => 4,
            Refusal::Modulus => 5,
            Refusal::Mark => 6,
            Refusal::Version => 7,
            Refusal::Count(_) => 8,
            Refusal::Gate(_) => 9,
            Refusal::Output(_) => 10,
            Refusal::Text(_) => 11,
            Refusal::Limit(_) => 12,
            Refusal::Wires => 13,
        }
    }

    /// The first byte of the field at fault, else 0.
    pub fn place(self) -> usize
        ensures { result ≡ place self }
    {
        match self {
            Refusal::Version => 3,
            Refusal::Count(place) | Refusal::Gate(place) | Refusal::Output(place) => place as usize,
            Refusal::Text(place) | Refusal::Limit(place) => place,
            _ => 0,
        }
    }

    /// This refusal unless the test holds: a routine's checks stand one after the other, each with `?`.
    pub fn unless(self, test: bool) -> Result<(), Refusal>
        ensures { result ≡ unless test self done }
    {
        if test { Ok(()) } else { Err(self) }
    }
}

impl fmt::Display for Refusal {
    fn fmt<W: fmt::Write>(&self, f: &mut fmt::Formatter<W>) -> fmt::Result {
        write!(f, "refused {} at {}", self.number(), self.place())
    }
}

impl Error for Refusal {}
