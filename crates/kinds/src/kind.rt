// The kinds themselves.
ghost use Rattle.std.specs.Prelude.{◌≡◌, ◌≤◌};
ghost use Rattle.kinds.specs.Kinds.{kind_of};
ghost use Rattle.kinds.specs.Numbers.{number, Numbered};

use std::error::Error;
use std::fmt;

/// A kind of gate, in the order of the kinds' numbers.
#[derive(Clone, Copy, Debug, PartialEq, Eq)]
pub enum Kind {
    False,
    True,
    Not,
    And,
    Or,
    Nand,
    Nor,
    Xor,
    Xnor,
    AndNy,
    AndYn,
    OrNy,
    OrYn,
    Mux,
}

/// A number that no kind has.
#[derive(Clone, Copy, Debug, PartialEq, Eq)]
pub struct NoKind(pub usize);

#[tactic(auto, unfolding(crate::specs::Kinds::kind_of, crate::specs::Kinds::kinds))]
impl Kind {
    /// How many operands a gate of this kind needs.
    pub fn operands(self) -> usize
        ensures { result ≡ (kind_of (number self)).operands }
    {
        match self {
            Kind::False | Kind::True => 0,
            Kind::Not => 1,
            Kind::Mux => 3,
            _ => 2,
        }
    }

    /// Its work: its blind rotations. A mux has two (02, 2026-03).
    pub fn work(self) -> u32
        ensures value { result ≡ (kind_of (number self)).work }
        ensures upper_bound { result ≤ 2 }
    {
        match self {
            Kind::False | Kind::True | Kind::Not => 0,
            Kind::Mux => 2,
            _ => 1,
        }
    }

    /// Its meaning on the bits of its operands.
    #[tactic(auto, using(crate::proofs::Columns::differ, crate::proofs::Columns::alike), unfolding(crate::specs::Kinds::kind_of, crate::specs::Kinds::kinds))]
    #[inline(always)]
    pub fn meaning(self, a: bool, b: bool, c: bool) -> bool
        ensures { result ≡ (kind_of (number self)).meaning a b c }
    {
        match self {
            Kind::False => false,
            Kind::True => true,
            Kind::Not => !a,
            Kind::And => a && b,
            Kind::Or => a || b,
            Kind::Nand => !(a && b),
            Kind::Nor => !(a || b),
            Kind::Xor => a != b,
            Kind::Xnor => a == b,
            Kind::AndNy => !a && b,
            Kind::AndYn => a && !b,
            Kind::OrNy => !a || b,
            Kind::OrYn => a || !b,
            Kind::Mux => if a { b } else { c },
        }
    }
}

impl TryFrom<usize> for Kind {
    type Error = NoKind;

    ghost try_from_gives = { Numbered };

    #[inline(always)]
    fn try_from(number: usize) -> Result<Self, NoKind> {
        match number {
            0 => Ok(Kind::False),
            1 => Ok(Kind::True),
            2 => Ok(Kind::Not),
            3 => Ok(Kind::And),
            4 => Ok(Kind::Or),
            5 => Ok(Kind::Nand),
            6 => Ok(Kind::Nor),
            7 => Ok(Kind::Xor),
            8 => Ok(Kind::Xnor),
            9 => Ok(Kind::AndNy),
            10 => Ok(Kind::AndYn),
            11 => Ok(Kind::OrNy),
            12 => Ok(Kind::OrYn),
            13 => Ok(Kind::Mux),
            _ => Err(NoKind(number)),
        }
    }
}

impl fmt::Display for NoKind {
    fn fmt<W: fmt::Write>(&self, f: &mut fmt::Formatter<W>) -> fmt::Result {
        write!(f, "no kind of gate has the number {}", self.0)
    }
}

impl Error for NoKind {}
