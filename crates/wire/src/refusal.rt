// Refusals, by name and by number, and with the place.
ghost use Rattle.std.specs.Prelude.{◌≡◌};
ghost use Rattle.wire.specs.Refusals.{number_of};

use crate::units::ByteOffset;

// Each has the number of the format's table.
#[derive(Clone, Copy, PartialEq, Eq)]
pub enum Refusal {
    Short = 1,
    Magic,
    Version,
    Flags,
    Hashless,
    Overflow,
    TooMany,
    Budget,
    Tag,
    Payload,
    Externals,
    Index,
    RootId,
    NoHash,
    ChildRange,
    Forward,
    Order,
    Element,
    Duplicate,
    Room,
    Format,
    NotCanonical,
    Parts,
}

// The number of a refusal in the format's table.
pub fn refusal_number(why: Refusal) -> u8
    ensures { result ≡ number_of why }
{
    why as u8
}

// What is refused, and where: at a byte of the file, or at the number of a row, a node, a key or a part.
#[derive(Clone, Copy)]
pub struct Refused<P> {
    pub why: Refusal,
    pub at: P,
}

impl<P> Refused<P> {
    // The same refusal, told at another place.
    pub fn told_at<Q>(self, at: Q) -> Refused<Q>
    where
        P: Drop,
        ensures { result ≡ record { why = self.why; at = at } }
    {
        Refused { why: self.why, at }
    }
}

// Where a place may be no byte, it is told as a plain number.
impl From<Refused<ByteOffset>> for Refused<usize> {
    ghost from_gives = { λ r e. e ≡ record { why = r.why; at = r.at.0 } };

    fn from(refused: Refused<ByteOffset>) -> Refused<usize> {
        refused.told_at(refused.at.0)
    }
}
