// How an answer is told.
ghost use Rattle.std.specs.Prelude.{◌≡◌, ℕ};
ghost use Rattle.wire.specs.Shown.{shown};
ghost use Rattle.vekalumist.specs.Answers.{number_in, answered, placed};

use wire::refusal::{Refused, refusal_number};
use wire::units::ByteOffset;

// Where something is refused, which crosses as a number.
pub(crate) trait Place: Copy {
    ghost number: { Self → ℕ };

    fn number(self) -> u64
        ensures { result ≡ number self };
}

impl Place for usize {
    ghost number = { λ n. n };

    fn number(self) -> u64 {
        self as u64
    }
}

impl Place for ByteOffset {
    ghost number = { λ at. at.0 };

    fn number(self) -> u64 {
        self.0 as u64
    }
}

// Stores what was read, and gives 0; or stores the place of the refusal, and gives its number.
#[tactic(auto, unfolding(crate::specs::Answers::number_in, crate::specs::Answers::answered, crate::specs::Answers::placed))]
pub(crate) fn tell<T: Copy, P: Place>(
    read: Result<T, Refused<P>>,
    answer: &mut T,
    place: &mut u64,
) -> u64
    ensures value { result ≡ number_in (shown (λ v. v) P.number read) }
    ensures answer_after { answer.new ≡ answered answer.old (shown (λ v. v) P.number read) }
    ensures place_after { place.new ≡ placed place.old (shown (λ v. v) P.number read) }
{
    match read {
        Ok(value) => {
            *answer = value;
            0
        }
        Err(refused) => {
            *place = refused.at.number();
            u64::from(refusal_number(refused.why))
        }
    }
}
