//! The outcome of an event, and its byte.

ghost use Rattle.std.specs.Prelude.{◌≡◌, ◌≢◌, IfSome, IfNone};
ghost use Rattle.cc_base.specs.declared.outcomes.Outcome.{Outcome};
ghost use Rattle.cc_base.specs.Outcomes.{byte_of, HasByte};

/// What happened at an event of a run. The letters of objects are this project's own, as the other bytes are.
#[derive(Clone, Copy, Debug, PartialEq, Eq)]
pub enum Outcome {
    /// `!`: the pointer is NULL, or the divisor is 0. A fault.
    Zero,
    /// `+`: the result is above 32 bits, or the index at or above the length. A fault.
    High,
    /// `-`: the result is below 32 bits, or the index below 0. A fault.
    Low,
    /// `.`: the result fits, the divisor is not 0, the index is inside, or the object was made by the program.
    Plain,
    /// `F`: a decision is false.
    False,
    /// `T`: a decision is true.
    True,
    /// `a` to `z`: the input object with this rank, from 0, in the order in which the run first accessed them. At most
    /// 25 in a path.
    Object(u8),
}

impl Outcome {
    /// The outcome's byte in a path. An object's rank has to be at most 25.
    pub fn to_byte(self) -> u8
        requires { HasByte self }
        ensures { result ≡ byte_of self }
    {
        match self {
            Outcome::Zero => b'!',
            Outcome::High => b'+',
            Outcome::Low => b'-',
            Outcome::Plain => b'.',
            Outcome::False => b'F',
            Outcome::True => b'T',
            Outcome::Object(rank) => b'a' + rank,
        }
    }

    /// The outcome of a byte of a path; None exactly where the byte is none of `! + - . F T a..z`.
    pub fn from_byte(b: u8) -> Option<Outcome>
        ensures found { IfSome result HasByte }
        ensures byte { IfSome result (λ o. byte_of o ≡ b) }
        ensures none { IfNone result ((o : Outcome) → HasByte o → byte_of o ≢ b) }
    {
        match b {
            b'!' => Some(Outcome::Zero),
            b'+' => Some(Outcome::High),
            b'-' => Some(Outcome::Low),
            b'.' => Some(Outcome::Plain),
            b'F' => Some(Outcome::False),
            b'T' => Some(Outcome::True),
            b'a'..=b'z' => Some(Outcome::Object(b - b'a')),
            _ => None,
        }
    }
}
