//! What is known of a signal and of a test in an instant.

ghost use Rattle.std.specs.Prelude.{◌≡◌};
ghost use Rattle.est_meaning.specs.Environments.{opposite, and_status, or_status, joint_status};

use est_kernel::statement::Connective;

/// What is known of a signal, or of a test, in an instant.
#[derive(Clone, Copy, PartialEq, Eq)]
pub enum Status {
    /// It must be emitted, or it was offered.
    Present,
    /// It cannot be emitted, or it is an input that was not offered.
    Absent,
    /// Neither is decided.
    Unknown,
}

impl Status {
    /// `not`: present and absent are exchanged, what is unknown stays so.
    pub fn opposite(self) -> Status
        ensures { result ≡ opposite self }
    {
        match self {
            Status::Present => Status::Absent,
            Status::Absent => Status::Present,
            Status::Unknown => Status::Unknown,
        }
    }

    /// `and`: absent where a side is absent, present where both are present, else unknown.
    pub fn and(self, other: Status) -> Status
        ensures { result ≡ and_status self other }
    {
        match self {
            Status::Present => other,
            Status::Absent => Status::Absent,
            Status::Unknown => match other {
                Status::Absent => Status::Absent,
                Status::Present | Status::Unknown => Status::Unknown,
            },
        }
    }

    /// `or`: present where a side is present, absent where both are absent, else unknown.
    pub fn or(self, other: Status) -> Status
        ensures { result ≡ or_status self other }
    {
        match self {
            Status::Present => Status::Present,
            Status::Absent => other,
            Status::Unknown => match other {
                Status::Present => Status::Present,
                Status::Absent | Status::Unknown => Status::Unknown,
            },
        }
    }

    /// The status of the two with a connective between them.
    pub fn joined(self, connective: Connective, other: Status) -> Status
        ensures { result ≡ joint_status connective self other }
    {
        match connective {
            Connective::And => self.and(other),
            Connective::Or => self.or(other),
        }
    }
}
