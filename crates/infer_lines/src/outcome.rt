//! How a report ended.
ghost use Rattle.std.specs.Prelude.{◌≡◌};
ghost use Rattle.infer_lines.specs.Outcome.{outcome_after, status_of, worse_of};

/// How a report ended: with a type, without one, or with a fault or a failed write.
#[derive(Clone, Copy, Debug)]
pub enum Outcome {
    /// Every type is known.
    Known,
    /// Some input is of no known type, and nothing failed.
    Unknown,
    /// Some input could not be opened or read, memory was refused, a write failed, or the arguments are wrong.
    Failed,
}

impl Outcome {
    /// The exit status: 0, 1 or 2.
    pub fn status(self) -> u8
        ensures { result ≡ status_of self }
    {
        match self {
            Outcome::Known => 0,
            Outcome::Unknown => 1,
            Outcome::Failed => 2,
        }
    }

    /// The one of greater status.
    pub fn worse(self, other: Outcome) -> Outcome
        ensures { result ≡ worse_of self other }
    {
        if self.status() < other.status() {
            other
        } else {
            self
        }
    }
    /// `Failed` if a write failed, and else this outcome.
    pub fn failed_if(self, has_failed: bool) -> Outcome
        ensures { result ≡ outcome_after has_failed self }
    {
        if has_failed { Outcome::Failed } else { self }
    }
}
