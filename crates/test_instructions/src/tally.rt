// How many there are, and how many of them agree. No file has 2^64 lines, so that no count wraps.
use std::fmt;

#[derive(Clone, Copy, Default)]
pub struct Tally {
    pub all: u64,
    pub agreed: u64,
}

impl Tally {
    // One more.
    pub(crate) fn count(self, agrees: bool) -> Tally {
        self.join(Tally {
            all: 1,
            agreed: u64::from(agrees),
        })
    }

    // Two together.
    pub(crate) fn join(self, other: Tally) -> Tally {
        Tally {
            all: self.all.wrapping_add(other.all),
            agreed: self.agreed.wrapping_add(other.agreed),
        }
    }
}

impl fmt::Display for Tally {
    fn fmt<W: fmt::Write>(&self, f: &mut fmt::Formatter<W>) -> fmt::Result {
        write!(f, "{} of {}", self.agreed, self.all)
    }
}
