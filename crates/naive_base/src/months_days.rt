//! Numbers of months and of days by which dates are moved.
ghost use Rattle.std.specs.Prelude.{◌≡◌};

/// A number of months. Months compare and hash by their number.
#[derive(Clone, Copy, PartialEq, Eq, PartialOrd, Ord, Hash, Debug)]
pub struct Months {
    count: u32,
}

/// A number of days. Days compare and hash by their number.
#[derive(Clone, Copy, PartialEq, Eq, PartialOrd, Ord, Hash, Debug)]
pub struct Days {
    count: u64,
}

impl Months {
    ghost use Rattle.naive_base.specs.Months.{months_of};

    /// Returns that many months.
    pub fn new(num: u32) -> Months
        ensures { months_of result ≡ num }
    {
        Months { count: num }
    }

    /// Returns the number of months.
    pub fn as_u32(&self) -> u32
        ensures { result ≡ months_of self.now }
    {
        self.count
    }
}

impl Days {
    ghost use Rattle.naive_base.specs.Months.{days_of};

    /// Returns that many days.
    pub fn new(num: u64) -> Days
        ensures { days_of result ≡ num }
    {
        Days { count: num }
    }

    // How many days these are.
    pub(crate) fn count(&self) -> u64
        ensures { result ≡ days_of self.now }
    {
        self.count
    }
}
