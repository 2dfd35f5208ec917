//! How many rows of a column are tried together, and how many are answered one by one.

ghost use Rattle.std.specs.Prelude.{◌≤◌, ◌<◌};

/// The rows that are tried together.
pub const NARROW: usize = 32;

/// The rows that are tried together after as many in a row lay in one stretch.
pub const WIDE: usize = 128;

// The most rows that are answered one by one before the next try.
const MOST_ALONE: usize = 512;

/// How the last tries went.
#[derive(Clone, Copy)]
pub struct Pace {
    // How many rows in a row lay in one stretch; no more than `WIDE` are counted.
    together: usize,
    // The rows that are answered one by one if the next ones don't.
    alone: usize,
}

impl Pace {
    /// The pace at which a column begins.
    pub fn new() -> Pace {
        Pace {
            together: 0,
            alone: NARROW,
        }
    }

    /// Whether to try `WIDE` rows. If they don't lie in one stretch, `NARROW` ones are tried next.
    pub fn tries_wide(&mut self) -> bool {
        if self.together < WIDE {
            return false;
        }
        self.together = 0;
        true
    }

    /// So many rows lie in one stretch.
    pub fn found(&mut self, rows: usize) {
        self.together = self.together.saturating_add(rows).min(WIDE);
        self.alone = NARROW;
    }

    /// They don't: the end of the rows that are answered one by one, of which there are twice as many each
    /// time.
    pub fn missed(&mut self, from: usize, rows: usize) -> usize
        requires { from < rows }
        ensures { (from < result) × (result ≤ rows) }
    {
        let alone = self.alone.max(1);
        self.together = 0;
        self.alone = alone.saturating_mul(2).min(MOST_ALONE);
        from + alone.min(rows - from)
    }
}
