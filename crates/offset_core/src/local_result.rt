//! The answer of a lookup by local time.
ghost use Rattle.std.specs.Prelude.{◌≡◌, ◌↔◌, IsSome, IsTrue};
ghost use Rattle.offset_core.specs.LocalResult as results;

/// The answer of a lookup by local time: no value, one, or two.
///
/// When clocks are set forward there is a gap, whose times no clock shows: `None`. When they are
/// set back there is a fold, whose times are shown twice or more: `Ambiguous`, with the value at
/// the first and the value at the last instant that shows the time.
///
/// In New York clocks were set back from 02:00 to 01:00 on 2021-11-07, from four hours behind UTC
/// to five. So the offset at 01:30 that day was
///
/// ```
/// let offsets = LocalResult::Ambiguous(FixedOffset::west(14_400), FixedOffset::west(18_000));
/// let only = offsets.single(); // None
/// let first = offsets.earliest(); // Some(-04:00)
/// ```
#[derive(Clone, Copy, Drop, PartialEq, Eq, Hash, Debug)]
pub enum LocalResult<T> {
    /// The time is shown once.
    Single(T),
    /// The time is shown several times: the first and the last.
    Ambiguous(T, T),
    /// The time is never shown.
    None,
}

/// Another name of [`LocalResult`], as in chrono.
pub type MappedLocalTime<T> = LocalResult<T>;

impl<T> LocalResult<T> {
    /// Returns whether there is no value.
    pub fn is_none(&self) -> bool
        ensures { IsTrue result ↔ (self.now ≡ LocalResult.None) }
    {
        match self {
            LocalResult::None => true,
            _ => false,
        }
    }

    /// Returns the value if there is exactly one, else `None`.
    pub fn single(self) -> Option<T>
    where
        T: Drop,
        ensures { result ≡ results.single_of self }
    {
        match self {
            LocalResult::Single(value) => Some(value),
            _ => None,
        }
    }

    /// Returns the only value, or the first of several; `None` for no value.
    pub fn earliest(self) -> Option<T>
    where
        T: Drop,
        ensures { result ≡ results.earliest_of self }
    {
        match self {
            LocalResult::Single(value) => Some(value),
            LocalResult::Ambiguous(first, _last) => Some(first),
            LocalResult::None => None,
        }
    }

    /// Returns the only value, or the last of several; `None` for no value.
    pub fn latest(self) -> Option<T>
    where
        T: Drop,
        ensures { result ≡ results.latest_of self }
    {
        match self {
            LocalResult::Single(value) => Some(value),
            LocalResult::Ambiguous(_first, last) => Some(last),
            LocalResult::None => None,
        }
    }

    /// Returns what `f` gives for each value. It is called with the first one first.
    ///
    /// Requires: `f` may be called with each value; with the last one in the state in which the call
    /// with the first one left it.
    pub fn map<U, F: FnMut(T) -> U>(self, mut f: F) -> LocalResult<U>
        requires { results.IsCallableOnEach F.pre F.step f self }
        ensures { results.IsMapped F.step f self result }
    {
        match self {
            LocalResult::Single(value) => LocalResult::Single(f(value)),
            LocalResult::Ambiguous(first, last) => {
                let one = f(first);
                let other = f(last);
                LocalResult::Ambiguous(one, other)
            }
            LocalResult::None => LocalResult::None,
        }
    }

    /// Returns what `f` gives for each value, or `None` if it gives `None` for one of them. It is
    /// called with the first one first, and with the last one even if it gave `None` for the first.
    ///
    /// Requires: as [`LocalResult::map`].
    pub fn and_then<U, F: FnMut(T) -> Option<U>>(self, f: F) -> LocalResult<U>
    where
        U: Drop,
        requires { results.IsCallableOnEach F.pre F.step f self }
        ensures { results.IsAndThen F.step f self result }
    {
        self.map(f).all_or_none()
    }

    /// Returns the value of a `Single`. Requires: this is one, as [`LocalResult::single`] shows.
    pub fn unwrap(self) -> T
        requires { IsSome (results.single_of self) }
        ensures { self ≡ LocalResult.Single result }
    {
        match self {
            LocalResult::Single(value) => value,
            _ => unreachable!(),
        }
    }
}

impl<T: Drop> LocalResult<Option<T>> {
    // The values, or `None` if one of them is missing.
    fn all_or_none(self) -> LocalResult<T>
        ensures { result ≡ results.all_or_none self }
    {
        match self {
            LocalResult::Single(value) => match value {
                Some(value) => LocalResult::Single(value),
                None => LocalResult::None,
            },
            LocalResult::Ambiguous(first, last) => match (first, last) {
                (Some(first), Some(last)) => LocalResult::Ambiguous(first, last),
                _ => LocalResult::None,
            },
            LocalResult::None => LocalResult::None,
        }
    }
}
