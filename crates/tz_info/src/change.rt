//! Clock changes, spans between them, and seconds, each with the types in force.

ghost use Rattle.std.specs.Prelude.{◌≡◌, ◌≢◌, ◌↔◌, option_map, IfSome, IsTrue, MatchOption};
ghost use Rattle.tz_info.specs.{HeldChanges.{change_held, second_held, span_held}, Steps.Changes.{IsInStretch}};

use tz_base::{Change, LocalTimeType, Span};

/// A clock change with references to the types that the zone holds: a [`Change`] without a copy of
/// them.
#[derive(Clone, Copy)]
pub struct HeldChange<'a> {
    /// The first second at which the new type is in force, as a Unix time.
    pub at: i64,
    /// The type in force at the second before.
    pub before: &'a LocalTimeType,
    /// The type in force at that second.
    pub after: &'a LocalTimeType,
}

impl HeldChange<'_> {
    /// The change with the types themselves.
    #[inline(always)]
    pub fn copied(self) -> Change
        ensures { result ≡ change_held self.entry }
    {
        Change {
            at: self.at,
            before: *self.before,
            after: *self.after,
        }
    }
}

/// A span with a reference to the type that the zone holds: a [`Span`] without a copy of it.
#[derive(Clone, Copy)]
pub struct HeldSpan<'a> {
    /// The type in force.
    pub local_time_type: &'a LocalTimeType,
    /// As [`Span::from`].
    pub from: Option<i64>,
    /// As [`Span::until`].
    pub until: Option<i64>,
}

impl HeldSpan<'_> {
    // The span with a reference to its type.
    #[inline(always)]
    pub(crate) fn of(span: &Span) -> HeldSpan<'_>
        ensures { span_held result ≡ span.now }
    {
        HeldSpan {
            local_time_type: &span.local_time_type,
            from: span.from,
            until: span.until,
        }
    }

    /// The span with the type itself.
    #[inline(always)]
    pub fn copied(self) -> Span
        ensures { result ≡ span_held self.entry }
    {
        Span {
            local_time_type: *self.local_time_type,
            from: self.from,
            until: self.until,
        }
    }
}

/// A second of Unix time, and the local time type in force then.
#[derive(Clone, Copy, Debug, PartialEq, Eq)]
pub struct TypedSecond {
    /// The second.
    pub at: i64,
    /// The type in force.
    pub local_time_type: LocalTimeType,
}

/// A second with a reference to the type that the zone holds: a [`TypedSecond`] without a copy of it.
#[derive(Clone, Copy)]
pub struct HeldSecond<'a> {
    /// The second, as a Unix time.
    pub at: i64,
    /// The type in force.
    pub local_time_type: &'a LocalTimeType,
}

impl HeldSecond<'_> {
    /// The second with the type itself.
    #[inline(always)]
    pub fn copied(self) -> TypedSecond
        ensures { result ≡ second_held self.entry }
    {
        TypedSecond {
            at: self.at,
            local_time_type: *self.local_time_type,
        }
    }
}

// The change at that second, if the types differ.
#[inline(always)]
pub(crate) fn change_between<'a>(
    at: i64,
    before: &'a LocalTimeType,
    after: &'a LocalTimeType,
) -> Option<HeldChange<'a>>
    ensures { MatchOption (option_map change_held result) (before.now ≡ after.now)
        (λ c. (before.now ≢ after.now)
        × (c ≡ record { at = at; before = before.now; after = after.now })) }
{
    if is_same_type(before, after) {
        return None;
    }
    Some(HeldChange { at, before, after })
}

// The changes with the types themselves.
pub(crate) fn change_copied(change: Option<HeldChange<'_>>) -> Option<Change>
    ensures { result ≡ option_map change_held change.entry }
{
    Some(change?.copied())
}

// The change with references to its types.
#[inline(always)]
pub(crate) fn held(change: &Option<Change>) -> Option<HeldChange<'_>>
    ensures { option_map change_held result ≡ change.now }
{
    match change {
        Some(change) => Some(HeldChange {
            at: change.at,
            before: &change.before,
            after: &change.after,
        }),
        None => None,
    }
}

// The change that was found, if it comes after that second, and up to `last`.
pub(crate) fn if_within(found: Option<HeldChange<'_>>, after: i64, last: i64) -> Option<Change>
    ensures { MatchOption result
        (IfSome (option_map change_held found.entry) (λ c. ¬ (IsInStretch after last c.at)))
        (λ c. IsInStretch after last c.at × (option_map change_held found.entry ≡ Some c)) }
{
    let change = found?;
    if after < change.at && change.at <= last {
        Some(change.copied())
    } else {
        None
    }
}

pub(crate) fn is_same_type(a: &LocalTimeType, b: &LocalTimeType) -> bool
    ensures { IsTrue result ↔ (a.now ≡ b.now) }
{
    *a == *b
}
