//! A file from its first byte to its last: its pieces, the lists that they spell, and the zone.

ghost use Rattle.std.specs.Prelude.{◌≡◌, IfErr, IfOk, MatchResult};
ghost use Rattle.{
  tz_file.specs.{FileContents.{transition_at, values_below}, FileLists.{pieces_of, EndFile, HasLengths, IsReadInMemory}},
  tz_info.specs.Steps.FileLists.{zone_of_lists, IsFaultAt},
  tz_info.specs.{TzFiles.{contents, IsTzFile}, Zones.{IsValid, ListFault}},
};

use crate::file::footer::read_footer_rule;
use crate::file::place::from_fault_of_lists;
use crate::rule::TransitionRule;
use crate::rule::reader::text::rule_of;
use crate::zone::TimeZone;
use crate::zone::lists::kept::Kept;
use crate::zone::lists::valid::check;
use std::alloc::Global;
use tz_base::{Cursor, Error, LeapSecond, LocalTimeType};
use tz_file::{Pieces, check_indicators, read_leap_seconds, read_pieces, read_types, time_at};

/// The lists that a file spells. They need not make a valid zone.
#[derive(Drop)]
pub struct Lists {
    pub transitions: Vec<Kept>,
    pub types: Vec<LocalTimeType>,
    pub leap_seconds: Vec<LeapSecond>,
    pub rule: Option<TransitionRule>,
}

impl Lists {
    // Their first fault, if they make no valid zone.
    fn validate(&self) -> Result<(), Error>
        ensures { MatchResult result (λ _. IsValid (zone_of_lists self.now))
            (λ e. ListFault (zone_of_lists self.now) e × ¬ (IsValid (zone_of_lists self.now))) }
    {
        check(
            &self.transitions,
            &self.types,
            &self.leap_seconds,
            &self.rule,
        )
    }

    // The zone that they make.
    fn into_zone(self, alloc: Global) -> Result<TimeZone, Error>
        requires { IsValid (zone_of_lists self) }
        ensures { MatchResult result (λ z. z ≡ zone_of_lists self) (λ e. e ≡ Error.OutOfMemory) }
    {
        let Lists {
            transitions,
            types,
            leap_seconds,
            rule,
        } = self;
        TimeZone::of_valid(alloc, transitions, types, leap_seconds, rule)
    }
}

/// The zone that the bytes of a file spell. An error moves the cursor to the fault.
pub fn read_zone(alloc: Global, cursor: &mut Cursor<'_>) -> Result<TimeZone, Error>
    ensures found { IfOk result (λ z. IsTzFile cursor.old z × IsValid z) }
    ensures fault { IfErr result (λ e. IsFaultAt cursor.old e cursor.new) }
{
    let bytes = cursor.remaining();
    let pieces = read_pieces(cursor)?;
    let lists = read_lists(alloc, bytes, &pieces, cursor)?;
    if let Err(error) = lists.validate() {
        *cursor = Cursor::new(from_fault_of_lists(bytes, &pieces));
        return Err(error);
    }
    lists.into_zone(alloc)
}

// What the pieces say: first the types are read, one after the other, then the indicators, then
// the footer.
#[tactic(auto, unfolding(crate::specs::TzFiles::contents))]
fn read_lists<'a>(
    alloc: Global,
    bytes: &'a [u8],
    pieces: &Pieces<'a>,
    cursor: &mut Cursor<'a>,
) -> Result<Lists, Error>
    requires { EndFile bytes.now (pieces_of pieces.now) }
    ensures { IsReadInMemory (contents (pieces_of pieces.now)) cursor.old zone_of_lists result cursor.new }
{
    let types = read_types(alloc, bytes, pieces, cursor)?;
    check_indicators(bytes, pieces, cursor)?;
    let spelled = read_footer_rule(pieces, cursor)?;
    let transitions = read_transitions(alloc, pieces)?;
    let leap_seconds = read_leap_seconds(alloc, pieces)?;
    Ok(Lists {
        transitions,
        types,
        leap_seconds,
        rule: spelled.map(rule_of),
    })
}

// The transitions: a time and a type index for each.
fn read_transitions(alloc: Global, pieces: &Pieces<'_>) -> Result<Vec<Kept>, Error>
    requires { HasLengths (pieces_of pieces.now) }
    ensures { MatchResult result
        (λ v. v.items ≡ values_below pieces.now.counts.transitions (transition_at (pieces_of pieces.now)))
        (λ e. e ≡ Error.OutOfMemory) }
{
    let type_indexes = pieces.block.type_indexes;
    let mut transitions = Vec::with_capacity(alloc, type_indexes.len())?;
    for k in 0..type_indexes.len() {
        transitions.push_reserved(Kept::of(time_at(pieces, k), type_indexes[k] as u32));
    }
    Ok(transitions)
}
