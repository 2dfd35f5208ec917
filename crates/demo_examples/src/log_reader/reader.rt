//! From lines to instants.
ghost use Rattle.std.specs.Prelude.{◌≡◌};
ghost use Rattle.zoned.specs.DateTime.{zoned};

use super::{LogError, fields};
use std::alloc::Global;
use zoned::{DateTime, FixedOffset, KeptZone, LocalResult, NaiveDateTime, TimeZone};

/// A log of one machine, read from its first line to its last.
#[derive(Clone, Copy, Debug, PartialEq, Eq, Hash)]
pub struct Reader {
    zone: KeptZone,
    last: Option<DateTime<KeptZone>>,
}

impl Reader {
    /// Returns a reader of a log with the clock of a TZif file.
    ///
    /// # Errors
    ///
    /// The bytes are not a zone, or have an offset of a day or more; running out of memory.
    pub fn of_file(alloc: Global, file: &[u8]) -> Result<Reader, LogError> {
        Ok(Reader::new(KeptZone::open(alloc, file)?))
    }

    /// Returns a reader of a log with the clock of that zone.
    pub fn new(zone: KeptZone) -> Reader {
        Reader { zone, last: None }
    }

    /// Returns the instant of the next line, which the reader keeps for the order of later lines.
    ///
    /// # Errors
    ///
    /// [`LogError::NoStamp`] if the line doesn't begin with a local time, [`LogError::Skipped`] if clocks
    /// never show it, [`LogError::OtherOffset`] if they have another offset then. The reader is unchanged.
    pub fn read(&mut self, line: &str) -> Result<DateTime<KeptZone>, LogError> {
        let local = fields::local_time(line).ok_or(LogError::NoStamp)?;
        let at = match fields::offset(line) {
            Some(offset) => self.at_offset(&local, &offset)?,
            None => self.in_order(&local)?,
        };
        self.last = Some(at.clone()?);
        Ok(at)
    }

    // The instant at which clocks show it, in a fold the first that isn't before the line before.
    fn in_order(&self, local: &NaiveDateTime) -> Result<DateTime<KeptZone>, LogError> {
        match self.zone.from_local_datetime(local) {
            LocalResult::None => Err(LogError::Skipped),
            LocalResult::Single(only) => Ok(only),
            LocalResult::Ambiguous(first, last) => {
                if self.last.as_ref().is_some_and(|before| *before > first) {
                    Ok(last)
                } else {
                    Ok(first)
                }
            }
        }
    }

    // The instant that the two spell, if the zone has that offset then.
    fn at_offset(
        &self,
        local: &NaiveDateTime,
        offset: &FixedOffset,
    ) -> Result<DateTime<KeptZone>, LogError> {
        let spelled = offset.from_local_datetime(local).single();
        let there = spelled.ok_or(LogError::NoStamp)?.with_timezone(&self.zone);
        if there.naive_local() == *local {
            Ok(there)
        } else {
            Err(LogError::OtherOffset)
        }
    }
}

/// Returns the instant of the local time and the offset that an instant shows: what a reader makes of a
/// line with both.
pub fn again(instant: &DateTime<FixedOffset>) -> DateTime<FixedOffset>
    // It is that instant, at that offset.
    ensures second { (zoned result).utc.s ≡ (zoned instant.now).utc.s }
    ensures fraction { (zoned result).utc.f ≡ (zoned instant.now).utc.f }
    ensures offset { (zoned result).offset ≡ (zoned instant.now).offset }
{
    let local = instant.naive_local();
    DateTime::<FixedOffset>::from_local(local, *instant.offset())
}
