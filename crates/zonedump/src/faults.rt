//! Why what is asked for can't be done, and what to type.

use crate::words::OneLine;
use std::fmt;
use std::fmt::Write;
use zonedump_lib::Bound;

/// The years of a list that is asked for without any.
pub const FIRST_YEAR: u16 = 1900;

pub const LAST_YEAR: u16 = 2037;

/// Why what is asked for can't be done.
#[derive(Clone, Copy)]
pub enum Fault<'a> {
    /// The value of `--from` or `--to` is no year and no date.
    NoBound(&'a str, &'a str),
    /// What is to come first comes last.
    InReverse(Bound, Bound),
    NoTime(&'a str),
    /// The time of `--at .. --local` is an instant.
    NotLocal(&'a str),
    NoZone,
    /// No zone for the file of this option.
    NoZoneFor(&'a str),
    LocalWithoutTime,
    /// This option goes with `--diff`.
    WithoutDiff(&'a str),
    /// The value of `--colors` is neither of the two.
    NoColors(&'a str),
    /// `--colors` without a picture.
    ColorsWithoutPicture,
    /// Several zones for a file.
    SeveralZones(&'a str),
    DrawsOver,
}

impl fmt::Display for Fault<'_> {
    fn fmt<W: fmt::Write>(&self, f: &mut fmt::Formatter<W>) -> fmt::Result {
        match *self {
            Fault::NoBound(name, value) => write!(
                f,
                "--{name} takes a year from 1 to 9999 or a date, as in --{name} 2026 or --{name} 2026-03-01; '{}' is no such year or date",
                OneLine(value)
            ),
            Fault::InReverse(first, last) => write!(
                f,
                "--from {first} is after --to {last}; the defaults are --from {FIRST_YEAR} and --to {LAST_YEAR}"
            ),
            Fault::NoTime(value) => write!(
                f,
                "--at takes a time, as in --at 2026-11-01T09:00 or --at @1793523600; '{}' is no such time",
                OneLine(value)
            ),
            Fault::NotLocal(value) => write!(
                f,
                "--local takes a local time, as in --at 2026-11-01T09:00 --local; '{}' is an instant",
                OneLine(value)
            ),
            Fault::NoZone => f.write_str(
                "name a zone, as in zonedump Europe/Paris, or write --text TZ; zonedump --help has examples",
            ),
            Fault::NoZoneFor(name) => write!(
                f,
                "--{name} takes a new file and then a zone, as in zonedump --{name} NEW Europe/Paris"
            ),
            Fault::LocalWithoutTime => {
                f.write_str("--local goes with --at, as in --at 2026-11-01T09:00 --local")
            }
            Fault::WithoutDiff(name) => write!(
                f,
                "--{name} goes with --diff, as in zonedump --diff OLD NEW --{name}"
            ),
            Fault::NoColors(value) => write!(
                f,
                "--colors takes light or dark, as in --colors dark; '{}' is neither",
                OneLine(value)
            ),
            Fault::ColorsWithoutPicture => {
                f.write_str("--colors goes with --svg, as in --svg NEW --colors dark")
            }
            Fault::SeveralZones(name) => {
                write!(
                    f,
                    "--{name} takes one zone; call zonedump once for each zone"
                )
            }
            Fault::DrawsOver => f.write_str("--svg names the file that is read; name a new file"),
        }
    }
}
