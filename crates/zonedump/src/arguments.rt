//! The words that the program takes.

use clap::{Arg, ArgAction, Command};
use std::alloc::{AllocError, Global};

// The version of the program, and the kit and the logic that it was proved with.
const VERSION: &str = "0.4.0 (proved with rattle-kit-13, logic dac8208d650f15bf)";

const USAGE: &str = "zonedump [OPTIONS] ZONE..
       zonedump [OPTIONS] --text TZ [--extended]
       zonedump --at TIME [--local] ZONE..
       zonedump [--from WHEN] [--to WHEN] --diff OLD NEW [--json | --summary]
       zonedump --diff OLD NEW --times FILE";

const NOTES: &str = "ZONE is a name such as Europe/Paris, a TZif file, or - for standard input.
WHEN is a year from 1 to 9999 or a date such as 2026-03-01, in UTC; the whole of it is included.
TIME is 2026-11-01T09:00 or 2026-11-01 (in UTC unless --local is given), 2026-11-01T10:00+01:00, or
@1793523600 (Unix time).
--write and --svg take one zone, and write to standard output if NEW is -.
--diff takes two files or two folders.

Examples:
  zonedump --from 2026 --to 2026 Europe/Paris        the clock changes of a year
  zonedump --from 2026-03-01 --to 2026 Europe/Paris  from a day on
  zonedump --at 2026-11-01T09:00 Europe/Paris Asia/Tokyo
  zonedump --at 2026-03-29T02:30 --local Europe/Paris
  zonedump --from 2026 --to 2030 --diff OLD NEW --summary      what a new tz database changes
  zonedump --svg paris.svg Europe/Paris

Exit status: 0 if every zone was printed or written, 1 if one was not, 2 for wrong arguments.
With --diff: 0 if there is no difference, 1 if there is one, 2 for an error.";

// An option: its name, the name of its value if it has one, what it does, and which others it is not
// used with.
#[derive(Clone, Copy)]
struct Entry {
    name: &'static str,
    value: Option<&'static str>,
    help: &'static str,
    without: &'static [&'static str],
}

// The options, in the order of the help.
const OPTIONS: [Entry; 14] = [
    Entry {
        name: "from",
        value: Some("WHEN"),
        help: "First year or date; 1900 unless given",
        without: &[],
    },
    Entry {
        name: "to",
        value: Some("WHEN"),
        help: "Last year or date; 2037 unless given",
        without: &[],
    },
    Entry {
        name: "zdump",
        value: None,
        help: "Prints what zdump -v prints",
        without: &[],
    },
    Entry {
        name: "json",
        value: None,
        help: "Prints an object of JSON for each zone, on a line of its own",
        without: &["zdump"],
    },
    Entry {
        name: "write",
        value: Some("NEW"),
        help: "Writes one zone to the file NEW in TZif form",
        without: &["zdump", "json", "from", "to"],
    },
    Entry {
        name: "svg",
        value: Some("NEW"),
        help: "Draws one zone as a picture of SVG in the file NEW",
        without: &["zdump", "json", "write"],
    },
    Entry {
        name: "colors",
        value: Some("COLORS"),
        help: "With --svg: light or dark; both, as the reader's setting has it, unless given",
        without: &[],
    },
    Entry {
        name: "at",
        value: Some("TIME"),
        help: "Prints the local time of each zone at that time",
        without: &["zdump", "json", "write", "svg", "from", "to"],
    },
    Entry {
        name: "local",
        value: None,
        help: "TIME of --at is a local time of the zone",
        without: &[],
    },
    Entry {
        name: "diff",
        value: None,
        help: "Prints where the zones of two files or two folders differ, OLD and NEW",
        without: &["zdump", "write", "svg", "at"],
    },
    Entry {
        name: "summary",
        value: None,
        help: "With --diff: zones with the same differences together",
        without: &["json"],
    },
    Entry {
        name: "times",
        value: Some("FILE"),
        help: "With --diff: prints which of the times in FILE move",
        without: &["json", "summary"],
    },
    Entry {
        name: "tzdir",
        value: Some("FOLDER"),
        help: "The tz database with the zones that are named; else TZDIR, else /usr/share/zoneinfo",
        without: &[],
    },
    Entry {
        name: "text",
        value: Some("TZ"),
        help: "A TZ string in place of zones",
        without: &["ZONE", "diff"],
    },
];

const EXTENDED: Entry = Entry {
    name: "extended",
    value: None,
    help: "Reads the TZ string with the extensions of RFC 8536, section 3.3.1",
    without: &["ZONE"],
};

impl Entry {
    fn arg<'a>(&self, alloc: Global) -> Result<Arg<'a>, AllocError> {
        let arg = Arg::new(alloc, self.name).long(self.name).help(self.help);
        taking(arg, self.value).conflicts_with_all(self.without)
    }
}

// The argument with a value of that name, or without one.
fn taking<'a>(arg: Arg<'a>, value: Option<&'static str>) -> Arg<'a> {
    match value {
        Some(name) => arg.value_name(name).allow_hyphen_values(true),
        None => arg.action(ArgAction::SetTrue),
    }
}

/// The words that the program takes.
pub fn command<'a>(alloc: Global) -> Result<Command<'a>, AllocError> {
    let mut command = Command::new(alloc, "zonedump")
        .about("Prints what the clocks of time zones do")
        .version(VERSION)
        .override_usage(USAGE)
        .after_help(NOTES);
    for option in OPTIONS.iter() {
        command = command.arg(option.arg(alloc)?)?;
    }
    command
        .arg(EXTENDED.arg(alloc)?.requires_arg("text")?)?
        .arg(zones(alloc))
}

fn zones<'a>(alloc: Global) -> Arg<'a> {
    Arg::new(alloc, "ZONE")
        .help("Names of zones, or TZif files")
        .action(ArgAction::Append)
}
