//! Lists, compares, draws and writes the clock changes of zones, and says what their clocks show.
#![tactic(auto)]

mod answers;
mod arguments;
mod compared;
mod faults;
mod files;
mod folders;
mod guesses;
mod moments;
mod output;
mod record;
mod requests;
mod source;
mod summary;
mod times;
mod words;

use clap::ArgMatches;
use clap::error::ErrorKind as Rejection;
use compared::{Compared, TWO};
use faults::Fault;
use output::{Asked, What, print, write_out};
use source::Source;
use std::fmt::Write;
use std::io::{self, ErrorKind};
use std::process::ExitCode;
use words::{OneLine, say};

// The status of a run that printed everything, of one that did not, and of wrong arguments.
const DONE: u8 = 0;

const FAILED: u8 = 1;

const WRONG: u8 = 2;

fn main(rt: HostRuntime) -> ExitCode {
    match run(&rt) {
        Ok(status) => ExitCode::from(status),
        // Nobody reads what is printed, as after `head`.
        Err(error) if error.kind() == ErrorKind::BrokenPipe => ExitCode::from(DONE),
        Err(error) => {
            say(&rt, error);
            ExitCode::from(FAILED)
        }
    }
}

fn run(rt: &HostRuntime) -> io::Result<u8> {
    let words = words::of_call(rt)?;
    match arguments::command(rt.alloc())?.try_get_matches_from(words.as_slice()) {
        Ok(matches) => answer(rt, &matches),
        Err(error) => explain(rt, &error),
    }
}

// Prints what is wrong with the words, or the help that they ask for.
fn explain(rt: &HostRuntime, error: &clap::Error) -> io::Result<u8> {
    let mut text = String::new(rt.alloc());
    write!(text, "{error}")?;
    for line in text.lines() {
        let line = OneLine(mended(line, error.kind()));
        if error.use_stderr() {
            let _ = eprintln!(rt; "{line}");
        } else {
            println!(rt; "{line}")?;
        }
    }
    if let Rejection::DisplayVersion = error.kind()
        && let Some(record) = record::of_release(rt)?
    {
        print(rt, record.as_slice())?;
    }
    Ok(error.exit_code() as u8)
}

// A line of the parser's words, or what a user of zonedump can type in its place.
fn mended(line: &str, kind: Rejection) -> &str {
    if line.starts_with("  tip: to pass ") {
        return "  tip: --zdump prints what zdump -v prints; --from and --to take years or dates";
    }
    if !line.starts_with("For more information") {
        return line;
    }
    match kind {
        Rejection::ArgumentConflict => "Leave out one of them; --help has examples.",
        Rejection::TooManyValues => "Leave out = and what follows it; --help has examples.",
        _ => "--help has examples.",
    }
}

fn answer(rt: &HostRuntime, matches: &ArgMatches<'_>) -> io::Result<u8> {
    let words = matches.get_strs("ZONE").unwrap_or(&[]);
    match requests::asked_of(matches, words.len()) {
        Err(fault) => Ok(refuse(rt, fault)),
        Ok(asked) if matches.get_flag("diff") => compare_two(rt, matches, words, asked),
        Ok(asked) => write_zones(rt, matches, words, asked),
    }
}

// Says why what is asked for can't be done.
fn refuse<T: std::fmt::Display + Drop>(rt: &HostRuntime, why: T) -> u8 {
    say(rt, why);
    WRONG
}

// Prints the differences of two files or folders.
fn compare_two(
    rt: &HostRuntime,
    matches: &ArgMatches<'_>,
    words: &[&str],
    asked: Asked<'_>,
) -> io::Result<u8> {
    let [old, new] = words else {
        return Ok(refuse(rt, TWO));
    };
    let folders = folders_of(rt, matches)?;
    let asked = Compared {
        period: asked.period,
        form: requests::form_of(matches),
        times: matches.get_str("times"),
        folders: folders.as_slice(),
    };
    Ok(compared::compare(rt, [old, new], asked))
}

fn write_zones(
    rt: &HostRuntime,
    matches: &ArgMatches<'_>,
    words: &[&str],
    asked: Asked<'_>,
) -> io::Result<u8> {
    if let Some(text) = matches.get_str("text") {
        let source = if matches.get_flag("extended") {
            Source::Extended(text)
        } else {
            Source::Text(text)
        };
        let is_done = write_out(rt, source, asked)?;
        return Ok(if is_done { DONE } else { FAILED });
    }
    let folders = folders_of(rt, matches)?;
    if let Some(time) = time_among(rt, words, folders.as_slice())? {
        guesses::report_unknown(rt, time, folders.as_slice())?;
        return Ok(WRONG);
    }
    if draws_over(rt, asked.what, words, folders.as_slice())? {
        return Ok(refuse(rt, Fault::DrawsOver));
    }
    write_each(rt, words, folders.as_slice(), asked)
}

// The folders of the tz database with the zones that are named.
fn folders_of(rt: &HostRuntime, matches: &ArgMatches<'_>) -> io::Result<Vec<String>> {
    let Some(folder) = matches.get_str("tzdir") else {
        return zoned_files::folders(rt);
    };
    let mut folders = Vec::new(rt.alloc());
    folders.push(String::from_str(rt.alloc(), folder)?)?;
    Ok(folders)
}

// A word that is a time or a date, and no file, as the time of day after `--at 2026-11-01`.
fn time_among<'a>(
    rt: &HostRuntime,
    words: &[&'a str],
    folders: &[String],
) -> io::Result<Option<&'a str>> {
    for word in words {
        if guesses::is_time(word) && source::path_of(rt, word, folders)?.is_none() {
            return Ok(Some(word));
        }
    }
    Ok(None)
}

// Whether the picture is to replace a file that is read.
fn draws_over(
    rt: &HostRuntime,
    what: What<'_>,
    words: &[&str],
    folders: &[String],
) -> io::Result<bool> {
    let What::Draw(target, _) = what else {
        return Ok(false);
    };
    for word in words {
        if let Some(path) = source::path_of(rt, word, folders)?
            && files::are_same(rt, target, path.as_str())
        {
            return Ok(true);
        }
    }
    Ok(false)
}

// Writes each of the zones, as long as somebody reads what is printed. One that is rejected leaves
// the others as they are.
fn write_each(
    rt: &HostRuntime,
    words: &[&str],
    folders: &[String],
    asked: Asked<'_>,
) -> io::Result<u8> {
    let mut status = DONE;
    for word in words {
        match write_out(rt, Source::File(word, folders), asked) {
            Ok(true) => {}
            Ok(false) => status = FAILED,
            Err(error) if error.kind() == ErrorKind::BrokenPipe => return Ok(status),
            Err(error) => return Err(error),
        }
    }
    Ok(status)
}
