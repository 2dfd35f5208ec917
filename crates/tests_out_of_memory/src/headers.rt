//! Headers whose counts say more than there is.

use std::io;
use tz_info::TimeZone;

const MOST: u32 = u32::MAX;

/// Prints a line for each header: the number of the error.
pub fn print_answers(rt: &HostRuntime) -> io::Result<()> {
    print_early_counts(rt)?;
    print_late_counts(rt)?;
    print_answer(rt, "types and indicators", [MOST, MOST, 0, 0, MOST, 1])
}

fn print_early_counts(rt: &HostRuntime) -> io::Result<()> {
    print_answer(rt, "UT indicators", [MOST, 0, 0, 0, 1, 1])?;
    print_answer(rt, "standard time indicators", [0, MOST, 0, 0, 1, 1])?;
    print_answer(rt, "leap seconds", [0, 0, MOST, 0, 1, 1])
}

fn print_late_counts(rt: &HostRuntime) -> io::Result<()> {
    print_answer(rt, "transitions", [0, 0, 0, MOST, 1, 1])?;
    print_answer(rt, "types", [0, 0, 0, 0, MOST, 1])?;
    print_answer(rt, "designations", [0, 0, 0, 0, 1, MOST])
}

fn print_answer(rt: &HostRuntime, name: &str, counts: [u32; 6]) -> io::Result<()> {
    match TimeZone::from_tz_data(rt.alloc(), &header(counts)) {
        Ok(_) => println!(rt; "{name}: a zone"),
        Err(e) => println!(rt; "{name}: refused {}", e.number()),
    }
}

// A header of version 1 with those counts.
fn header(counts: [u32; 6]) -> [u8; 44] {
    let mut header = [0; 44];
    header[..4].copy_from_slice(b"TZif");
    for k in 0..6 {
        header[20 + 4 * k..24 + 4 * k].copy_from_slice(&counts[k].to_be_bytes());
    }
    header
}
