//! The frame around the chart and the panels.

use crate::clocks::Clock;
use crate::period::Period;
use crate::picture::words::{Span, Step, put_escaped};
use std::alloc::AllocError;
use tz_base::Change;

/// The surroundings that a picture is drawn for.
#[derive(Clone, Copy, Debug, PartialEq, Eq)]
pub enum Colors {
    /// Light or dark, as the reader's setting has it.
    Both,
    /// Light only.
    Light,
    /// Dark only.
    Dark,
}

// Colours and fonts, for light and for dark surroundings.
const PLAIN: &str = "\
    <style>text{font:13px system-ui,sans-serif;fill:#1f2328}.paper{fill:#fff}\
    .title{font-size:20px;font-weight:600}.head{font-size:15px;font-weight:600}\
    .what{font-size:16px;font-weight:600}.note{font-size:12px;fill:#59636e}\
    .tick{font-size:12px;fill:#59636e}.name{font-weight:600;fill:#0969da}\
    .clock{font:600 12px ui-monospace,monospace}\
    .answer{font:12px ui-monospace,monospace;text-anchor:end}.middle{text-anchor:middle}.end{text-anchor:end}\n";

const LINES: &str = "\
    .grid{stroke:#d8dee4}.frame{fill:none;stroke:#d0d7de}\
    .line,.unknown{fill:none;stroke:#0969da;stroke-width:2}.unknown{stroke-dasharray:4 4}\
    .dense{fill:#0969da;fill-opacity:.35}.hand{fill:none;stroke:#0969da;stroke-width:3}\
    .jump{stroke:#59636e;stroke-width:2;stroke-dasharray:4 4}.dot{fill:#0969da}\
    .open{fill:#fff;stroke:#0969da;stroke-width:2}.gap .band{fill:#bf3989;fill-opacity:.16}\
    .gap .what{fill:#bf3989}.fold .band{fill:#1a7f37;fill-opacity:.16}.fold .what{fill:#1a7f37}\n";

const DARK: &str = "\
    text{fill:#e6edf3}.paper{fill:#0d1117}\
    .note,.tick{fill:#9198a1}.name{fill:#58a6ff}.grid{stroke:#2a313c}.frame{stroke:#3d444d}\
    .line,.unknown,.hand{stroke:#58a6ff}.dense{fill:#58a6ff}.jump{stroke:#9198a1}.dot{fill:#58a6ff}\
    .open{fill:#0d1117;stroke:#58a6ff}.gap .band{fill:#f778ba;fill-opacity:.22}\
    .gap .what{fill:#f778ba}.fold .band{fill:#3fb950;fill-opacity:.22}.fold .what{fill:#3fb950}";

const IF_DARK: &str = "@media(prefers-color-scheme:dark){";

/// Appends the beginning of a picture with a panel for each of those changes.
pub(super) fn put_opening(
    out: &mut String,
    title: &str,
    period: Period,
    panels: &[Change],
    colors: Colors,
) -> Result<(), AllocError> {
    let height = 298 + (panels.len() as u128 + 1) / 2 * 270;
    write!(
        out,
        "<svg xmlns='http://www.w3.org/2000/svg' width='900' height='{height}' \
         viewBox='0 0 900 {height}' role='img'>\n<title>"
    )?;
    put_escaped(out, title)?;
    let span = Span(period);
    write!(out, ": clock changes, {span}</title>\n")?;
    put_description(out, period, panels)?;
    put_style(out, colors)?;
    write!(out, "<rect class='paper' width='900' height='100%'/>\n")
}

// What the picture shows, for readers that don't see it.
fn put_description(out: &mut String, period: Period, panels: &[Change]) -> Result<(), AllocError> {
    let span = Span(period);
    write!(out, "<desc>A chart of the offset from UTC in {span}.")?;
    for change in panels {
        write!(
            out,
            " {} at {} UTC.",
            Step(change),
            Clock(change.at as i128)
        )?;
    }
    write!(out, "</desc>\n")
}

fn put_style(out: &mut String, colors: Colors) -> Result<(), AllocError> {
    write!(out, "{PLAIN}{LINES}")?;
    match colors {
        Colors::Both => write!(out, "{IF_DARK}{DARK}}}")?,
        Colors::Dark => out.push_str(DARK)?,
        Colors::Light => {}
    }
    write!(out, "</style>\n")
}

/// Appends the title, and which period the chart shows.
pub(super) fn put_title(out: &mut String, title: &str, period: Period) -> Result<(), AllocError> {
    // A path may be long.
    let class = if title.len() < 70 { "title" } else { "note" };
    write!(out, "<text class='{class}' x='20' y='32'>")?;
    put_escaped(out, title)?;
    let span = Span(period);
    write!(
        out,
        "</text>\n<text class='note' x='20' y='54'>offset from UTC in {span}</text>\n"
    )
}

/// Appends the heading of the panels, which show changes of that period.
pub(super) fn put_heading(
    out: &mut String,
    period: Period,
    panels: usize,
) -> Result<(), AllocError> {
    let span = Span(period);
    write!(out, "<text class='head' x='20' y='280'>")?;
    if panels == 0 {
        write!(out, "no clock change in {span}")?;
    } else {
        write!(
            out,
            "{span}: wall clock (up) against UTC (right) at each clock change, not to scale"
        )?;
    }
    write!(out, "</text>\n")
}
