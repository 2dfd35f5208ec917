//! The differences of two zones as JSON.
#![tactic(auto, using(crate::proofs::JsonPutting::wrote, crate::proofs::JsonPutting::puts_then))]

ghost use Rattle.std.specs.{Fmt.{signed_decimal}, Prelude.{◌∷◌, [], codes, flat_map, IfOk}};
ghost use Rattle.{
  json.specs.{Token.{key, number, string}, Tree.{json_tokens}},
  zonedump_lib.specs.ChangeValues.{list_value},
  zonedump_lib.specs.DifferenceForms.{IsDifferencesJson, IsLoneJson, difference_value, differences_value, lone_value},
  zonedump_lib.specs.{Words.{clock_words}, JsonSteps.{Puts}},
};

use crate::change_json::{put_number, put_string, put_type};
use crate::clocks::Clock;
use crate::differences::seconds_ahead;
use crate::json_text::put_bound;
use crate::period::Period;
use json::Writer;
use std::alloc::{AllocError, Global};
use tz_info::Difference;

/// Returns the differences of two zones in the period, under the zones' names, as a JSON object on
/// one line: `old`, `new`, `from`, `to` and `differences`.
///
/// # Errors
///
/// There is no memory for it.
pub fn differences_to_json(
    alloc: Global,
    old_name: &str,
    new_name: &str,
    period: Period,
    found: &[Difference],
) -> Result<Vec<u8>, AllocError>
    ensures { IfOk result (λ text. IsDifferencesJson old_name.now new_name.now
        period.first period.last found.now text.items) }
{
    let mut writer = Writer::new(Vec::new(alloc));
    put_zones(&mut writer, alloc, old_name, new_name, period, found)?;
    Ok(writer.into_inner())
}

/// Returns a zone that only one of two folders has as a JSON object on one line: its path, `only`.
///
/// # Errors
///
/// There is no memory for it.
pub fn lone_to_json(alloc: Global, path: &str) -> Result<Vec<u8>, AllocError>
    ensures { IfOk result (λ text. IsLoneJson path.now text.items) }
{
    let mut writer = Writer::new(Vec::new(alloc));
    put_lone(&mut writer, path)?;
    Ok(writer.into_inner())
}

fn put_lone(writer: &mut Writer, path: &str) -> Result<(), AllocError>
    ensures { Puts result writer.old writer.new (json_tokens (lone_value path.now)) }
{
    writer.begin_object()?;
    put_string(writer, "only", path)?;
    writer.end_object()
}

fn put_zones(
    writer: &mut Writer,
    alloc: Global,
    old_name: &str,
    new_name: &str,
    period: Period,
    found: &[Difference],
) -> Result<(), AllocError>
    ensures { Puts result writer.old writer.new (json_tokens (differences_value
        old_name.now new_name.now period.first period.last found.now)) }
{
    writer.begin_object()?;
    put_string(writer, "old", old_name)?;
    put_string(writer, "new", new_name)?;
    put_bound(writer, alloc, "from", period.first)?;
    put_bound(writer, alloc, "to", period.last)?;
    put_differences(writer, alloc, found)?;
    writer.end_object()
}

fn put_differences(
    writer: &mut Writer,
    alloc: Global,
    found: &[Difference],
) -> Result<(), AllocError>
    ensures { Puts result writer.old writer.new
        (key (codes "differences") ∷ json_tokens (list_value difference_value found.now)) }
{
    writer.key("differences")?;
    writer.begin_array()?;
    put_list(writer, alloc, found)?;
    writer.end_array()
}

fn put_list(writer: &mut Writer, alloc: Global, found: &[Difference]) -> Result<(), AllocError>
    ensures { Puts result writer.old writer.new
        (flat_map (λ d. json_tokens (difference_value d)) found.now) }
{
    for one in found {
        put_difference(writer, alloc, one)?;
    }
    Ok(())
}

fn put_difference(writer: &mut Writer, alloc: Global, one: &Difference) -> Result<(), AllocError>
    ensures { Puts result writer.old writer.new (json_tokens (difference_value one.now)) }
{
    writer.begin_object()?;
    put_second(writer, alloc, "from", "from_utc", one.from)?;
    put_second(writer, alloc, "until", "until_utc", one.until)?;
    put_type(writer, "old", &one.old)?;
    put_type(writer, "new", &one.new)?;
    put_number(writer, "moved", seconds_ahead(&one.new, &one.old))?;
    writer.end_object()
}

// A second, and what UTC shows then.
fn put_second(
    writer: &mut Writer,
    alloc: Global,
    name: &str,
    utc_name: &str,
    second: i64,
) -> Result<(), AllocError>
    ensures { Puts result writer.old writer.new (key name.now ∷ number (signed_decimal second)
        ∷ key utc_name.now ∷ string (clock_words second) ∷ []) }
{
    put_number(writer, name, second)?;
    let clock = Clock(second as i128);
    let text = format!(in alloc; "{clock}")?;
    put_string(writer, utc_name, text.as_str())
}
