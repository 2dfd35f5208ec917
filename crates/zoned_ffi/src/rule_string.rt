//! The TZ string of a zone's rule.

ghost use Rattle.std.specs.Prelude.{◌≡◌, ◌≢◌, ◌⊎◌, length, string_bytes, List, MatchResult, ℕ};
ghost use Rattle.{
  tz_base.specs.Errors.{IsOutOfMemory},
  tz_info.specs.Zones.{Zone},
  zoned_ffi.specs.{Handles.{IsLent, IsNoneLent}, Texts.{IsRuleString}, Texts.{written_over}},
};

use crate::lent::Lent;
use crate::refusal::{NOT_OPEN, OUT_OF_MEMORY};
use crate::texts::write_over;
use std::alloc::Global;
use tz_info::{Error, TimeZone};
use tz_write::ToTzString;

/// Writes the TZ string that governs from the zone's last transition on, in as much of the text as there is
/// room for in front of a zero byte, and how many bytes the whole string has: none if the zone has no rule.
#[unsafe(no_mangle)]
pub extern "C" fn zoned_zone_rule_text(
    alloc: Global,
    zone: &Lent,
    text: &mut [u8],
    text_length: &mut usize,
) -> u32
    // 0: it is written as far as there is room.
    ensures answered { result ≡ 0 → (z : Zone) × IsLent zone.now z
        × ((said : List ℕ) × IsRuleString z.rule said × (text_length.new ≡ length said)
        × (text.new ≡ written_over said text.old)) }
    // 33: no zone is open. 17: memory ran out. Nothing is written.
    ensures refused { result ≢ 0 → (((result ≡ 33) × IsNoneLent zone.now)
        ⊎ ((result ≡ 17) × ((z : Zone) × IsLent zone.now z)))
        × (text.new ≡ text.old) × (text_length.new ≡ text_length.old) }
{
    let Some(share) = zone.share() else {
        return NOT_OPEN;
    };
    match rule_string(alloc, share) {
        Ok(said) => {
            write_over(said.as_bytes(), text);
            *text_length = said.len();
            0
        }
        Err(_) => OUT_OF_MEMORY,
    }
}

fn rule_string(alloc: Global, zone: &TimeZone) -> Result<String, Error>
    ensures { MatchResult result (λ said. IsRuleString zone.now.rule (string_bytes said))
        (λ e. IsOutOfMemory e) }
{
    let Some(rule) = zone.rule() else {
        return Ok(String::new(alloc));
    };
    match rule.to_tz_string(alloc)? {
        Some(written) => Ok(written.text),
        None => Ok(String::new(alloc)),
    }
}
