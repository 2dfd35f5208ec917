//! Clock changes of parsed zones as two instants, and zones that are not kept.

ghost use Rattle.std.specs.Prelude.{◌≡◌, pos};
ghost use Rattle.{
  naive_base.specs.{Range.{first_second, last_second}, Stamp.{of_secs}},
  tz_base.specs.LocalTypes.{plain_type},
  tests_pins.specs.{Changes.{spring, wide}, NewYork.{edt, est}, Zones.{utc_zone}},
  zoned_ref.specs.{KeptZone.{given_back, IsRefused}, ZoneChange.{change_of_instants, IsAfter, IsUpTo}},
  zoned_ref.specs.{Offsets.{IsNarrow}, KeptZone.{reason_of}},
  zoned_ref.specs.declared.keep_error.KeepError.TheVariants.{OutOfMemory, WideZone},
};

use tz_base::Error;
use tz_info::TransitionRule;
use zoned_ref::OpenError;

/// 06:59:59 UTC with EST and 07:00:00 UTC with EDT are New York's change of 14 March 2021.
pub fn changes()
    ensures spring { change_of_instants (λ t. t)
        (record { utc = of_secs (pos 1_615_705_199) 0; offset = est })
        (record { utc = of_secs (pos 1_615_705_200) 0; offset = edt }) ≡ spring }
    ensures next { IsAfter (pos 5) (pos 6) }
    ensures not_itself { ¬ (IsAfter (pos 5) (pos 5)) }
    ensures last { IsAfter (pos 5) last_second }
    ensures itself { IsUpTo (pos 5) (pos 5) }
    ensures not_next { ¬ (IsUpTo (pos 5) (pos 6)) }
    ensures not_first { ¬ (IsUpTo (pos 5) first_second) }
{}

/// A zone with an offset of a day is wide, also if only its rule has it. A narrow one is not kept only if there is no memory, and is
/// given back.
pub fn not_kept()
    ensures narrow { IsNarrow utc_zone }
    ensures not_narrow { ¬ (IsNarrow wide) }
    ensures wide_rule { ¬ (IsNarrow (record utc_zone {
      rule =
          Some (TransitionRule.Fixed (plain_type (pos 86_400)));
    })) }
    ensures wide { IsRefused wide (WideZone wide) }
    ensures not_wide { ¬ (IsRefused utc_zone (WideZone utc_zone)) }
    ensures memory { IsRefused utc_zone (OutOfMemory utc_zone) }
    ensures other_zone { ¬ (IsRefused utc_zone (OutOfMemory wide)) }
    ensures back { given_back (WideZone wide) ≡ wide }
    ensures reason { reason_of (WideZone wide) ≡ OpenError.WideZone }
    ensures no_memory { reason_of (OutOfMemory utc_zone) ≡ OpenError.Zone Error.OutOfMemory }
{}
