//! Differences of zones of one type each, as of Almaty's clocks before and after 2024-03-01.

ghost use Rattle.std.specs.Prelude.{◌∷◌, [], pos};
ghost use Rattle.{
  tests_pins.specs.{Changes.{cet, dst_cet, renamed}, Differences.{always, five_ahead, hour_of, six_ahead}},
  tz_info.specs.Differences.{AreDifferences, IsDifference},
};

/// `<+06>-6` and `<+05>-5` differ in the whole hour from the second 1709229600 on: the old type is that
/// of the first zone, and the stretch is neither shorter nor listed twice.
pub fn two_strings()
    ensures hour { AreDifferences (always six_ahead) (always five_ahead)
        (pos 1_709_229_600) (pos 1_709_233_200) (hour_of six_ahead five_ahead ∷ []) }
    ensures exchanged { ¬ (IsDifference (always six_ahead) (always five_ahead)
        (pos 1_709_229_600) (pos 1_709_233_200) (hour_of five_ahead six_ahead)) }
    ensures shorter { ¬ (IsDifference (always six_ahead) (always five_ahead)
        (pos 1_709_229_599) (pos 1_709_233_200) (hour_of six_ahead five_ahead)) }
    ensures ends_early { ¬ (IsDifference (always six_ahead) (always five_ahead)
        (pos 1_709_229_600) (pos 1_709_233_201) (hour_of six_ahead five_ahead)) }
    ensures twice { ¬ (AreDifferences (always six_ahead) (always five_ahead)
        (pos 1_709_229_600) (pos 1_709_233_200)
        (hour_of six_ahead five_ahead ∷ hour_of six_ahead five_ahead ∷ [])) }
    ensures none { ¬ (AreDifferences (always six_ahead) (always five_ahead)
        (pos 1_709_229_600) (pos 1_709_233_200) []) }
{}

/// Types that differ in the DST flag or in the abbreviation only are a difference, and equal types are
/// none.
pub fn one_part()
    ensures flag { AreDifferences (always cet) (always dst_cet)
        (pos 1_709_229_600) (pos 1_709_233_200) (hour_of cet dst_cet ∷ []) }
    ensures name { AreDifferences (always cet) (always renamed)
        (pos 1_709_229_600) (pos 1_709_233_200) (hour_of cet renamed ∷ []) }
    ensures same { AreDifferences (always cet) (always cet)
        (pos 1_709_229_600) (pos 1_709_233_200) [] }
{}
