//! TZ strings and files that are written: the shortest string, and the bytes of a file.
#![tactic(auto)]

ghost use Rattle.std.specs.Prelude.{◌≡◌, ◌++◌, ◌∷◌, [], codes, false, true, Bool, Some};
ghost use Rattle.{
  tests_pins.specs.{Honolulu.{honolulu_file, honolulu_header}, NewYork.{new_york_rule, new_york_zone}},
  tests_pins.specs.{Texts.{new_york_long, new_york_text, utc_text}, WrittenZones.{first_block, honolulu_written}},
  tests_pins.specs.Zones.{honolulu, hst, hst10},
  tz_file.specs.FilePieces.{FilePieces},
  tz_write.specs.{FileDesignations.{AreShortest}, WrittenTexts.{AreInPairs, IsWrittenText, IsWrittenZone}},
  tz_write.specs.WrittenFiles.{AreWrittenPieces, HasLeastBlock, HaveVersion, IsWrittenFile},
};

/// A text leaves out a time of 2 o'clock, needs no extensions if it has none, spells the rule,
/// and has minutes in two digits.
#[tactic(auto, using(crate::proofs::WrittenPins::written_pins))]
pub fn texts()
    ensures not_longer { (extended : Bool)
        → ¬ (IsWrittenText new_york_rule new_york_long extended) }
    ensures not_extended { ¬ (IsWrittenText new_york_rule new_york_text true) }
    ensures not_another { ¬ (IsWrittenText new_york_rule utc_text false) }
    ensures not_longer_zone { ¬ (IsWrittenZone new_york_zone new_york_long) }
    ensures two_digits { AreInPairs (codes "FOO5:05:30") }
    ensures one_digit { ¬ (AreInPairs (codes "FOO5:5")) }
    ensures three_digits { ¬ (AreInPairs (codes "FOO5:005")) }
{}

/// The first block of a written file has one type and one byte of designations, and both headers
/// have the version.
#[tactic(auto, using(crate::proofs::WrittenFilePins::first_blocks))]
pub fn first_blocks()
    ensures least { HasLeastBlock (first_block 51) }
    ensures more { ¬ (HasLeastBlock honolulu_file) }
    ensures version_3 { HaveVersion true (first_block 51 ++ honolulu_header 51) }
    ensures first_of_2 { ¬ (HaveVersion true (first_block 50 ++ honolulu_header 51)) }
    ensures second_of_2 { ¬ (HaveVersion true (first_block 51 ++ honolulu_header 50)) }
{}

/// The second block has no indicators and no byte of designations that it doesn't need; the text of
/// the footer is between newlines.
#[tactic(auto, using(crate::proofs::WrittenPins::not_shortest))]
pub fn second_blocks()
    ensures standard_wall { (p : FilePieces) → p.counts.standard_wall ≡ 6
        → ¬ (AreWrittenPieces (hst ∷ []) (codes "HST10") p) }
    ensures ut_local { (p : FilePieces) → p.counts.ut_local ≡ 6
        → ¬ (AreWrittenPieces (hst ∷ []) (codes "HST10") p) }
    ensures longer { (p : FilePieces) → p.parts.designations ≡ 72 ∷ 83 ∷ 84 ∷ 0 ∷ 0 ∷ []
        → ¬ (AreWrittenPieces (hst ∷ []) (codes "HST10") p) }
    ensures no_newlines { (p : FilePieces) → p.footer ≡ Some (codes "HST10")
        → ¬ (AreWrittenPieces (hst ∷ []) (codes "HST10") p) }
    ensures not_shortest { ¬ (AreShortest (72 ∷ 83 ∷ 84 ∷ 0 ∷ 0 ∷ []) (hst ∷ [])) }
{}

/// Honolulu's file as RFC 8536 has it, but with the least first block and without indicators.
#[tactic(auto, using(crate::proofs::WrittenFilePins::honolulu_written))]
pub fn honolulu_bytes()
    ensures { IsWrittenFile (honolulu hst10) honolulu_written }
{}
