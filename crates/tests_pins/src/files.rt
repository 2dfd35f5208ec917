//! Parts of TZif files, as Honolulu's file has them (RFC 8536 appendix B.2).

ghost use Rattle.std.specs.Prelude.{◌≡◌, ◌++◌, ◌∷◌, [], false, neg_ℤ, pos, true, Bool, List, ℕ};
ghost use Rattle.{
  tests_pins.specs.Files.{long_record, of_types, one_leap_second, one_to_six, short_record, with_leap_second},
  tests_pins.specs.{LeapSeconds.{entry}, Zones.{hst, hst10}},
  tests_pins.specs.Honolulu.{designations, first_time, hst_footer, hst_record, least_time_bytes},
  tz_base.specs.{Grammar.{be_u32, HasFault, Spells}, LocalTypes.{LocalType}},
  tz_file.specs.{FileBlocks.{block, Parts}, FilePieces.{after_first_block, is_extended, FilePieces}},
  tz_file.specs.FileContents.{file_time, leap_second_of, local_type, mark, PairAgrees},
  tz_file.specs.{FileHeaders.{six_counts, version, CountsAgree}, declared.header.Version.{Version}},
  tz_file.specs.declared.header.{Version.TheVariants.{One, Three, Two}, Counts.{Counts}, Place.{Place}},
  tz_file.specs.declared.header.Place.TheVariants.{First},
  tz_info.specs.Footers.{footer},
};

use tz_base::{Error, Expected};

/// A 0 byte and the digits 2 and 3 are versions; 1 and 4 aren't. Nothing comes after the block of
/// version 1.
pub fn versions()
    ensures one { Spells (version First) (0 ∷ []) One [] }
    ensures two { (place : Place) → Spells (version place) (50 ∷ []) Two [] }
    ensures three { (place : Place) → Spells (version place) (51 ∷ []) Three [] }
    ensures digit_1 { (place : Place) (v : Version) (rest : List ℕ)
        → ¬ (Spells (version place) (49 ∷ []) v rest) }
    ensures digit_4 { (place : Place) (v : Version) (rest : List ℕ)
        → ¬ (Spells (version place) (52 ∷ []) v rest) }
    ensures nothing { (c : Counts) (p : Parts) (b : ℕ) (bytes rest : List ℕ) (pieces : FilePieces)
        → ¬ (Spells (after_first_block One c p) (b ∷ bytes) pieces rest) }
{}

/// A header gives the six counts in this order.
pub fn counts()
    ensures order { Spells six_counts one_to_six (record {
      ut_local = 1;
      standard_wall = 2;
      leap_seconds = 3;
      transitions = 4;
      types = 5;
      designations = 6;
    }) [] }
    ensures high_byte_first { Spells be_u32 (1 ∷ 2 ∷ 3 ∷ 4 ∷ []) 16_909_060 [] }
{}

/// There is a type, and a byte of designations; indicators are given for no type, or for each.
#[tactic(auto, using(tz_file::specs::FileHeaders::counts_test))]
pub fn counts_that_agree()
    ensures indicators { CountsAgree (of_types 6 6 20) }
    ensures no_indicators { CountsAgree (of_types 0 6 20) }
    ensures some_indicators { ¬ (CountsAgree (of_types 5 6 20)) }
    ensures no_types { ¬ (CountsAgree (of_types 0 0 20)) }
    ensures no_designations { ¬ (CountsAgree (of_types 6 6 0)) }
{}

/// The isdst byte is 0 or 1.
pub fn flags()
    ensures standard { Spells mark (0 ∷ []) false [] }
    ensures daylight { Spells mark (1 ∷ []) true [] }
    ensures other { (dst : Bool) (rest : List ℕ) → ¬ (Spells mark (2 ∷ []) dst rest) }
{}

/// Times are numbers in two's complement, the highest byte first.
#[tactic(auto, unfolding(crate::proofs::Computed::files))]
pub fn times()
    ensures eight_bytes { file_time 8 first_time ≡ neg_ℤ (pos 2_334_101_314) }
    ensures four_bytes { file_time 4 least_time_bytes ≡ neg_ℤ (pos 2_147_483_648) }
{}

/// Only version 3 has the extensions of TZ strings.
pub fn extended()
    ensures one { is_extended One ≡ false }
    ensures two { is_extended Two ≡ false }
    ensures three { is_extended Three ≡ true }
{}

/// A type's record: its offset, its isdst byte, and the place of its name.
pub fn types()
    ensures hst { Spells (local_type designations) (hst_record 0) hst [] }
    ensures least_offset { (t : LocalType) (rest : List ℕ)
        → ¬ (Spells (local_type designations) (128 ∷ 0 ∷ 0 ∷ 0 ∷ 0 ∷ 4 ∷ []) t rest) }
    ensures flag_2 { (t : LocalType) (rest : List ℕ)
        → ¬ (Spells (local_type designations) (hst_record 2) t rest) }
{}

/// Of a type's record the isdst byte is judged before the offset, of which only the least number of
/// 32 bits is a fault.
pub fn type_faults()
    ensures flag { HasFault (local_type designations) (128 ∷ 0 ∷ 0 ∷ 0 ∷ 2 ∷ 0 ∷ [])
        (Error.InvalidTzFile Expected.ZeroOrOneAsIsDst) }
    ensures not_offset { ¬ (HasFault (local_type designations) (128 ∷ 0 ∷ 0 ∷ 0 ∷ 2 ∷ 0 ∷ [])
        (Error.LocalTimeType Expected.OffsetAboveI32Min)) }
{}

/// Honolulu's footer, `HST10` between newlines, says a rule of one type. One newline alone says
/// none. A colon first is a fault.
pub fn footers()
    ensures hst { Spells (footer false) hst_footer hst10 hst_footer }
    ensures none { Spells (footer false) (10 ∷ []) None (10 ∷ []) }
    ensures colon { HasFault (footer false) (10 ∷ 58 ∷ 10 ∷ []) (Error.InvalidTzFile Expected.TzTextInFooter) }
{}

/// A leap second's record: its time, and the correction from then on. 1972-06-30 23:59:60 was the
/// first.
pub fn leap_seconds()
    ensures four_bytes { leap_second_of 4 short_record ≡ entry (pos 78_796_800) 1 }
    ensures eight_bytes { leap_second_of 8 long_record ≡ entry (pos 78_796_800) 1 }
{}

/// A block has its parts in this order: standard/wall indicators come before UT/local ones.
pub fn parts()
    ensures order { Spells (block 4 (record {
      ut_local = 2;
      standard_wall = 1;
      leap_seconds = 0;
      transitions = 0;
      types = 0;
      designations = 1;
    })) (7 ∷ 8 ∷ 9 ∷ 10 ∷ []) (record {
      times = [];
      type_indexes = [];
      types = [];
      designations = 7 ∷ [];
      leap_seconds = [];
      standard_wall = 8 ∷ [];
      ut_local = 9 ∷ 10 ∷ [];
    }) [] }
{}

/// A leap second's record has eight bytes in the first block, and twelve in the second.
pub fn leap_second_blocks()
    ensures first { (rest : List ℕ) → Spells (block 4 one_leap_second) (short_record ++ rest)
        (with_leap_second short_record) rest }
    ensures second { (rest : List ℕ) → Spells (block 8 one_leap_second) (long_record ++ rest)
        (with_leap_second long_record) rest }
{}

/// What is given in UT is given in standard time; an indicator left out is 0.
pub fn indicators()
    ensures standard { PairAgrees (1 ∷ []) (1 ∷ []) 0 }
    ensures wall { ¬ (PairAgrees (0 ∷ []) (1 ∷ []) 0) }
    ensures left_out { ¬ (PairAgrees [] (1 ∷ []) 0) }
    ensures local { (k : ℕ) → PairAgrees (0 ∷ 1 ∷ []) [] k }
{}
