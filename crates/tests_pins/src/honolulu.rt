//! The file of Pacific/Honolulu, whole (RFC 8536 appendix B.2): its bytes spell the lists that the
//! appendix says, these make a zone, and they spell no other.

ghost use Rattle.std.specs.Prelude.{◌≡◌, ◌++◌, ◌∷◌, [], neg_ℤ, pos, List, ℕ};
ghost use Rattle.{
  tests_pins.specs.Honolulu.{counts, file_with, honolulu_block, honolulu_file, honolulu_header},
  tests_pins.specs.Honolulu.{long_times, parts, pieces, short_file, short_times},
  tests_pins.specs.Zones.{honolulu, honolulu_from, hst10},
  tz_base.specs.Grammar.{Each, Spells},
  tz_file.specs.{FileBlocks.{block as a_block}, FileContents.{indicators, transition_at, type_at, values_below}},
  tz_file.specs.{FilePieces.{HasPieces}, FileHeaders.{header as a_header}},
  tz_file.specs.declared.header.{Place.TheVariants.{First, Second}, Version.TheVariants.{Two}},
  tz_info.specs.Zones.{IsValid, Zone},
  tz_info.specs.TzFiles.{IsTzFile, IsZoneFault},
};

use tz_base::{Error, Expected};

/// Both headers are of version 2, and have the same counts.
pub fn headers()
    ensures first { (rest : List ℕ)
        → Spells (a_header First) (honolulu_header 50 ++ rest) (record { version = Two; counts = counts }) rest }
    ensures second { (rest : List ℕ)
        → Spells (a_header Second) (honolulu_header 50 ++ rest) (record { version = Two; counts = counts }) rest }
{}

/// The blocks differ in their times, of four bytes and of eight.
pub fn blocks()
    ensures first { (rest : List ℕ)
        → Spells (a_block 4 counts) (honolulu_block short_times ++ rest) (parts short_times) rest }
    ensures second { (rest : List ℕ)
        → Spells (a_block 8 counts) (honolulu_block long_times ++ rest) (parts long_times) rest }
{}

/// The second block and the footer say what the zone is.
#[tactic(auto, using(crate::proofs::HonoluluFile::file_pieces))]
pub fn file_pieces()
    ensures { HasPieces honolulu_file pieces }
{}

/// What the parts of the second block say.
pub fn contents()
    ensures transitions { values_below 7 (transition_at pieces) ≡ (honolulu hst10).transitions }
    ensures types { Spells (Each 6 (type_at pieces)) [] (honolulu hst10).types [] }
    ensures indicators { Spells (indicators pieces) [] tt [] }
{}

/// The file spells Honolulu's zone and no other, and the zone is valid.
pub fn file()
    ensures spells { IsTzFile honolulu_file (honolulu hst10) }
    ensures valid { IsValid (honolulu hst10) }
    ensures only { (z : Zone) → IsTzFile honolulu_file z → z ≡ honolulu hst10 }
{}

/// The first block alone is a file of version 1, whose first transition is at the least time of
/// four bytes and which has no rule. With any byte after it, it is no file.
pub fn version_1()
    ensures spells { IsTzFile short_file (honolulu_from (neg_ℤ (pos 2_147_483_648)) None) }
    ensures byte_after { (b : ℕ) (z : Zone) → ¬ (IsTzFile (short_file ++ (b ∷ [])) z) }
    ensures byte_after_fault { (b : ℕ) → IsZoneFault (short_file ++ (b ∷ []))
        (Error.InvalidTzFile Expected.NothingAfterBlockOfVersion1) }
{}

/// With a second header of version 1, or with the digit 1 in its place, the bytes are no file.
pub fn second_versions()
    ensures version_1 { (z : Zone) → ¬ (IsTzFile (file_with 0) z) }
    ensures version_1_fault { IsZoneFault (file_with 0) (Error.InvalidTzFile Expected.Version2Or3InSecondHeader) }
    ensures digit_1 { (z : Zone) → ¬ (IsTzFile (file_with 49) z) }
    ensures digit_1_fault { IsZoneFault (file_with 49) (Error.UnsupportedTzFile Expected.Version1To3) }
{}
