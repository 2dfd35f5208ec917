//! Theorems of time zone files: each function is empty, its contract is proved; never called.

ghost use Rattle.std.specs.Prelude.{◌≡◌, ◌≤◌, ◌++◌, length, List, ℕ};
ghost use Rattle.{
  tz_base.specs.Errors.{error_number},
  tz_file.specs.FilePieces.{from_times, FilePieces, HasPieces},
  tz_info.specs.TzFiles.{IsFileFault, IsTzFile},
  tz_info.specs.{FilePlaces.{IsFilePlace}, Zones.{IsRuleOrNone, IsValid, Zone}},
};

use tz_base::Error;

/// No bytes spell two zones.
#[tactic(auto, using(crate::proofs::TzFileLaws::one_zone))]
pub fn one_zone()
    ensures { (bytes : List ℕ) (y z : Zone) → IsTzFile bytes y → IsTzFile bytes z → y ≡ z }
{}

/// The numbers of a file's rule are in their limits.
#[tactic(auto, using(crate::proofs::PosixLaws::file_rule_fits))]
pub fn rule_is_in_limits()
    ensures { (bytes : List ℕ) (zone : Zone) → IsTzFile bytes zone → IsRuleOrNone zone.rule }
{}

/// A file has a fault if and only if it spells no valid zone. It has one first fault, and that is
/// not running out of memory.
#[tactic(auto, using(crate::proofs::TzFileLaws::file_faults))]
pub fn fault_or_zone()
    ensures apart { (bytes : List ℕ) (e : Error) (zone : Zone) → IsFileFault bytes e
        → IsTzFile bytes zone → ¬ (IsValid zone) }
    ensures once { (bytes : List ℕ) (d e : Error) → IsFileFault bytes d → IsFileFault bytes e
        → d ≡ e }
    ensures some { (bytes : List ℕ) → ((zone : Zone) → IsTzFile bytes zone → ¬ (IsValid zone))
        → (e : Error) × IsFileFault bytes e }
    ensures low { (bytes : List ℕ) (e : Error) → IsFileFault bytes e → error_number e ≤ 16 }
{}

/// The fault of a file has one position, in the file or at its end.
#[tactic(auto, using(crate::proofs::TzFileLaws::file_place_once))]
pub fn fault_place()
    ensures once { (bytes : List ℕ) (a b : ℕ) → IsFilePlace bytes a → IsFilePlace bytes b
        → a ≡ b }
    ensures within { (bytes : List ℕ) (place : ℕ) → IsFilePlace bytes place
        → place ≤ length bytes }
{}

/// The parts of the last block, in order, and the footer end the file.
#[tactic(auto, using(tz_file::proofs::FilePieceLaws::end_file))]
pub fn parts_end_file()
    ensures { (bytes : List ℕ) (p : FilePieces) → HasPieces bytes p
        → (before : List ℕ) × (bytes ≡ before ++ from_times p) }
{}
