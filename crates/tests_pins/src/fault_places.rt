//! Where TZif files are at fault (RFC 8536 section 3), counted by hand: a header has its magic at
//! 0, its version at 4, its counts at 20, 24, 28, 32, 36 and 40, and ends at 44, where the first
//! block begins. A block of one type and four bytes of designations has ten bytes.

ghost use Rattle.std.specs.Prelude.{◌++◌, ◌∷◌, [], take};
ghost use Rattle.{
  tests_pins.specs.FaultyFiles.{count, header_of, of_first_leap, of_indicators, of_record, of_second_leap},
  tests_pins.specs.FaultyFiles.{of_second_record, of_transitions, one_and_two, plain_header, under, utc_record},
  tests_pins.specs.FaultyFiles.{with_footer, with_other_rule, with_second, IsOnlyPlace},
};

/// A magic is rejected at its first byte, a version at its byte, and in the second header too.
pub fn versions()
    ensures magic { IsOnlyPlace (84 ∷ 90 ∷ 105 ∷ 70 ∷ []) 0 }
    ensures digit_4 { IsOnlyPlace (under (plain_header 52)) 4 }
    ensures digit_1 { IsOnlyPlace (under (plain_header 49)) 4 }
    ensures second_magic { IsOnlyPlace (with_second (84 ∷ 90 ∷ 105 ∷ 70 ∷ [])) 54 }
    ensures second_digit_4 { IsOnlyPlace (with_second (plain_header 52)) 58 }
    ensures second_version_1 { IsOnlyPlace (with_second (plain_header 0)) 58 }
{}

/// Counts that don't agree are rejected at that of the types or of the designations if it is 0, or
/// else at that of the indicators.
pub fn counts()
    ensures ut_local { IsOnlyPlace (under (header_of 0 2 0 0 0 1 4)) 20 }
    ensures standard_wall { IsOnlyPlace (under (header_of 0 1 2 0 0 1 4)) 24 }
    ensures types { IsOnlyPlace (under (header_of 0 0 0 0 0 0 4)) 36 }
    ensures designations { IsOnlyPlace (under (header_of 0 0 0 0 0 1 0)) 40 }
{}

/// A file that is too short is at fault at its end, and one of version 1 that is too long at the
/// first byte that is too much.
pub fn ends()
    ensures empty { IsOnlyPlace [] 0 }
    ensures header { IsOnlyPlace (take 43 (plain_header 0)) 43 }
    ensures block { IsOnlyPlace (plain_header 0 ++ utc_record) 50 }
    ensures second_header { IsOnlyPlace (under (plain_header 50)) 54 }
    ensures byte_after { IsOnlyPlace (under (plain_header 0) ++ (0 ∷ [])) 54 }
{}

/// A type's record has its offset at 44, its isdst byte at 48, and the place of its designation at
/// 49; a second one follows at 50.
pub fn types()
    ensures offset { IsOnlyPlace (of_record (128 ∷ 0 ∷ 0 ∷ 0 ∷ 0 ∷ 0 ∷ [])) 44 }
    ensures flag { IsOnlyPlace (of_record (0 ∷ 0 ∷ 0 ∷ 0 ∷ 2 ∷ 0 ∷ [])) 48 }
    ensures flag_first { IsOnlyPlace (of_record (128 ∷ 0 ∷ 0 ∷ 0 ∷ 2 ∷ 4 ∷ [])) 48 }
    ensures designation { IsOnlyPlace (of_record (0 ∷ 0 ∷ 0 ∷ 0 ∷ 0 ∷ 4 ∷ [])) 49 }
    ensures second { IsOnlyPlace (of_second_record (0 ∷ 0 ∷ 0 ∷ 0 ∷ 2 ∷ 0 ∷ [])) 54 }
{}

/// A type given in UT and not in standard time is rejected at its UT/local indicator, which follows
/// the standard/wall indicator at 54.
pub fn indicators()
    ensures { IsOnlyPlace (of_indicators 0 1) 55 }
{}

/// Two transitions have their times at 44 and 48, and their type indexes at 52 and 53. Leap seconds
/// of a file without transitions begin at 54, and have eight bytes each.
pub fn lists()
    ensures index { IsOnlyPlace (of_transitions one_and_two (0 ∷ 1 ∷ [])) 53 }
    ensures index_first { IsOnlyPlace (of_transitions (count 2 ++ count 2) (1 ∷ 1 ∷ [])) 52 }
    ensures time { IsOnlyPlace (of_transitions (count 2 ++ count 2) (0 ∷ 0 ∷ [])) 48 }
    ensures first_leap { IsOnlyPlace (of_first_leap 2) 54 }
    ensures second_leap { IsOnlyPlace of_second_leap 62 }
    ensures rule { IsOnlyPlace with_other_rule 118 }
{}

/// The footer of a file of two such blocks begins at 108.
pub fn footers()
    ensures no_newline { IsOnlyPlace (with_footer (85 ∷ 84 ∷ 67 ∷ 48 ∷ 10 ∷ [])) 108 }
    ensures no_end { IsOnlyPlace (with_footer (10 ∷ 85 ∷ 84 ∷ 67 ∷ 48 ∷ [])) 113 }
    ensures colon { IsOnlyPlace (with_footer (10 ∷ 58 ∷ 10 ∷ [])) 109 }
    ensures zero { IsOnlyPlace (with_footer (10 ∷ 85 ∷ 0 ∷ 10 ∷ [])) 110 }
    ensures string { IsOnlyPlace (with_footer (10 ∷ 85 ∷ 84 ∷ 67 ∷ 10 ∷ [])) 112 }
    ensures not_utf8 { IsOnlyPlace (with_footer (10 ∷ 255 ∷ [])) 109 }
{}
