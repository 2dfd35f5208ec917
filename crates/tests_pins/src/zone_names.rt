//! Names of zones of the tz database ("Names of timezones" in the Theory of the database).

ghost use Rattle.std.specs.Prelude.{◌≡◌, ◌∷◌, [], ◌++◌, codes, true, false};
ghost use Rattle.zoned_files.specs.ZoneNames.{is_zone_name, led_to, path_text};

/// Names of the database, and others that lead to no file of it.
pub fn names()
    ensures one_part { is_zone_name (codes "EST5EDT") ≡ true }
    ensures two_parts { is_zone_name (codes "America/Port-au-Prince") ≡ true }
    ensures three_parts { is_zone_name (codes "America/Argentina/Buenos_Aires") ≡ true }
    ensures sign { is_zone_name (codes "Etc/GMT+5") ≡ true }
    ensures empty { is_zone_name [] ≡ false }
    ensures from_the_root { is_zone_name (codes "/etc/passwd") ≡ false }
    ensures above { is_zone_name (codes "../passwd") ≡ false }
    ensures above_within { is_zone_name (codes "America/../../passwd") ≡ false }
    ensures here { is_zone_name (codes "./UTC") ≡ false }
    ensures empty_part { is_zone_name (codes "America//Nuuk") ≡ false }
    ensures folder { is_zone_name (codes "America/") ≡ false }
    ensures blank { is_zone_name (codes "New York") ≡ false }
    ensures zero_byte { is_zone_name (codes "UTC" ++ 0 ∷ []) ≡ false }
{}

/// The path of a name, and where parts of paths lead.
pub fn paths()
    ensures path { path_text (codes "/usr/share/zoneinfo") (codes "Asia/Tokyo")
        ≡ codes "/usr/share/zoneinfo/Asia/Tokyo" }
    ensures up { led_to (codes "usr" ∷ codes "share" ∷ []) (codes ".." ∷ codes "lib" ∷ [])
        ≡ codes "usr" ∷ codes "lib" ∷ [] }
    ensures root { led_to [] (codes ".." ∷ []) ≡ [] }
    ensures here { led_to [] (codes "." ∷ codes "tz" ∷ [] ∷ []) ≡ codes "tz" ∷ [] }
{}
