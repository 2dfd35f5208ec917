//! What the names of zones are.

ghost use Rattle.std.specs.Prelude.{◌≡◌, ℕ, List, ◌++◌, true};
ghost use Rattle.zoned_files.specs.ZoneNames.{is_zone_name, led_to, parts_of};

/// The path of a name leads to what lies below the folder under the name's parts: never to the
/// folder itself or out of it.
#[tactic(auto, using(crate::proofs::NameLaws::below))]
pub fn stays_below()
    ensures { (folder : List (List ℕ)) (name : List ℕ) → is_zone_name name ≡ true
        → led_to folder (parts_of name) ≡ folder ++ parts_of name }
{}
