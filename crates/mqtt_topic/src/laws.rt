//! Laws of texts and of matching, over every text, filter and name: each is the contract of a function that does nothing.

ghost use Rattle.std.specs.Prelude.{◌≡◌, ◌++◌, ◌∷◌, [], ◌↔◌, List, ℕ, Ok, true, false, not};
ghost use Rattle.std.specs.List.{list_any};
ghost use Rattle.mqtt_topic.specs.Levels.{is_separator, is_dollar, begins, levels_of, IsCut, matches};
ghost use Rattle.mqtt_topic.specs.Names.{is_plain, Share, share_of, Spells};

/// A filter without wildcards matches its own name and no other (section 4.7.3).
pub fn plain_filters_match_one_name()
    ensures { (filter name : List ℕ) → is_plain filter ≡ true → (matches filter name ≡ true) ↔ (filter ≡ name) }
{}

/// The filter `#` matches each name that does not begin with `$`, and no other (sections 4.7.1.2 and 4.7.2).
pub fn multi_level_matches_all()
    ensures { (name : List ℕ) → matches (35 ∷ []) name ≡ not (begins is_dollar name) }
{}

/// The filter of a name and `/#` matches the name itself, as the standard's `sport/tennis/player1/#` does (section 4.7.1.2).
pub fn multi_level_matches_the_parent()
    ensures { (parent : List ℕ) → is_plain parent ≡ true → matches (parent ++ 47 ∷ 35 ∷ []) parent ≡ true }
{}

/// The filter `+` matches each name of one level, also an empty one, that does not begin with `$`, and no other (section
/// 4.7.1.3).
pub fn single_level_matches_one_level()
    ensures { (name : List ℕ) → (matches (43 ∷ []) name ≡ true)
        ↔ ((list_any is_separator name ≡ false) × (begins is_dollar name ≡ false)) }
{}

/// The levels of a text are the one list of levels, at least one and none with a `/`, that joined by `/` are the text (section
/// 4.7.1.1).
pub fn levels_are_cut()
    ensures { (text : List ℕ) (levels : List (List ℕ)) → (levels_of text ≡ levels) ↔ IsCut text levels }
{}

/// A text is read as a share where it is `$share/`, the Share Name, `/` and the filter, the name with a character and without
/// `/`, `+` and `#`, the filter one that may be, and then as no other (section 4.8.2).
pub fn shares_are_spelled()
    ensures { (text : List ℕ) (share : Share) → (share_of text ≡ Ok share) ↔ Spells text share }
{}
