//! A law of lines, as the contract of a function that does nothing.
ghost use Rattle.std.specs.Prelude.{◌≡◌, ◌⊎◌, ◌==◌, false, ℕ, List, [], ◌∷◌, ◌++◌};
ghost use Rattle.std.specs.List.{AllByRecursion, flat_map, list_any};
ghost use Rattle.text_io.specs.Lines.{lines_of, with_end};

/// **The lines of an input are what each 0A ends**: no line has an 0A in it (`whole`); and each followed by an 0A they are the input, or, where
/// no 0A ends the last one, the input and an 0A (`joined`).
pub fn lines_law()
    ensures whole { (input : List ℕ) → AllByRecursion (λ line. list_any (λ byte. byte == 10) line ≡ false) (lines_of input) }
    ensures joined { (input : List ℕ) →
        (flat_map with_end (lines_of input) ≡ input) ⊎ (flat_map with_end (lines_of input) ≡ input ++ 10 ∷ []) }
{}
