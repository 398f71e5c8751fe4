//! The meaning of patterns: laws, each on a function that does nothing.

ghost use Rattle.std.specs.Prelude.{◌≡◌, ◌↔◌, ℕ, List, [], ◌∷◌, ◌++◌, true, false, codes, IsTrue};
ghost use Rattle.patterns.specs.Like.{IsLike, like};

/// The test by a pattern's bytes in turn decides whether its pieces stand in the text.
pub fn the_pieces_of_patterns()
    ensures { (pattern : List ℕ) (text : List ℕ) → IsTrue (like pattern text) ↔ IsLike pattern text }
{}

/// Texts that are, or aren't, of the form of a pattern; 195 and 169 are one character.
pub fn the_truth_of_patterns()
    ensures one { like (codes "w_") (codes "w5") ≡ true }
    ensures one_character { like (codes "w_") (119 ∷ 195 ∷ 169 ∷ []) ≡ true }
    ensures not_two { like (codes "w_") (codes "w55") ≡ false }
    ensures not_within { like (codes "w_%" ++ 169 ∷ []) (119 ∷ 195 ∷ 169 ∷ []) ≡ false }
    ensures any { like (codes "%b") (codes "ab") ≡ true }
    ensures any_in_between { like (codes "a%c%e") (codes "abcde") ≡ true }
    ensures goes_back { like (codes "%ab%c") (codes "aabxabc") ≡ true }
    ensures none { like [] (codes "a") ≡ false }
    ensures empty { like (codes "%") [] ≡ true }
    ensures by_case { like (codes "W") (codes "w") ≡ false }
{}
