//! Laws of the spelling, each on a function that does nothing.
ghost use Rattle.std.specs.Prelude.{◌≡◌, ℕ, ◌+◌, ◌*◌, ◌/◌, ◌%◌, ◌<◌, ◌≤◌, ◌++◌, List, Bool, length};
ghost use Rattle.wah_words.specs.Limits.{most_bits};
ghost use Rattle.wah_words.specs.Spelling.{Word, regular_words, rest_of, words_of, told, groups_told, IsCanonical};
ghost use Rattle.wah_words.specs.Bytes.{spelling};

/// Each list has one spelling: its regular words are canonical and stand, with the rest, for the list.
pub fn one_spelling()
    ensures canonical { (v : List Bool) → IsCanonical (regular_words v) }
    ensures told { (v : List Bool) → told (regular_words v) ++ rest_of v ≡ v }
    ensures rest { (v : List Bool) → length (rest_of v) ≡ length v % 31 }
{}

/// Each canonical spelling has one list: canonical words and a rest are the words and the rest of what they stand for.
/// Bytes begin with the spelling of one list at most.
pub fn one_list()
    ensures words { (ws : List Word) (rest : List Bool) → IsCanonical ws → length rest < 31 → regular_words (told ws ++ rest) ≡ ws }
    ensures rest { (ws : List Word) (rest : List Bool) → IsCanonical ws → length rest < 31 → rest_of (told ws ++ rest) ≡ rest }
    ensures bytes { (v w : List Bool) (x y : List ℕ) → length v ≤ most_bits → length w ≤ most_bits → spelling v ++ x ≡ spelling w ++ y → v ≡ w }
{}

/// The law on lengths: the regular words stand for the whole groups of the list, each for one at least, and a vector's
/// bytes are eight and four a word.
pub fn one_length()
    ensures groups { (v : List Bool) → groups_told (regular_words v) ≡ length v / 31 }
    ensures words { (v : List Bool) → 31 * words_of v ≤ length v + 30 }
    ensures bytes { (v : List Bool) → length (spelling v) ≡ 8 + 4 * words_of v }
{}
