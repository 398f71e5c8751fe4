//! Laws of dictionaries and texts, each on a function that does nothing.

ghost use Rattle.std.specs.Prelude.{◌≡◌, ◌<◌, ◌≤◌, ◌+◌, ◌*◌, ◌^◌, ◌↔◌, ℕ, Bool, List, [], ◌∷◌, ◌++◌, Ok, Err, Some, length, slice_index};
ghost use Rattle.std.specs.List.{AllByRecursion};
ghost use Rattle.wah_words.specs.Bytes.{spelling};
ghost use Rattle.column_file.specs.Opening.{mask_in};
ghost use Rattle.wah_words.specs.Limits.{most_bits};
ghost use Rattle.text_column.specs.DictionaryFile.{IsFaultOf, dictionary_bytes, dictionary_in};
ghost use Rattle.text_column.specs.OpenedTexts.{starts_in, text_in};
ghost use Rattle.text_column.specs.Texts.{starts_bytes, starts_of, text_file, texts_at};
ghost use Rattle.text_column.specs.Words.{IsDictionary, IsWord, code_in, first_seen, with_word, word_in, most_words};
ghost use Rattle.text_column.specs.declared.fault.DicFault.{DicFault};

/// A code is of one word and a word has one code, which no later word changes; adding a column's words in turn makes a
/// dictionary.
pub fn codes_and_words()
    ensures kept { (words : List (List ℕ)) (word new : List ℕ) (code : ℕ) → code_in words word ≡ Some code
        → code_in (with_word words new) word ≡ Some code }
    ensures both { (words : List (List ℕ)) (word : List ℕ) (code : ℕ) → IsDictionary words
        → (code_in words word ≡ Some code) ↔ (word_in words code ≡ Some word) }
    ensures seen { (words : List (List ℕ)) (word : List ℕ) → first_seen (words ++ word ∷ []) ≡ with_word (first_seen words) word }
    ensures dictionary { (words : List (List ℕ)) → AllByRecursion IsWord words → length words ≤ most_words → IsDictionary (first_seen words) }
{}

/// A dictionary is read back from its bytes, and bytes that are read are those of the dictionary.
pub fn one_dictionary()
    ensures read { (words : List (List ℕ)) → IsDictionary words → dictionary_in (dictionary_bytes words) ≡ Ok words }
    ensures written { (bytes : List ℕ) (words : List (List ℕ)) → ((i : ℕ) → slice_index bytes i < 256) → dictionary_in bytes ≡ Ok words
        → IsDictionary words × (bytes ≡ dictionary_bytes words) }
{}

/// What the first fault of bytes says of them.
pub fn the_faults_of_dictionaries()
    ensures { (bytes : List ℕ) (fault : DicFault) → ((i : ℕ) → slice_index bytes i < 256) → dictionary_in bytes ≡ Err fault → IsFaultOf bytes fault }
{}

/// Starts part a text file into texts, of which they are the starts; and texts are parted by theirs.
pub fn starts_and_texts()
    ensures parted { (texts : List (List ℕ)) → texts_at (starts_of texts) (text_file texts) ≡ texts }
    ensures spelled { (rows : ℕ) (text bytes starts : List ℕ) → ((i : ℕ) → slice_index bytes i < 256) → starts_in (length text) rows (Some bytes) ≡ Ok starts
        → (starts_bytes starts ≡ bytes) × (starts_of (texts_at starts text) ≡ starts) × (text_file (texts_at starts text) ≡ text) }
{}

/// The definition of opening accepts what is written.
pub fn written_texts_open()
    ensures { (texts : List (List ℕ)) (bits : List Bool) → length bits ≡ length texts → length bits ≤ most_bits → length (text_file texts) < 2 ^ 64
        → text_in (length texts) (Some (text_file texts)) (Some (starts_bytes (starts_of texts))) (Some (spelling bits)) ≡ Ok (starts_of texts, bits) }
{}
