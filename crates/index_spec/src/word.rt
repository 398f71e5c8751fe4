//! The words of a specification.

ghost use Rattle.std.specs.Prelude.{◌≡◌};
ghost use Rattle.index_spec.specs.Words.{spelling, word_of, same_word};

/// A word of the language; no other stands in a specification.
#[derive(Clone, Copy, Debug, PartialEq, Eq)]
pub(crate) enum Word {
    Binning,
    Encoding,
    Each,
    Bounds,
    Start,
    End,
    Nbins,
    Precision,
    Equality,
    Range,
    Interval,
    TwoLevel,
    Coarse,
    Ncoarse,
}

pub(crate) const WORDS: [Word; 14] = [
    Word::Binning,
    Word::Encoding,
    Word::Each,
    Word::Bounds,
    Word::Start,
    Word::End,
    Word::Nbins,
    Word::Precision,
    Word::Equality,
    Word::Range,
    Word::Interval,
    Word::TwoLevel,
    Word::Coarse,
    Word::Ncoarse,
];

impl Word {
    #[tactic(auto, unfolding(crate::specs::Words::spelling))]
    pub(crate) fn text(self) -> &'static str
        ensures { result.now ≡ spelling self }
    {
        match self {
            Word::Binning => "binning",
            Word::Encoding => "encoding",
            Word::Each => "none",
            Word::Bounds => "bounds",
            Word::Start => "start",
            Word::End => "end",
            Word::Nbins => "nbins",
            Word::Precision => "precision",
            Word::Equality => "equality",
            Word::Range => "range",
            Word::Interval => "interval",
            Word::TwoLevel => "two-level",
            Word::Coarse => "coarse",
            Word::Ncoarse => "ncoarse",
        }
    }

    pub(crate) fn is(self, other: Word) -> bool
        ensures { result ≡ same_word self other }
    {
        self == other
    }
}

/// The word that is written so.
#[tactic(auto, unfolding(crate::specs::Words::word_of))]
pub(crate) fn word_of(text: &[u8]) -> Option<Word>
    ensures { result ≡ word_of text.now }
{
    WORDS.iter().copied().find(|w| w.text().as_bytes() == text)
}
