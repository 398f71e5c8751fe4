//! Regular words as numbers.
ghost use Rattle.std.specs.Prelude.{◌≡◌, ◌+◌, ◌*◌, ◌<◌, ◌||◌, count_by, replicate, vec_len};
ghost use Rattle.std.specs.Vec.{vec_capacity};
ghost use Rattle.wah_words.specs.Places.{places};
ghost use Rattle.wah_words.specs.Spelling.{literal, fill, word_groups, IsCanonical, groups_told};
ghost use Rattle.wah_words.specs.Bytes.{encoded, decoded, decoded_all, is_improper, are_joined, Appends};
ghost use Rattle.wah_words.specs.Left.{run_of_word, run_values};

use crate::run::Run;

const FILL: u32 = 0x8000_0000;

const ONES: u32 = 0xC000_0000;

const GROUPS: u32 = 0x4000_0000;

const ALL_ONES: u32 = 0x7FFF_FFFF;

#[inline(always)]
pub(crate) fn fill_word(bit: bool, groups: u32) -> u32
    requires { groups < 1073741824 }
    ensures value { result ≡ encoded (fill bit groups) }
    ensures back { decoded result ≡ fill bit groups }
{
    if bit { ONES + groups } else { FILL + groups }
}

/// Whether the word is a fill of this value.
#[inline(always)]
pub(crate) fn is_fill_of(word: u32, bit: bool) -> bool
    ensures fill { result ≡ are_joined (decoded word) (fill bit 1) }
    ensures range { word < 4294967296 }
{
    let kind = word / GROUPS;
    if bit { kind == 3 } else { kind == 2 }
}

/// Appends a fill, to the last word where that is a fill of the same value.
#[inline(always)]
pub(crate) fn append_fill(regular: &mut Vec<u32>, bit: bool, groups: u32)
    requires canonical { IsCanonical (decoded_all regular.old.items) }
    requires room { vec_len regular.old < vec_capacity regular.old }
    requires some { 0 < groups }
    requires fits { groups_told (decoded_all regular.old.items) + groups < 1073741824 }
    ensures appends { Appends regular.old.items regular.new.items (replicate (31 * groups) bit) groups }
    ensures capacity { vec_capacity regular.new ≡ vec_capacity regular.old }
{
    let count = regular.len();
    if count > 0 {
        let last = regular[count - 1];
        if is_fill_of(last, bit) {
            regular[count - 1] = last + groups;
            return;
        }
    }
    regular.push_reserved(fill_word(bit, groups));
}

/// Appends a group of 31 values: a fill where they are equal.
#[inline(always)]
pub(crate) fn append_group(regular: &mut Vec<u32>, word: u32)
    requires canonical { IsCanonical (decoded_all regular.old.items) }
    requires room { vec_len regular.old < vec_capacity regular.old }
    requires group { word < 2147483648 }
    requires fits { groups_told (decoded_all regular.old.items) + 1 < 1073741824 }
    ensures appends { Appends regular.old.items regular.new.items (places 31 word) 1 }
    ensures capacity { vec_capacity regular.new ≡ vec_capacity regular.old }
{
    if word == 0 {
        append_fill(regular, false, 1);
    } else if word == ALL_ONES {
        append_fill(regular, true, 1);
    } else {
        regular.push_reserved(word);
    }
}

/// The word as a run.
#[inline(always)]
pub(crate) fn run_of(word: u32) -> Run
    ensures { result ≡ run_of_word (decoded word) }
{
    if word < FILL {
        Run::Literal(word)
    } else {
        Run::Fill {
            bit: word >= ONES,
            groups: word % GROUPS,
        }
    }
}

/// How many values of the word are true. Both kinds are counted, so that nothing branches on which one it is.
#[inline(always)]
pub(crate) fn ones_in(word: u32) -> u64
    ensures { result ≡ count_by (λ b. b) (run_values (run_of_word (decoded word))) }
{
    let literal = word.count_ones();
    let filled = 31 * u64::from(word % GROUPS) * u64::from(word / GROUPS % 2);
    if word < FILL {
        u64::from(literal)
    } else {
        filled
    }
}

/// How many groups the word stands for.
#[inline(always)]
pub(crate) fn groups_of(word: u32) -> u32
    ensures { result ≡ word_groups (decoded word) }
{
    if word < FILL { 1 } else { word % GROUPS }
}

/// Whether the word is a fill of no group, or a literal whose places are all equal.
#[inline(always)]
fn is_improper_word(word: u32) -> bool
    ensures { result ≡ is_improper (decoded word) }
{
    if word < FILL {
        word == 0 || word == ALL_ONES
    } else {
        word % GROUPS == 0
    }
}

/// Whether both words are fills of one value.
#[inline(always)]
fn are_joined_words(last: u32, word: u32) -> bool
    ensures { result ≡ are_joined (decoded last) (decoded word) }
{
    last >= FILL && word >= FILL && (last >= ONES) == (word >= ONES)
}

/// Whether no canonical words have this word directly after the last one.
#[inline(always)]
pub(crate) fn is_wrong_after(last: u32, word: u32) -> bool
    ensures { result ≡ (is_improper (decoded word) || are_joined (decoded last) (decoded word)) }
{
    is_improper_word(word) || are_joined_words(last, word)
}
