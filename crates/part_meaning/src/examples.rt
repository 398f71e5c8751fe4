//! What the definitions give of columns and parts of a few rows, computed, each on a function that
//! does nothing.

ghost use Rattle.std.specs.Prelude.{◌≡◌, [], ◌∷◌, None, codes, false, true};
ghost use Rattle.index_spec.specs.declared.spec.Coarse.TheVariants as coarse;
ghost use Rattle.index_spec.specs.declared.spec.EncodingSpec.TheVariants.{Equality, Interval, Range, TwoLevel};
ghost use Rattle.binning.specs.declared.against_bins.Three.TheVariants.{No, Unknown, Yes};
ghost use Rattle.wah_logic.specs.Logic.{ones};
ghost use Rattle.where_plan.specs.declared.plan.Plan.TheVariants as plan;
ghost use Rattle.where_plan.specs.declared.plan.PlanAtom.TheVariants as atom;
ghost use Rattle.part_meaning.specs.Answers.{checked_in, definite_in, possible_in, rows_that_hold};
ghost use Rattle.part_meaning.specs.Bitmaps.{bitmap_looks, bins_say, needed_of, work_of};
ghost use Rattle.part_meaning.specs.Files.{is_bitmap_of, is_free_of, is_of_rows};
ghost use Rattle.part_meaning.specs.Known.{known};
ghost use Rattle.part_meaning.specs.Samples.{a_column, any_number, b_is_1, below, from_1024, from_4_to_7, from_4_to_8, from_5, is_5, is_word, isnt_5, isnt_word, look, null_part, pair_part, ten, ten_part, two_columns, two_part, words_column};

/// The numbers 1 to 10 in bins below 4, from 4 to 7 and from 8 on, under the four encodings.
pub fn the_bitmaps_of_conditions()
    // `3 < a < 9`: No up to 3, Yes from 4 to 7, Unknown from 8 on.
    ensures says { bins_say (ten Equality) from_4_to_8 ≡ No ∷ Yes ∷ Unknown ∷ [] }
    ensures equality { needed_of (ten Equality) from_4_to_8 ≡ 1 ∷ 2 ∷ [] }
    ensures range { needed_of (ten Range) from_4_to_8 ≡ 0 ∷ 1 ∷ 1 ∷ [] }
    ensures interval { needed_of (ten Interval) from_4_to_8 ≡ 0 ∷ 1 ∷ 0 ∷ 1 ∷ [] }
    ensures two_level { needed_of (ten (TwoLevel coarse.Equality 2)) from_4_to_8 ≡ 3 ∷ 1 ∷ [] }
    ensures work { work_of (ten Equality) from_4_to_8 ≡ 16 }

    // The head of the index has 195 bytes, and each bitmap 12.
    ensures looks { bitmap_looks (codes "D") 0 (ten Equality) from_4_to_8
        ≡ look (codes "D/p0000/a.idx") 207 12
        ∷ look (codes "D/p0000/a.idx") 219 12 ∷ [] }

    // `a < 4` is Yes on the first bin and No on the others; `exists` asks none.
    ensures lowest { bitmap_looks (codes "D") 0 (ten Equality) (below 4)
        ≡ look (codes "D/p0000/a.idx") 195 12 ∷ [] }
    ensures exists { work_of (ten Equality) (atom.Exists 0) ≡ 0 }
{}

/// Which reads are of what: the bytes of rows 7 to 9 are 28 to 39.
pub fn the_reads_of_columns()
    ensures values { is_of_rows (codes "D") 0 (ten Equality) (7 ∷ 8 ∷ 9 ∷ [])
        (look (codes "D/p0000/a") 28 12) ≡ true }
    ensures other_rows { is_of_rows (codes "D") 0 (ten Equality) (7 ∷ 9 ∷ [])
        (look (codes "D/p0000/a") 28 12) ≡ false }
    ensures past { is_of_rows (codes "D") 0 (ten Equality) (7 ∷ 8 ∷ 9 ∷ [])
        (look (codes "D/p0000/a") 28 13) ≡ false }
    ensures mask { is_free_of (codes "D") 0 (ten Equality)
        (look (codes "D/p0000/a.msk") 0 12) ≡ true }
    ensures no_values { is_free_of (codes "D") 0 (ten Equality)
        (look (codes "D/p0000/a") 28 4) ≡ false }

    // Only a category has a file of words.
    ensures no_words { is_free_of (codes "D") 0 (ten Equality)
        (look (codes "D/p0000/a.dic") 0 4) ≡ false }
    ensures words { is_free_of (codes "D") 0 (words_column None)
        (look (codes "D/p0000/c.dic") 0 4) ≡ true }
    ensures head { is_bitmap_of (codes "D") 0 (ten Equality)
        (look (codes "D/p0000/a.idx") 24 171) ≡ false }
    ensures bitmap { is_bitmap_of (codes "D") 0 (ten Equality)
        (look (codes "D/p0000/a.idx") 195 12) ≡ true }

    // A read that goes on past the head reads of a bitmap.
    ensures both { is_bitmap_of (codes "D") 0 (ten Equality)
        (look (codes "D/p0000/a.idx") 24 172) ≡ true }
{}

/// The bounds of estimates and the numbers of checks.
pub fn the_numbers_of_plans()
    // `3 < a < 9`: between 4 and 7, of which 3 are checked.
    ensures definite { definite_in a_column (ten_part Equality) (plan.One from_4_to_8) ≡ 4 }
    ensures possible { possible_in a_column (ten_part Equality) (plan.One from_4_to_8) ≡ 7 }
    ensures checked { checked_in a_column (ten_part Equality) (plan.One from_4_to_8) ≡ 3 }

    // `a < 4` and `a in (4, 5, 6, 7)`: the bins decide them.
    ensures low_definite { definite_in a_column (ten_part Equality) (plan.One (below 4)) ≡ 3 }
    ensures low_possible { possible_in a_column (ten_part Equality) (plan.One (below 4)) ≡ 3 }
    ensures low { checked_in a_column (ten_part Equality) (plan.One (below 4)) ≡ 0 }
    ensures exact { checked_in a_column (ten_part Range) (plan.One from_4_to_7) ≡ 0 }

    // `a < 9 and b = 1`: between 0 and 1, of which one is checked.
    ensures pair_definite { definite_in two_columns pair_part
        (plan.And (plan.One (below 9) ∷ plan.One b_is_1 ∷ [])) ≡ 0 }
    ensures pair_possible { possible_in two_columns pair_part
        (plan.And (plan.One (below 9) ∷ plan.One b_is_1 ∷ [])) ≡ 1 }
    ensures pair_checked { checked_in two_columns pair_part
        (plan.And (plan.One (below 9) ∷ plan.One b_is_1 ∷ [])) ≡ 1 }

    // `not (a < 5)` over 3, null and 5 without an index: between 1 and 3, of which 2 are checked.
    ensures null_definite { definite_in a_column null_part (plan.Not (plan.One (below 5))) ≡ 1 }
    ensures null_possible { possible_in a_column null_part (plan.Not (plan.One (below 5))) ≡ 3 }
    ensures null_checked { checked_in a_column null_part (plan.Not (plan.One (below 5))) ≡ 2 }

    // `a >= 1024` over 5000 and 7 without an index, and any number of the type, which is Yes.
    ensures scanned { checked_in a_column two_part (plan.One from_1024) ≡ 2 }
    ensures whole { checked_in a_column two_part (plan.One any_number) ≡ 0 }
{}

/// On how many records plans hold. On a null each condition is false, and its denial true.
pub fn the_records_of_plans()
    ensures interval { ones (rows_that_hold (plan.One from_4_to_8) (ten_part Equality)) ≡ 5 }
    ensures low { ones (rows_that_hold (plan.One (below 4)) (ten_part Equality)) ≡ 3 }
    ensures list { ones (rows_that_hold (plan.One from_4_to_7) (ten_part Range)) ≡ 4 }
    ensures pair { ones (rows_that_hold
        (plan.And (plan.One (below 9) ∷ plan.One b_is_1 ∷ [])) pair_part) ≡ 1 }
    ensures scanned { ones (rows_that_hold (plan.One from_1024) two_part) ≡ 1 }

    // 3, null and 5.
    ensures not_below { ones (rows_that_hold (plan.Not (plan.One (below 5))) null_part) ≡ 2 }
    ensures differs { ones (rows_that_hold (plan.One isnt_5) null_part) ≡ 1 }
    ensures not_equal { ones (rows_that_hold (plan.Not (plan.One is_5)) null_part) ≡ 2 }
    ensures at_least { ones (rows_that_hold (plan.One from_5) null_part) ≡ 1 }
{}

/// The words `x`, none, `yy`, `x` and `z` without an index: one bin of the codes 1 to 3.
pub fn the_answers_of_words()
    // `c = 'x'` is Unknown where there is a word.
    ensures same { bins_say (words_column None) (is_word (codes "x")) ≡ Unknown ∷ [] }
    ensures null { known (words_column None) (is_word (codes "x")) 1 ≡ No }

    // `c != 'q'` is Yes, and `c = 'q'` is No.
    ensures other { bins_say (words_column None) (isnt_word (codes "q")) ≡ Yes ∷ [] }
    ensures absent { bins_say (words_column None) (is_word (codes "q")) ≡ No ∷ [] }
{}
