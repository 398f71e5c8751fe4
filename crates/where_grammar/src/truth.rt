//! The truth of clauses, computed from its definition.

ghost use Rattle.std.specs.Prelude.{◌≡◌, not, [], ◌∷◌, true, false, List, codes, map, pos};
ghost use Rattle.std.specs.List.{list_all, list_any};
ghost use Rattle.fb_types.specs.declared.cells.Cell.{Cell};
ghost use Rattle.fb_types.specs.declared.cells.Cell.TheVariants.{Null};
ghost use Rattle.fb_types.specs.declared.schemas.Column.{Column};
ghost use Rattle.where_grammar.specs.declared.clause.Atom.{Atom};
ghost use Rattle.where_grammar.specs.declared.clause.Clause.{Clause};
ghost use Rattle.where_grammar.specs.Holds.{atom_holds, compares, holds, odd_many};
ghost use Rattle.where_grammar.specs.Rows.{columns, numbers, truths, words};

use crate::clause::{Atom, Clause, Op};

/// A clause holds as its parts do: `Or` where some part holds, `And` where all do, `Xor` where an odd number do,
/// `Not` where its part doesn't.
pub fn the_truth_of_clauses()
    ensures one { (condition : Atom) (columns : List Column) (cells : List Cell) → holds (Clause.One condition) columns cells ≡ atom_holds condition columns cells }
    ensures not { (part : Clause) (columns : List Column) (cells : List Cell) → holds (Clause.Not part) columns cells ≡ not (holds part columns cells) }
    ensures or { (parts : List Clause) (columns : List Column) (cells : List Cell) → holds (Clause.Or parts) columns cells ≡ list_any (λ part. holds part columns cells) parts }
    ensures and { (parts : List Clause) (columns : List Column) (cells : List Cell) → holds (Clause.And parts) columns cells ≡ list_all (λ part. holds part columns cells) parts }
    ensures xor { (parts : List Clause) (columns : List Column) (cells : List Cell) → holds (Clause.Xor parts) columns cells ≡ odd_many (map (λ part. holds part columns cells) parts) }
{}

/// Conditions on numbers, on null, 2, 3 and 4.
pub fn the_truth_of_numbers()
    ensures less { truths (Atom.Compare (codes "a") Op.Less (pos 3)) numbers ≡ false ∷ true ∷ false ∷ false ∷ [] }
    ensures less_or_equal { truths (Atom.Compare (codes "a") Op.LessEq (pos 3)) numbers ≡ false ∷ true ∷ true ∷ false ∷ [] }
    ensures greater { truths (Atom.Compare (codes "a") Op.Greater (pos 3)) numbers ≡ false ∷ false ∷ false ∷ true ∷ [] }
    ensures greater_or_equal { truths (Atom.Compare (codes "a") Op.GreaterEq (pos 3)) numbers ≡ false ∷ false ∷ true ∷ true ∷ [] }
    ensures equal { truths (Atom.Compare (codes "a") Op.Equal (pos 3)) numbers ≡ false ∷ false ∷ true ∷ false ∷ [] }
    ensures differs { truths (Atom.Compare (codes "a") Op.Differs (pos 3)) numbers ≡ false ∷ true ∷ false ∷ true ∷ [] }
    ensures double { truths (Atom.Double (codes "a") Op.Greater (pos 2) Op.Less (pos 4)) numbers ≡ false ∷ false ∷ true ∷ false ∷ [] }
    ensures between { truths (Atom.Between (codes "a") (pos 3) (pos 4)) numbers ≡ false ∷ false ∷ true ∷ true ∷ [] }
    ensures listed { truths (Atom.Numbers (codes "a") (pos 4 ∷ pos 2 ∷ [])) numbers ≡ false ∷ true ∷ false ∷ true ∷ [] }
    ensures exists { truths (Atom.Exists (codes "a")) numbers ≡ false ∷ true ∷ true ∷ true ∷ [] }
    ensures other_column { truths (Atom.Exists (codes "z")) numbers ≡ false ∷ false ∷ false ∷ false ∷ [] }
{}

/// Conditions on words, on null, `w`, `w5` and `x`.
pub fn the_truth_of_words()
    ensures same { truths (Atom.Same (codes "a") (codes "w")) words ≡ false ∷ true ∷ false ∷ false ∷ [] }
    ensures other { truths (Atom.Other (codes "a") (codes "w")) words ≡ false ∷ false ∷ true ∷ true ∷ [] }
    ensures listed { truths (Atom.Texts (codes "a") (codes "x" ∷ codes "w" ∷ [])) words ≡ false ∷ true ∷ false ∷ true ∷ [] }
    ensures like { truths (Atom.Like (codes "a") (codes "w_")) words ≡ false ∷ false ∷ true ∷ false ∷ [] }
    ensures exists { truths (Atom.Exists (codes "a")) words ≡ false ∷ true ∷ true ∷ true ∷ [] }
    ensures no_number { truths (Atom.Compare (codes "a") Op.Differs (pos 3)) words ≡ false ∷ false ∷ false ∷ false ∷ [] }
{}

/// `not (a < 5)` holds where `a` is null.
pub fn the_truth_of_a_negation()
    ensures { holds (Clause.Not (Clause.One (Atom.Compare (codes "a") Op.Less (pos 5)))) columns (Null ∷ []) ≡ true }
{}

impl Op {
    /// Whether the number stands so to the limit.
    pub fn holds(self, number: i128, limit: i128) -> bool
        ensures { result ≡ compares self number limit }
    {
        match self {
            Op::Less => number < limit,
            Op::LessEq => number <= limit,
            Op::Greater => number > limit,
            Op::GreaterEq => number >= limit,
            Op::Equal => number == limit,
            Op::Differs => number != limit,
        }
    }
}
