//! The ones of one word.
ghost use Rattle.std.specs.Prelude.{◌≡◌, ◌+◌, ◌-◌, ◌*◌, ◌^◌, ◌<◌, ◌≤◌, ℕ, Bool, List, [], ◌∷◌, ◌++◌, ◌⊎◌, true, false, length, replicate};
ghost use Rattle.wah_words.specs.Limits.{most_bits};
ghost use Rattle.wah_words.specs.Places.{places};
ghost use Rattle.wah_words.specs.Left.{run_values};
ghost use Rattle.wah_iter.specs.Runs.{Fits};
ghost use Rattle.wah_iter.specs.Rows.{rows_from, before, runs_from};
ghost use Rattle.wah_iter.specs.Walks.{rows_left, runs_left, IsPiece, BeginsAt, BeginsAfter, IsTop, IsFirstRun, size};

use std::sync::ledger::Ledger;
use steps::Steps;
use wah_words::{Cursor, Run};

/// The ones of one word that are still to come: those of `word`, whose bit 30 is the row `base`, and all rows from
/// `next` up to `end`. The words after it begin at the row `end`.
#[derive(Drop)]
pub(crate) struct Piece {
    pub(crate) word: u32,
    pub(crate) base: u32,
    pub(crate) next: u32,
    pub(crate) end: u32,
}

/// The ones of the run whose first value is at this row.
#[inline(always)]
fn piece_of(run: Run, row: u32) -> Piece
    requires fits { Fits run }
    requires limit { row + length (run_values run) ≤ most_bits }
    ensures piece { IsPiece result.word result.base result.next result.end }
    ensures end { result.end ≡ row + length (run_values run) }
    ensures rows { rows_from result.base (places 31 result.word) ++ rows_from result.next (replicate (result.end - result.next) true) ≡ rows_from row (run_values run) }
    ensures runs { (rs : List (ℕ × ℕ)) → runs_from result.base (places 31 result.word) (runs_from result.next (replicate (result.end - result.next) true) rs) ≡ runs_from row (run_values run) rs }
{
    match run {
        Run::Fill { bit, groups } => {
            let end = row + 31 * groups;
            let next = if bit { row } else { end };
            Piece {
                word: 0,
                base: row,
                next,
                end,
            }
        }
        Run::Literal(word) => Piece {
            word,
            base: row,
            next: row + 31,
            end: row + 31,
        },
        Run::Tail { bits, count } => Piece {
            word: bits << (31 - count),
            base: row,
            next: row + count,
            end: row + count,
        },
    }
}

/// Goes on to the next word that has a one, where the piece has none left. Whether there is one.
#[inline(always)]
pub(crate) fn find_one<L: Ledger>(
    cursor: &mut Cursor<'_>,
    piece: &mut Piece,
    steps: &mut Steps<L>,
) -> bool
    requires piece { IsPiece piece.old.word piece.old.base piece.old.next piece.old.end }
    requires limit { piece.old.end + length cursor.old.values ≤ most_bits }
    ensures piece { IsPiece piece.new.word piece.new.base piece.new.next piece.new.end }
    ensures limit { piece.new.end + length cursor.new.values ≤ most_bits }
    ensures rows { rows_left piece.new.word piece.new.base piece.new.next piece.new.end cursor.new.values ≡ rows_left piece.old.word piece.old.base piece.old.next piece.old.end cursor.old.values }
    ensures runs { runs_left piece.new.word piece.new.base piece.new.next piece.new.end cursor.new.values ≡ runs_left piece.old.word piece.old.base piece.old.next piece.old.end cursor.old.values }
    ensures found { result ≡ true → (0 < piece.new.word) ⊎ (piece.new.next < piece.new.end) }
    ensures none { result ≡ false → (piece.new.word ≡ 0) × (piece.new.next ≡ piece.new.end) × (cursor.new.values ≡ []) }
    ensures less { size piece.new.word piece.new.next piece.new.end cursor.new.words ≤ size piece.old.word piece.old.next piece.old.end cursor.old.words }
    ensures steps { steps.new + cursor.new.words ≡ steps.old + cursor.old.words }
{
    while piece.word == 0 && piece.next == piece.end {
        let Some(run) = cursor.advance(steps) else {
            return false;
        };
        *piece = piece_of(run, piece.end);
    }
    true
}

/// The first one of the piece, which is then taken out.
#[inline(always)]
pub(crate) fn take_one(piece: &mut Piece) -> u32
    requires piece { IsPiece piece.old.word piece.old.base piece.old.next piece.old.end }
    requires some { (0 < piece.old.word) ⊎ (piece.old.next < piece.old.end) }
    ensures piece { IsPiece piece.new.word piece.new.base piece.new.next piece.new.end }
    ensures end { piece.new.end ≡ piece.old.end }
    ensures rows { rows_from piece.old.base (places 31 piece.old.word) ++ rows_from piece.old.next (replicate (piece.old.end - piece.old.next) true) ≡ result ∷ (rows_from piece.new.base (places 31 piece.new.word) ++ rows_from piece.new.next (replicate (piece.new.end - piece.new.next) true)) }
{
    if piece.word > 0 {
        let zeros = piece.word.leading_zeros();
        piece.word -= 1 << (31 - zeros);
        return piece.base + zeros - 1;
    }
    piece.next += 1;
    piece.next - 1
}

/// The row of the first one of the piece.
#[inline(always)]
pub(crate) fn first_one(piece: &Piece) -> u32
    requires piece { IsPiece piece.now.word piece.now.base piece.now.next piece.now.end }
    requires some { (0 < piece.now.word) ⊎ (piece.now.next < piece.now.end) }
    ensures runs { (rs : List (ℕ × ℕ)) → BeginsAt result (runs_from piece.now.base (places 31 piece.now.word) (runs_from piece.now.next (replicate (piece.now.end - piece.now.next) true) rs)) }
{
    if piece.word > 0 {
        return piece.base + piece.word.leading_zeros() - 1;
    }
    piece.next
}

/// How many places of a 32-bit number are before the word's first ones, and how many with them.
#[inline(always)]
fn first_run(word: u32) -> (u32, u32)
    requires some { 0 < word }
    requires fits { word < 2147483648 }
    ensures top { IsTop word result.0 }
    ensures run { IsFirstRun word result.0 result.1 }
{
    let above = word.leading_zeros();
    let below = ((u32::MAX >> above) - word).leading_zeros();
    (above, below)
}

/// The first ones of the piece that follow each other, as the first row and the one past the last. They are then
/// taken out.
#[inline(always)]
pub(crate) fn take_run(piece: &mut Piece) -> (u32, u32)
    requires piece { IsPiece piece.old.word piece.old.base piece.old.next piece.old.end }
    requires some { (0 < piece.old.word) ⊎ (piece.old.next < piece.old.end) }
    ensures piece { IsPiece piece.new.word piece.new.base piece.new.next piece.new.end }
    ensures end { piece.new.end ≡ piece.old.end }
    ensures less { size piece.new.word piece.new.next piece.new.end 0 < size piece.old.word piece.old.next piece.old.end 0 }
    ensures apart { result.1 < piece.new.end → (v : List Bool) → BeginsAfter result.1 (runs_left piece.new.word piece.new.base piece.new.next piece.new.end v) }
    ensures runs { (rs : List (ℕ × ℕ)) → runs_from piece.old.base (places 31 piece.old.word) (runs_from piece.old.next (replicate (piece.old.end - piece.old.next) true) rs) ≡ before result.0 result.1 (runs_from piece.new.base (places 31 piece.new.word) (runs_from piece.new.next (replicate (piece.new.end - piece.new.next) true) rs)) }
{
    if piece.word > 0 {
        let (above, below) = first_run(piece.word);
        piece.word %= 1 << (32 - below);
        return (piece.base + above - 1, piece.base + below - 1);
    }
    let run = (piece.next, piece.end);
    piece.next = piece.end;
    run
}
