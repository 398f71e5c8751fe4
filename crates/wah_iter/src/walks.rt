ghost use Rattle.std.specs.Prelude.{◌≡◌, ◌+◌};
ghost use Rattle.wah_words.specs.Spelling.{words_of};
ghost use Rattle.wah_iter.specs.Rows.{rows_of, runs_of};
ghost use Rattle.wah_iter.specs.Walks.{ComesRow, ComesRun};

use crate::piece::{Piece, find_one, first_one, take_one, take_run};
use std::marker::Model;
use std::sync::ledger::Ledger;
use steps::Steps;
use wah_words::{Cursor, Wah};

/// A walk over the rows of a vector: the places of its ones, in rising order. Contracts see the rows that are still to
/// come, and the number of words that are still to look at.
#[derive(Drop)]
pub struct OneWalk<'a> {
    cursor: Cursor<'a>,
    piece: Piece,
}

impl<'a> Model for OneWalk<'a> {
    ghost use Rattle.std.specs.Prelude.{◌+◌, ◌≤◌, length};
    ghost use Rattle.wah_words.specs.Limits.{most_bits};
    ghost use Rattle.wah_iter.specs.Walks.{rows_left, IsPiece, RowsLeft};

    ghost Value = { RowsLeft };

    ghost view = { λ s. record { rows = rows_left s.piece.word s.piece.base s.piece.next s.piece.end s.cursor.values; words = s.cursor.words } };

    ghost invariant = { λ s. IsPiece s.piece.word s.piece.base s.piece.next s.piece.end × (s.piece.end + length s.cursor.values ≤ most_bits) };
}

/// A walk over the rows at which the vector is true.
#[inline(always)]
pub fn ones(v: &Wah) -> OneWalk<'_>
    ensures rows { result.rows ≡ rows_of v.now }
    ensures words { result.words ≡ words_of v.now }
{
    OneWalk {
        cursor: v.cursor(),
        piece: Piece {
            word: 0,
            base: 0,
            next: 0,
            end: 0,
        },
    }
}

impl<'a> OneWalk<'a> {
    /// The next row, None exactly at the end. A whole walk looks at each word once.
    #[inline(always)]
    pub fn advance<L: Ledger>(&mut self, steps: &mut Steps<L>) -> Option<u32>
        ensures comes { ComesRow self.old.rows result self.new.rows }
        ensures steps { steps.new + self.new.words ≡ steps.old + self.old.words }
    {
        if find_one(&mut self.cursor, &mut self.piece, steps) {
            Some(take_one(&mut self.piece))
        } else {
            None
        }
    }
}

/// A walk over the runs of a vector: its ones that follow each other, as many as there are. Contracts see the runs that
/// are still to come, and the number of words that are still to look at.
#[derive(Drop)]
pub struct RowRuns<'a> {
    cursor: Cursor<'a>,
    piece: Piece,
}

impl<'a> Model for RowRuns<'a> {
    ghost use Rattle.std.specs.Prelude.{◌+◌, ◌≤◌, length};
    ghost use Rattle.wah_words.specs.Limits.{most_bits};
    ghost use Rattle.wah_iter.specs.Walks.{runs_left, IsPiece, RunsLeft};

    ghost Value = { RunsLeft };

    ghost view = { λ s. record { runs = runs_left s.piece.word s.piece.base s.piece.next s.piece.end s.cursor.values; words = s.cursor.words } };

    ghost invariant = { λ s. IsPiece s.piece.word s.piece.base s.piece.next s.piece.end × (s.piece.end + length s.cursor.values ≤ most_bits) };
}

/// A walk over the runs of rows at which the vector is true.
#[inline(always)]
pub fn row_runs(v: &Wah) -> RowRuns<'_>
    ensures runs { result.runs ≡ runs_of v.now }
    ensures words { result.words ≡ words_of v.now }
{
    RowRuns {
        cursor: v.cursor(),
        piece: Piece {
            word: 0,
            base: 0,
            next: 0,
            end: 0,
        },
    }
}

impl<'a> RowRuns<'a> {
    /// The next run, as its first row and the one past its last, None exactly at the end. A whole walk looks at each
    /// word once.
    #[inline(always)]
    pub fn advance<L: Ledger>(&mut self, steps: &mut Steps<L>) -> Option<(u32, u32)>
        ensures comes { ComesRun self.old.runs result self.new.runs }
        ensures steps { steps.new + self.new.words ≡ steps.old + self.old.words }
    {
        if !find_one(&mut self.cursor, &mut self.piece, steps) {
            return None;
        }
        let (first, mut past) = take_run(&mut self.piece);
        // a run that ends before its word does is over
        while past >= self.piece.end && find_one(&mut self.cursor, &mut self.piece, steps) {
            if first_one(&self.piece) != past {
                break;
            }
            past = take_run(&mut self.piece).1;
        }
        Some((first, past))
    }
}
