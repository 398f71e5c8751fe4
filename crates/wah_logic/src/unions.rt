//! Unions of many vectors.
ghost use Rattle.std.specs.Prelude.{◌≡◌, ℕ, ◌+◌, ◌*◌, ◌^◌, ◌<◌, ◌≤◌, ◌↔◌, true, false, All, length, map, replicate, IfOk};
ghost use Rattle.wah_words.specs.Limits.{most_bits};
ghost use Rattle.wah_words.specs.Spelling.{words_of};
ghost use Rattle.wah_logic.specs.Logic.{each_place, or, union, groups_and_rest, words_in};

use crate::groups::Groups;
use crate::has_rows::HasRows;
use crate::logic::combine;
use crate::ops::Or;
use std::alloc::{AllocError, Global};
use std::sync::ledger::Ledger;
use steps::Steps;
use wah_words::{Builder, Wah};

/// So many values that are false.
fn zeros(alloc: Global, len: u32) -> Result<Wah, AllocError>
    requires { len ≤ most_bits }
    ensures { IfOk result (λ v. v ≡ replicate len false) }
{
    let mut out = Builder::with_room(alloc, 1)?;
    if len / 31 > 0 {
        out.push_fill(false, len / 31);
    }
    if len % 31 > 0 {
        out.push_tail(0, len % 31);
    }
    Ok(out.finish())
}

/// True where one of two vectors of one length is.
fn or_both<L: Ledger>(
    alloc: Global,
    a: &Wah,
    b: &Wah,
    steps: &mut Steps<L>,
) -> Result<Wah, AllocError>
    requires same { length a.now ≡ length b.now }
    ensures values { IfOk result (λ v. v ≡ each_place or a.now b.now) }
    ensures words { IfOk result (λ v. words_of v ≤ words_of a.now + words_of b.now) }
    ensures steps { steps.new ≤ steps.old + words_of a.now + words_of b.now }
{
    let out = Builder::with_room(alloc, a.words() + b.words())?;
    Ok(combine::<Or, L>(a, b, out, steps))
}

/// The same of two or three vectors.
fn or_few<T: HasRows, L: Ledger>(
    alloc: Global,
    list: &[T],
    len: u32,
    steps: &mut Steps<L>,
) -> Result<Wah, AllocError>
    requires some { 2 ≤ length list.now }
    requires few { length list.now ≤ 3 }
    requires same { All (λ v. length v ≡ len) (map T.row_bits list.now) }
    ensures values { IfOk result (λ v. v ≡ union len (map T.row_bits list.now)) }
    ensures words { IfOk result (λ v. words_of v ≤ words_in (map T.row_bits list.now)) }
    ensures digits { (d : ℕ) → length list.now ≤ 2 ^ d → steps.new ≤ steps.old + d * words_in (map T.row_bits list.now) }
    ensures steps { steps.new + 2 * groups_and_rest len ≤ steps.old + 2 * groups_and_rest len * length list.now }
{
    match list {
        [a, b] => or_both(alloc, a.rows(), b.rows(), steps),
        [a, b, c] => {
            let right = or_both(alloc, b.rows(), c.rows(), steps)?;
            or_both(alloc, a.rows(), &right, steps)
        }
        _ => unreachable!(),
    }
}

/// The same of two vectors at least, half by half. The calls stand in each other only as often as the list can be
/// halved.
fn or_halves<T: HasRows, L: Ledger>(
    alloc: Global,
    list: &[T],
    len: u32,
    steps: &mut Steps<L>,
) -> Result<Wah, AllocError>
    requires some { 2 ≤ length list.now }
    requires same { All (λ v. length v ≡ len) (map T.row_bits list.now) }
    ensures values { IfOk result (λ v. v ≡ union len (map T.row_bits list.now)) }
    ensures words { IfOk result (λ v. words_of v ≤ words_in (map T.row_bits list.now)) }
    ensures digits { (d : ℕ) → length list.now ≤ 2 ^ d → steps.new ≤ steps.old + d * words_in (map T.row_bits list.now) }
    ensures steps { steps.new + 2 * groups_and_rest len ≤ steps.old + 2 * groups_and_rest len * length list.now }
{
    if list.len() < 4 {
        return or_few(alloc, list, len, steps);
    }
    let (front, back) = list.split_at(list.len() / 2);
    let left = or_halves(alloc, front, len, steps)?;
    let right = or_halves(alloc, back, len, steps)?;
    or_both(alloc, &left, &right, steps)
}

/// How many groups and rests a vector of this length has.
fn groups_in(len: u32) -> u32
    requires { len ≤ most_bits }
    ensures { result ≡ groups_and_rest len }
{
    (len + 30) / 31
}

/// Whether the vectors have together as many words as one of this length has groups.
fn is_dense<T: HasRows>(list: &[T], len: u32) -> bool
    requires { len ≤ most_bits }
    ensures { result ≡ true ↔ groups_and_rest len ≤ words_in (map T.row_bits list.now) }
{
    let groups = groups_in(len);
    let mut words = 0;
    for vector in list {
        if words >= groups {
            return true;
        }
        words += vector.rows().words();
    }
    words >= groups
}

/// True where one of the vectors is, gathered group by group: each word is looked at once.
fn or_dense<T: HasRows, L: Ledger>(
    alloc: Global,
    list: &[T],
    len: u32,
    steps: &mut Steps<L>,
) -> Result<Wah, AllocError>
    requires limit { len ≤ most_bits }
    requires same { All (λ v. length v ≡ len) (map T.row_bits list.now) }
    ensures values { IfOk result (λ v. v ≡ union len (map T.row_bits list.now)) }
    ensures steps { steps.new ≤ steps.old + words_in (map T.row_bits list.now) }
{
    let mut groups = Groups::zeros(alloc, len)?;
    for vector in list {
        groups.or_vector(vector.rows(), steps);
    }
    groups.vector(alloc)
}

/// The same of two vectors at least, in the way that is quicker.
fn or_some<T: HasRows, L: Ledger>(
    alloc: Global,
    list: &[T],
    len: u32,
    steps: &mut Steps<L>,
) -> Result<Wah, AllocError>
    requires limit { len ≤ most_bits }
    requires some { 2 ≤ length list.now }
    requires same { All (λ v. length v ≡ len) (map T.row_bits list.now) }
    ensures values { IfOk result (λ v. v ≡ union len (map T.row_bits list.now)) }
    ensures digits { (d : ℕ) → length list.now ≤ 2 ^ d → steps.new ≤ steps.old + d * words_in (map T.row_bits list.now) }
    ensures steps { steps.new ≤ steps.old + 2 * groups_and_rest len * length list.now }
{
    if list.len() > 3 && is_dense(list, len) {
        return or_dense(alloc, list, len, steps);
    }
    or_halves(alloc, list, len, steps)
}

/// True where one of the vectors is, each of which has this length. An empty list gives values that are all false.
pub fn or_many<T: HasRows, L: Ledger>(
    alloc: Global,
    list: &[T],
    len: u32,
    steps: &mut Steps<L>,
) -> Result<Wah, AllocError>
    requires limit { len ≤ most_bits }
    requires same { All (λ v. length v ≡ len) (map T.row_bits list.now) }
    ensures values { IfOk result (λ v. v ≡ union len (map T.row_bits list.now)) }

    // at most the words of all vectors for each binary digit of their number, so none for the empty list
    ensures digits { (d : ℕ) → length list.now < 2 ^ d → steps.new ≤ steps.old + d * words_in (map T.row_bits list.now) }
    ensures steps { steps.new ≤ steps.old + 2 * groups_and_rest len * length list.now }
{
    match list {
        [] => zeros(alloc, len),
        [vector] => vector.rows().copy(alloc, steps),
        _ => or_some(alloc, list, len, steps),
    }
}
