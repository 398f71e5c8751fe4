//! Vectors made from rows, a group at a time.
ghost use Rattle.std.specs.Prelude.{◌≡◌, ℕ, ◌+◌, ◌-◌, ◌*◌, ◌/◌, ◌%◌, ◌^◌, ◌<◌, ◌≤◌, false, ◌++◌, length, take, min, replicate, slice_index, IfOk};
ghost use Rattle.wah_words.specs.Limits.{most_bits};
ghost use Rattle.wah_words.specs.Places.{places};
ghost use Rattle.wah_iter.specs.Rows.{rows_from, rows_of};

use std::alloc::{AllocError, Global};
use wah_words::{Builder, Wah};

/// The first rows, which are below `base + width`, as the places of a number of which the highest is the row `base`;
/// and how many they are.
#[inline(always)]
fn word_of_rows(rows: &[u32], base: u32, width: u32) -> (u32, usize)
    requires rising { (i : ℕ) → i + 1 < length rows.now → slice_index rows.now i < slice_index rows.now (i + 1) }
    requires from { 0 < length rows.now → base ≤ slice_index rows.now 0 }
    requires few { width ≤ 31 }
    ensures rows { rows_from base (places width result.0) ≡ take result.1 rows.now }
    ensures fits { result.0 < 2 ^ width }
    ensures within { result.1 ≤ length rows.now }
    ensures past { result.1 < length rows.now → base + width ≤ slice_index rows.now result.1 }
{
    let mut word = 0;
    for (count, row) in rows.iter().enumerate() {
        let place = *row - base;
        if place >= width {
            return (word, count);
        }
        word += 1 << (width - 1 - place);
    }
    (word, rows.len())
}

/// The same of a whole group. Where all its rows are there, only the last one is looked at.
#[inline(always)]
fn group_of_rows(rows: &[u32], base: u32) -> (u32, usize)
    requires rising { (i : ℕ) → i + 1 < length rows.now → slice_index rows.now i < slice_index rows.now (i + 1) }
    requires from { 0 < length rows.now → base ≤ slice_index rows.now 0 }
    requires limit { base + 31 ≤ most_bits }
    ensures rows { rows_from base (places 31 result.0) ≡ take result.1 rows.now }
    ensures fits { result.0 < 2 ^ 31 }
    ensures within { result.1 ≤ length rows.now }
    ensures past { result.1 < length rows.now → base + 31 ≤ slice_index rows.now result.1 }
{
    if rows.len() >= 31 && rows[30] == base + 30 {
        return (0x7FFF_FFFF, 31);
    }
    word_of_rows(rows, base, 31)
}

/// Appends groups that are all false.
#[inline(always)]
fn push_zeros(out: &mut Builder, groups: u32)
    requires aligned { length out.old.values % 31 ≡ 0 }
    requires room { min 1 groups ≤ out.old.spare }
    requires limit { length out.old.values + 31 * groups ≤ most_bits }
    ensures values { out.new.values ≡ out.old.values ++ replicate (31 * groups) false }
    ensures spare { out.old.spare ≤ out.new.spare + min 1 groups }
{
    if groups > 0 {
        out.push_fill(false, groups);
    }
}

/// Appends the group of the first row, after groups that are all false. How many rows are in it.
#[inline(always)]
fn push_group(out: &mut Builder, rows: &[u32]) -> usize
    requires rising { (i : ℕ) → i + 1 < length rows.now → slice_index rows.now i < slice_index rows.now (i + 1) }
    requires some { 0 < length rows.now }
    requires from { length out.old.values ≤ slice_index rows.now 0 }
    requires aligned { length out.old.values % 31 ≡ 0 }
    requires limit { 31 * (slice_index rows.now 0 / 31) + 31 ≤ most_bits }
    requires room { min 2 (slice_index rows.now 0 / 31 + 1 - length out.old.values / 31) ≤ out.old.spare }
    ensures rows { rows_of out.new.values ≡ rows_of out.old.values ++ take result rows.now }
    ensures some { 0 < result }
    ensures within { result ≤ length rows.now }
    ensures length { length out.new.values ≡ 31 * (slice_index rows.now 0 / 31) + 31 }
    ensures past { result < length rows.now → length out.new.values ≤ slice_index rows.now result }
    ensures spare { out.old.spare ≤ out.new.spare + min 2 (slice_index rows.now 0 / 31 + 1 - length out.old.values / 31) }
{
    let group = rows[0] / 31;
    push_zeros(out, group - out.len() / 31);
    let (word, count) = group_of_rows(rows, 31 * group);
    out.push_literal(word);
    count
}

/// Appends what is left of `len` values, of which these rows, all of them after the whole groups, are true.
fn push_rest(out: &mut Builder, rows: &[u32], len: u32)
    requires rising { (i : ℕ) → i + 1 < length rows.now → slice_index rows.now i < slice_index rows.now (i + 1) }
    requires from { 0 < length rows.now → 31 * (len / 31) ≤ slice_index rows.now 0 }
    requires below { (i : ℕ) → i < length rows.now → slice_index rows.now i < len }
    requires limit { len ≤ most_bits }
    requires aligned { length out.old.values % 31 ≡ 0 }
    requires within { length out.old.values ≤ len }
    requires room { min 1 (len / 31 - length out.old.values / 31) ≤ out.old.spare }
    ensures rows { rows_of out.new.values ≡ rows_of out.old.values ++ rows.now }
    ensures length { length out.new.values ≡ len }
{
    push_zeros(out, len / 31 - out.len() / 31);
    let count = len % 31;
    if count > 0 {
        let (word, _) = word_of_rows(rows, len - count, count);
        out.push_tail(word, count);
    }
}

/// The vector of `len` values that is true exactly at these rows.
pub fn from_rows(alloc: Global, rows: &[u32], len: u32) -> Result<Wah, AllocError>
    requires rising { (i : ℕ) → i + 1 < length rows.now → slice_index rows.now i < slice_index rows.now (i + 1) }
    requires below { (i : ℕ) → i < length rows.now → slice_index rows.now i < len }
    requires limit { len ≤ most_bits }
    ensures length { IfOk result (λ v. length v ≡ len) }
    ensures rows { IfOk result (λ v. rows_of v ≡ rows.now) }
{
    let groups = len / 31;
    // a row ends at most two words, a fill of zeros and its own group
    let room = if rows.len() < groups as usize / 2 {
        2 * rows.len() as u32 + 1
    } else {
        groups
    };
    let mut out = Builder::with_room(alloc, room)?;
    let mut done = 0;
    while done < rows.len() && rows[done] / 31 < groups {
        done += push_group(&mut out, &rows[done..]);
    }
    push_rest(&mut out, &rows[done..], len);
    Ok(out.finish())
}
