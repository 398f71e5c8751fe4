ghost use Rattle.std.specs.Prelude.{IsTrue};
ghost use Rattle.std.specs.List.{AllByRecursion};
ghost use Rattle.select_group.specs.Gathered.{number_is_small};

use crate::{Grouper, print_rows};
use fb_types::{Cell, Label, parse_schema};
use query_grammar::{Pick, parse_query, resolve_select};
use sqlite_items::Items;
use std::alloc::{AllocError, Global};
use std::process::Abort;
use std::test::Fail;

/// A cell: `-` is null, digits are a number, and the rest is a word.
fn cell(alloc: Global, text: &str) -> Result<Cell, AllocError> {
    if text == "-" {
        return Ok(Cell::Null);
    }
    match text.parse::<i128>() {
        Ok(number) => Ok(Cell::Whole(number)),
        Err(_) => Ok(Cell::Word(Label::from_bytes(alloc, text.as_bytes())?)),
    }
}

/// Whether a number in the cell is between -2^63 and 2^64 - 1.
fn is_small(cell: &Cell) -> bool
    ensures { IsTrue result → number_is_small cell.now }
{
    match cell {
        Cell::Whole(n) => -9223372036854775808 <= *n && *n <= 18446744073709551615,
        Cell::Null => true,
        Cell::Word(_) => true,
    }
}

fn are_small(cells: &[Cell]) -> bool
    ensures { IsTrue result → AllByRecursion number_is_small cells.now }
{
    match cells {
        [] => true,
        [cell, rest @ ..] => is_small(cell) && are_small(rest),
    }
}

/// The cells of a record.
fn cells_of(alloc: Global, record: &str) -> Result<Vec<Cell>, AllocError> {
    let mut cells = Vec::new(alloc);
    for text in record.split(' ') {
        cells.push(cell(alloc, text)?)?;
    }
    Ok(cells)
}

/// The rows of what is selected over records, at most 100 of them.
fn rows_of(
    rt: &impl Abort,
    alloc: Global,
    pick: Pick,
    records: &[&str],
) -> Result<Vec<Items<Cell>>, AllocError> {
    let items = pick.items.len();
    let mut grouper = Grouper::make(alloc, pick);
    assert!(rt; records.len() <= 100);
    for record in records {
        let cells = cells_of(alloc, record)?;
        assert!(rt; cells.len() == items);
        assert!(rt; are_small(&cells));
        grouper.add(cells)?;
    }
    grouper.finish()
}

/// The text of a query's answer over records of the schema's cells, which stand with blanks between, as they are given
/// to the grouper.
fn answer(
    rt: &impl Abort,
    alloc: Global,
    query: &str,
    records: &[&str],
) -> Result<Vec<u8>, AllocError> {
    let Ok(schema) = parse_schema(alloc, "a:int,b:category,c:long") else {
        return Vec::from_slice(alloc, b"no schema");
    };
    let Ok(query) = parse_query(alloc, query) else {
        return Vec::from_slice(alloc, b"no query");
    };
    let Ok(Some(pick)) = resolve_select(alloc, &query, &schema) else {
        return Vec::from_slice(alloc, b"no pick");
    };
    let rows = rows_of(rt, alloc, pick, records)?;
    print_rows(alloc, &rows)
}

#[test]
fn groups_rows_and_orders(rt: HostRuntime) -> Result<(), Fail> {
    let by_word: &[&str] = &["x - 1", "y - -", "x - 2", "- - 5"];
    let numbers: &[&str] = &["3", "-", "10", "2", "-"];
    let pairs: &[&str] = &["2 x", "1 y", "2 z", "- w", "1 v"];
    let none: &[&str] = &[];
    for (query, records, want) in [
        ("select b, count(*), sum(a)", by_word, ",1,5\nx,2,3\ny,1,\n"),
        (
            "select b, count(*), sum(a) order by count(*) desc",
            by_word,
            "x,2,3\n,1,5\ny,1,\n",
        ),
        (
            "select b, count(*), sum(a) order by sum(a)",
            by_word,
            "y,1,\nx,2,3\n,1,5\n",
        ),
        (
            "select b, count(*), sum(a) order by sum(a) desc limit 1",
            by_word,
            ",1,5\n",
        ),
        ("select b, count(*), sum(a) limit 0", by_word, ""),
        ("select a", numbers, "3\n\"\"\n10\n2\n\"\"\n"),
        ("select a order by a", numbers, "\"\"\n\"\"\n2\n3\n10\n"),
        ("select a order by a desc limit 2", numbers, "10\n3\n"),
        ("select min(a)", numbers, "2\n"),
        ("select max(a)", numbers, "10\n"),
        ("select sum(a)", numbers, "15\n"),
        ("select a, b", pairs, "2,x\n1,y\n2,z\n,w\n1,v\n"),
        ("select a, b order by a", pairs, ",w\n1,y\n1,v\n2,x\n2,z\n"),
        (
            "select a, b order by a desc",
            pairs,
            "2,x\n2,z\n1,y\n1,v\n,w\n",
        ),
        (
            "select a, b order by a desc, b desc",
            pairs,
            "2,z\n2,x\n1,y\n1,v\n,w\n",
        ),
        ("select a, b limit 2", pairs, "2,x\n1,y\n"),
        ("select a, b", none, ""),
        ("select count(*)", none, ""),
        (
            "select a, min(c)",
            &["1 7", "2 -", "1 -3", "2 -"],
            "1,-3\n2,\n",
        ),
        (
            "select max(a), b, min(a), a",
            &["1 x 1 1", "5 x 5 5", "1 y 1 1"],
            "1,x,1,1\n5,x,5,5\n1,y,1,1\n",
        ),
    ] {
        let found = answer(&rt, rt.alloc(), query, records)?;
        assert!(rt; found.as_slice() == want.as_bytes(), "{query}");
    }
    Ok(())
}

#[test]
fn sums_pass_64_bits(rt: HostRuntime) -> Result<(), Fail> {
    let most = "18446744073709551615";
    let found = answer(&rt, rt.alloc(), "select sum(c)", &[most, most, most])?;
    assert!(rt; found.as_slice() == "55340232221128654845\n".as_bytes());
    let least = "-9223372036854775808";
    let found = answer(&rt, rt.alloc(), "select sum(c)", &[least, least])?;
    assert!(rt; found.as_slice() == "-18446744073709551616\n".as_bytes());
    Ok(())
}

#[test]
fn words_stand_in_quotes_where_they_need_to(rt: HostRuntime) -> Result<(), Fail> {
    let alloc = rt.alloc();
    for (word, want) in [
        ("x", "x\n"),
        ("a,b", "\"a,b\"\n"),
        ("a\"b", "\"a\"\"b\"\n"),
        ("a\nb", "\"a\nb\"\n"),
        (" a ", " a \n"),
    ] {
        let mut row = Items::new(alloc);
        row.push(cell(alloc, word)?)?;
        let mut rows = Vec::new(alloc);
        rows.push(row)?;
        let found = print_rows(alloc, &rows)?;
        assert!(rt; found.as_slice() == want.as_bytes());
    }
    Ok(())
}
