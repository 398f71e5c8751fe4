ghost use Rattle.std.specs.Prelude.{◌≡◌};
ghost use Rattle.generator.specs.Generated.{generated_columns};

use crate::generate;
use fb_types::{Columns, print_schema};
use std::test::Fail;

/// Rows of a table against numbers that were worked out apart from it.
#[test]
fn rows_are_those_of_the_seed(rt: HostRuntime) -> Result<(), Fail> {
    let alloc = rt.alloc();
    for (seed, row, first, word, third) in [
        (0, 0, 807, b"w5".as_slice(), None),
        (7, 0, 278, b"w0", None),
        (7, 1, 231, b"w0", Some(94746)),
        (7, 1999, 58, b"w6", Some(45262)),
    ] {
        let table = generate(alloc, 2000, seed)?;
        assert_eq!(rt; table.rows(), 2000);
        assert!(rt;
            print_schema(alloc, table.schema())?.bytes() == b"a:int,b:category,c:long".as_slice()
        );
        assert!(rt; has_row(&table, row, first, word, third), "at {seed} {row}");
    }
    Ok(())
}

#[tactic(auto, unfolding(crate::specs::Generated::generated_columns))]
fn has_row(table: &Columns, row: u64, first: i128, word: &[u8], third: Option<i128>) -> bool
    requires { table.now.schema ≡ generated_columns }
{
    if row >= table.rows() {
        return false;
    }
    let is_word = match table.word(row, 1) {
        Some(bytes) => bytes == word,
        None => false,
    };
    is_word && table.whole(row, 0) == Some(first) && table.whole(row, 2) == third
}
