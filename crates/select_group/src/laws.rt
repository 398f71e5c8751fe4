//! Laws of answers, each on a function that does nothing.

ghost use Rattle.std.specs.Prelude.{◌≡◌, ◌++◌, List};
ghost use Rattle.std.specs.List.{list_any};
ghost use Rattle.std.specs.List.Sorted.{IsSortedBy, IsStableBy, IsStrictlySortedBy};
ghost use Rattle.fb_types.specs.declared.cells.Cell.{Cell};
ghost use Rattle.query_grammar.specs.declared.picking.OrderPlace.{OrderPlace};
ghost use Rattle.select_group.specs.Order.{comes_before, rising_keys, sorted};
ghost use Rattle.select_group.specs.Printed.{rows_text};
ghost use Rattle.select_group.specs.Rows.{cells_cmp, cells_eq};

/// The keys of groups rise, and are those of the records.
pub fn the_keys_of_groups()
    ensures rise { (keys : List (List Cell)) → IsStrictlySortedBy cells_cmp (rising_keys keys) }
    ensures same { (q : List Cell) (keys : List (List Cell)) → list_any (cells_eq q) (rising_keys keys) ≡ list_any (cells_eq q) keys }
{}

/// Rows in the order of a query are in order, and those that tie stand as they stood.
pub fn the_order_of_rows()
    ensures in_order { (order : List OrderPlace) (rows : List (List Cell)) → IsSortedBy (comes_before order) (sorted (comes_before order) rows) }
    ensures stable { (order : List OrderPlace) (rows : List (List Cell)) → IsStableBy (comes_before order) rows (sorted (comes_before order) rows) }
{}

/// The text of rows in two blocks is that of the first and then of the second.
pub fn the_text_of_blocks()
    ensures { (rows more : List (List Cell)) → rows_text (rows ++ more) ≡ rows_text rows ++ rows_text more }
{}
