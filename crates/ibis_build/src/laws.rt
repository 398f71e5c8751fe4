//! Laws of requests for indexes, each on a function that does nothing.

ghost use Rattle.std.specs.Prelude.{◌≡◌, ℕ, pos, List, [], ◌∷◌, ◌++◌, None, Ok, Err, Some, codes, length, map, true, false};
ghost use Rattle.std.specs.FinMap.{empty};
ghost use Rattle.std.specs.List.{AllByRecursion};
ghost use Rattle.fb_types.specs.declared.cells.Cell.TheVariants.{Null, Whole, Word};
ghost use Rattle.fb_types.specs.declared.schemas.Column.{Column};
ghost use Rattle.fb_types.specs.declared.types.ColType.TheVariants.{Category, Int, Long, Text};
ghost use Rattle.fb_types.specs.Schemas.{IsSchema};
ghost use Rattle.index_spec.specs.declared.spec.Binning.TheVariants as binning;
ghost use Rattle.index_spec.specs.declared.spec.Coarse.TheVariants as coarse;
ghost use Rattle.index_spec.specs.declared.spec.EncodingSpec.TheVariants as encoding;
ghost use Rattle.index_spec.specs.declared.spec.Spec.{Spec};
ghost use Rattle.index_spec.specs.declared.spec.SpecKind.TheVariants as kind;
ghost use Rattle.statuses.specs.declared.LimitKind.TheVariants as limit;
ghost use Rattle.statuses.specs.Lines.{line_of};
ghost use Rattle.world.specs.Effects.{Builds};
ghost use Rattle.ibis_build.specs.Builds.{Task, bins_status, built_line, effects_of, is_possible, outcome_of_tasks, tasks_in};
ghost use Rattle.ibis_build.specs.Columns.{Lists, chosen_columns, listed_columns};

use statuses::Status;

/// Which columns a request indexes.
pub fn the_columns_of_a_request()
    // All but a text, in the schema's order; or those of the list, in its order.
    ensures all { chosen_columns (record { name = codes "a"; ty = Int } ∷ record { name = codes "b"; ty = Text }
        ∷ record { name = codes "c"; ty = Category } ∷ []) None
        ≡ Ok (0 ∷ 2 ∷ []) }
    ensures listed { listed_columns (record { name = codes "a"; ty = Int } ∷ record { name = codes "b"; ty = Text }
        ∷ record { name = codes "c"; ty = Category } ∷ []) (codes "\tC , a")
        ≡ Ok (2 ∷ 0 ∷ []) }

    // The first piece that is refused decides.
    ensures unknown { listed_columns (record { name = codes "a"; ty = Int } ∷ []) (codes "a,z")
        ≡ Err (Status.BadSpec kind.Unknown) }
    ensures none { listed_columns (record { name = codes "a"; ty = Int } ∷ []) (codes "a,")
        ≡ Err (Status.BadSpec kind.Unknown) }
    ensures repeated { listed_columns (record { name = codes "a"; ty = Int } ∷ []) (codes "a,A,z")
        ≡ Err (Status.BadSpec kind.Repeated) }
    ensures text { listed_columns (record { name = codes "a"; ty = Int } ∷ record { name = codes "b"; ty = Text } ∷ [])
        (codes "b,a,a")
        ≡ Err (Status.BadSpec kind.WrongType) }

    // A list is taken exactly where each piece names a column that can have an index, and none twice.
    ensures found { (schema : List Column) (list : List ℕ) (cols : List ℕ) → IsSchema schema
        → listed_columns schema list ≡ Ok cols → Lists schema list cols }
    ensures only { (schema : List Column) (list : List ℕ) (cols : List ℕ) → IsSchema schema
        → Lists schema list cols → listed_columns schema list ≡ Ok cols }
{}

/// Which indexes it builds: part by part, and in each part column by column.
pub fn the_indexes_of_a_request()
    ensures { map (λ task. Builds (codes "D") task.number task.col
        (record { binning = binning.Each; encoding = encoding.Equality }))
        (tasks_in (record { binning = binning.Each; encoding = encoding.Equality })
        (record { name = codes "a"; ty = Int } ∷ record { name = codes "b"; ty = Long } ∷ []) (1 ∷ 0 ∷ [])
        (record { number = 0; records = (Whole (pos 5) ∷ Null ∷ []) ∷ []; specs = empty }
        ∷ record { number = 3; records = (Whole (pos 7) ∷ Whole (pos 8) ∷ []) ∷ []; specs = empty } ∷ []))
        ≡ Builds (codes "D") 0 1 (record { binning = binning.Each; encoding = encoding.Equality })
        ∷ Builds (codes "D") 0 0 (record { binning = binning.Each; encoding = encoding.Equality })
        ∷ Builds (codes "D") 3 1 (record { binning = binning.Each; encoding = encoding.Equality })
        ∷ Builds (codes "D") 3 0 (record { binning = binning.Each; encoding = encoding.Equality }) ∷ [] }
{}

/// How it ends: done with all of them, or refused at the first that can't be built, with those before it.
pub fn the_end_of_a_request()
    ensures done { (dir : List ℕ) (spec : Spec) (tasks : List Task)
        → AllByRecursion (λ task. is_possible spec.encoding task ≡ true) tasks
        → outcome_of_tasks dir spec tasks
        ≡ record { status = Status.Done; text = built_line (length tasks); effects = effects_of dir spec tasks } }
    ensures refused { (dir : List ℕ) (spec : Spec) (front : List Task) (task : Task) (rest : List Task)
        → AllByRecursion (λ task. is_possible spec.encoding task ≡ true) front
        → is_possible spec.encoding task ≡ false
        → outcome_of_tasks dir spec (front ++ task ∷ rest)
        ≡ record {
          status = bins_status spec.encoding task;
          text = line_of (bins_status spec.encoding task);
          effects = effects_of dir spec front;
        } }

    // 1,024 bins are taken, and one more isn't but by a bitmap for each; of a two-level encoding the groups count.
    ensures limit { (number col : ℕ) → is_possible encoding.Range (record { number = number; col = col; bins = 1024 }) ≡ true }
    ensures over { (number col : ℕ) → is_possible encoding.Range (record { number = number; col = col; bins = 1025 }) ≡ false }
    ensures equality { (number col : ℕ)
        → is_possible encoding.Equality (record { number = number; col = col; bins = 1025 }) ≡ true }
    ensures status { (number col : ℕ)
        → line_of (bins_status encoding.Range (record { number = number; col = col; bins = 1025 }))
        ≡ codes "error 9 limit bins 1025 over 1024\n" }
    ensures groups { (number col : ℕ)
        → bins_status (encoding.TwoLevel coarse.Range 2000) (record { number = number; col = col; bins = 3000 })
        ≡ Status.Limit limit.Bins 1500 1024 }
    ensures line { built_line 1 ≡ codes "built 1 indexes\n" }
{}
