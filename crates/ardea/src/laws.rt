//! What a load comes to where the files stand for a world: a law, on a function that does nothing.

ghost use Rattle.std.specs.Prelude.{◌≡◌, ◌⊎◌, ℕ, List, Option, Some, Result};
ghost use Rattle.std.specs.FinMap.{get};
ghost use Rattle.fb_outside.specs.Files.{ChangesAmong, Files};
ghost use Rattle.fb_types.specs.Table.{Table};
ghost use Rattle.part_meta.specs.FileNames.{IsFileOf};
ghost use Rattle.world.specs.Effects.{Loads, after_one};
ghost use Rattle.world.specs.Stands.{Stands, StandsFor};
ghost use Rattle.world.specs.World.{World};
ghost use Rattle.dataset.specs.Found.{found_in};
ghost use Rattle.command_words.specs.Valid.{IsValidLoad};
ghost use Rattle.command_words.specs.declared.Load.{Load};
ghost use Rattle.statuses.specs.declared.Status.{Status};
ghost use Rattle.statuses.specs.declared.stop.Stop.{Stop};
ghost use Rattle.ardea.specs.Done.{Ends, IsCut, IsDone};
ghost use Rattle.ardea.specs.Load.{Gives, load_result, reading_of};

/// The answer is that of the definition in the world. A load that is done leaves files that stand for the world after
/// its effect, and one that is cut for the world before or after it. Over all files, only those of the load's path change.
pub fn the_load_in_a_world()
    ensures answer { (load : Load) (left : Option (List ℕ)) (files : Files) (world : World) (result : Result Table Status)
        → IsValidLoad load → Stands files world → (given : Gives load left (Some files) result)
        → result ≡ load_result load given.situation.input (λ name. reading_of (get world.inputs name)) (found_in world load.dir) }
    ensures done { (load : Load) (left : Option (List ℕ)) (files : Files) (new : Option Files) (world : World) (count : ℕ)
        → IsValidLoad load → Stands files world → (done : IsDone load left (Some files) new count)
        → StandsFor new (after_one world (Loads load.dir done.table.schema load.per_part done.table.records)) }
    ensures cut { (load : Load) (left : Option (List ℕ)) (files : Files) (new : Option Files) (world : World)
        → IsValidLoad load → Stands files world → (cut : IsCut load left (Some files) new)
        → StandsFor new world
        ⊎ StandsFor new (after_one world (Loads load.dir cut.table.schema load.per_part cut.table.records)) }
    ensures kept { (load : Load) (left : Option (List ℕ)) (old new : Option Files) (result : Result ℕ Stop)
        → Ends load left old new result → ChangesAmong (IsFileOf load.dir) old new }
{}
