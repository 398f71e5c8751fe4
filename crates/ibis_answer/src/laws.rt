//! Laws of answers, each on a function that does nothing.

ghost use Rattle.std.specs.Prelude.{◌≡◌, ◌≤◌, ℕ, List, Ok, codes, false, true};
ghost use Rattle.fb_outside.specs.Files.{Files};
ghost use Rattle.stages.specs.declared.walk.Bounds.{Bounds};
ghost use Rattle.world.specs.Stands.{Stands};
ghost use Rattle.world.specs.World.{World};
ghost use Rattle.ibis_answer.specs.Answer.{answer_text, asked_in, between_in, between_line, counted_in};
ghost use Rattle.ibis_answer.specs.declared.answering.Counted.{Counted};

use query_engine::estimates_enclose_hits;

/// The two numbers of an estimate enclose the hits of the same query in the same world.
pub fn an_estimate_encloses_its_answer()
    ensures { (files : Files) (world : World) (dir query : List ℕ) (counted : Counted) (bounds : Bounds)
        → Stands files world → asked_in counted_in dir query world ≡ Ok counted
        → asked_in between_in dir query world ≡ Ok bounds
        → (bounds.definite ≤ counted.hits) × (counted.hits ≤ bounds.possible) }
{
    estimates_enclose_hits();
}

/// The lines that are told of the numbers.
pub fn the_texts_of_answers()
    ensures hits { answer_text false (record { hits = 5; checked = 3 }) ≡ codes "hits 5\n" }
    ensures checked { answer_text true (record { hits = 5; checked = 3 }) ≡ codes "hits 5\nchecked 3\n" }
    ensures between { between_line (record { definite = 4; possible = 7 }) ≡ codes "between 4 and 7\n" }
{}
