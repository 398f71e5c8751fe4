//! Rows of words, computed from the definitions.
ghost use Rattle.std.specs.Prelude.{◌≡◌, [], ◌∷◌, true, false, Some, None, codes};
ghost use Rattle.command_words.specs.declared.Job.TheVariants as job;
ghost use Rattle.command_words.specs.declared.Task.TheVariants as task;
ghost use Rattle.command_words.specs.Lines.{words_of};
ghost use Rattle.command_words.specs.Words.{request_of};

/// A load with its options in any order, with what stands where options are left out; and lists that are none.
pub fn the_words_of_loads()
    ensures short { request_of (codes "ardea" ∷ codes "-d" ∷ codes "t" ∷ codes "-m" ∷ codes "a:int" ∷ [])
        ≡ Some (job.Ardea (record { dir = codes "t"; schema = codes "a:int"; file = None; per_part = 1000000; skip = 0 })) }
    ensures long { request_of (codes "ardea" ∷ codes "-s" ∷ codes "1" ∷ codes "-t" ∷ codes "w.csv" ∷ codes "-p" ∷ codes "020" ∷ codes "-m"
        ∷ codes "-d" ∷ codes "-d" ∷ codes "t" ∷ [])
        ≡ Some (job.Ardea (record { dir = codes "t"; schema = codes "-d"; file = Some (codes "w.csv"); per_part = 20; skip = 1 })) }
    ensures no_rows { request_of (codes "ardea" ∷ codes "-d" ∷ codes "t" ∷ codes "-m" ∷ [] ∷ codes "-p" ∷ codes "0" ∷ []) ≡ None }
    ensures digits { request_of (codes "ardea" ∷ codes "-d" ∷ codes "t" ∷ codes "-m" ∷ [] ∷ codes "-s" ∷ codes "0000000000000000000" ∷ []) ≡ None }
    ensures file { request_of (codes "ardea" ∷ codes "-d" ∷ codes "t" ∷ codes "-m" ∷ [] ∷ codes "-t" ∷ codes "w.cs" ∷ []) ≡ None }
    ensures value { request_of (codes "ardea" ∷ codes "-d" ∷ codes "t" ∷ codes "-m" ∷ []) ≡ None }
    ensures schema { request_of (codes "ardea" ∷ codes "-d" ∷ codes "t" ∷ []) ≡ None }
{}

/// Tasks on a dataset, and lists that are none.
pub fn the_words_of_tasks()
    ensures told { request_of (codes "ibis" ∷ codes "-d" ∷ codes "D" ∷ codes "-q" ∷ codes "where a < 5" ∷ codes "-v" ∷ [])
        ≡ Some (job.Ibis (codes "D") (task.Answer (codes "where a < 5") true)) }
    ensures value { request_of (codes "ibis" ∷ codes "-d" ∷ codes "-q" ∷ codes "-q" ∷ codes "x" ∷ [])
        ≡ Some (job.Ibis (codes "-q") (task.Answer (codes "x") false)) }
    ensures list { request_of (codes "ibis" ∷ codes "-l" ∷ codes "-d" ∷ codes "D" ∷ []) ≡ Some (job.Ibis (codes "D") task.List) }
    ensures build { request_of (codes "ibis" ∷ codes "-k" ∷ codes "a" ∷ codes "-d" ∷ codes "D" ∷ codes "-b" ∷ codes "-k" ∷ [])
        ≡ Some (job.Ibis (codes "D") (task.Build (codes "-k") (Some (codes "a")))) }
    ensures twice { request_of (codes "ibis" ∷ codes "-d" ∷ codes "D" ∷ codes "-d" ∷ codes "D" ∷ codes "-l" ∷ []) ≡ None }
    ensures joined { request_of (codes "ibis" ∷ codes "-dD" ∷ codes "-l" ∷ []) ≡ None }
    ensures no_task { request_of (codes "ibis" ∷ codes "-d" ∷ codes "D" ∷ []) ≡ None }
    ensures two_tasks { request_of (codes "ibis" ∷ codes "-d" ∷ codes "D" ∷ codes "-q" ∷ [] ∷ codes "-e" ∷ [] ∷ []) ≡ None }
    ensures untold { request_of (codes "ibis" ∷ codes "-d" ∷ codes "D" ∷ codes "-l" ∷ codes "-v" ∷ []) ≡ None }
{}

/// The other commands.
pub fn the_words_of_others()
    ensures session { request_of (codes "session" ∷ []) ≡ Some job.Session }
    ensures longer { request_of (codes "session" ∷ codes "x" ∷ []) ≡ None }
    ensures made { request_of (codes "gen" ∷ codes "2000" ∷ codes "007" ∷ []) ≡ Some (job.Gen 2000 7) }
    ensures no_rows { request_of (codes "gen" ∷ codes "0" ∷ codes "7" ∷ []) ≡ None }
    ensures many { request_of (codes "gen" ∷ codes "1000001" ∷ codes "7" ∷ []) ≡ None }
    ensures none { request_of [] ≡ None }
    ensures other { request_of (codes "Gen" ∷ codes "1" ∷ codes "1" ∷ []) ≡ None }
{}

/// Lines of a session.
pub fn the_words_of_lines()
    ensures quoted { words_of (codes "ibis -q 'where a >= 5' -v\r") ≡ Some (codes "ibis" ∷ codes "-q" ∷ codes "where a >= 5" ∷ codes "-v" ∷ []) }
    ensures touching { words_of (codes "\ta'b c''d'e  ''") ≡ Some (codes "ab cde" ∷ [] ∷ []) }
    ensures blank { words_of (codes " \t\r") ≡ Some [] }
    ensures comment { words_of (codes "  # it's") ≡ Some [] }
    ensures unclosed { words_of (codes "a 'b") ≡ None }
    ensures bytes { words_of (97 ∷ 255 ∷ []) ≡ None }
{}
