//! The commands, each by the rule of its words.
ghost use Rattle.std.specs.Prelude.{◌≡◌, ◌∷◌, IfOk, IfSome, map, string_bytes};
ghost use Rattle.command_words.specs.Words.{ardea_by, dir_of, file_of, first_task, gen_by, ibis_by, ibis_of, is_one_task, load_of, per_part_of, request_of, schema_of, session_by, skip_of, task_count, task_of};
ghost use Rattle.command_words.specs.Valid.{IsValid, IsValidTask};

use crate::given::{Given, read_given};
use crate::values::{dir, file, label, number, per_part, row_count, skip};
use crate::{Job, Load, Task};
use std::alloc::{AllocError, Global};

/// The request of a command and the words behind it.
#[tactic(auto, unfolding(crate::specs::Words::request_of))]
pub(crate) fn job_of(
    alloc: Global,
    command: &str,
    words: &[String],
) -> Result<Option<Job>, AllocError>
    ensures job { IfOk result (λ found. found ≡ request_of (command.now ∷ map string_bytes words.now)) }
    ensures valid { IfOk result (λ found. IfSome found IsValid) }
{
    if command == "ardea" {
        return ardea(alloc, words);
    }
    if command == "ibis" {
        return ibis(alloc, words);
    }
    if command == "session" {
        return Ok(session(words));
    }
    if command == "gen" {
        return Ok(gen_job(words));
    }
    Ok(None)
}

#[tactic(auto, unfolding(crate::specs::Words::ardea_by))]
fn ardea(alloc: Global, words: &[String]) -> Result<Option<Job>, AllocError>
    ensures job { IfOk result (λ found. found ≡ ardea_by (map string_bytes words.now)) }
    ensures valid { IfOk result (λ found. IfSome found IsValid) }
{
    match read_given(alloc, b"dmtps", b"", words)? {
        Some(given) => load(alloc, &given),
        None => Ok(None),
    }
}

fn load(alloc: Global, given: &Given) -> Result<Option<Job>, AllocError>
    ensures load { IfOk result (λ found. found
        ≡ load_of (dir_of given.now) (schema_of given.now) (file_of given.now) (per_part_of given.now) (skip_of given.now)) }
    ensures valid { IfOk result (λ found. IfSome found IsValid) }
{
    let Some(dir) = dir(alloc, given)? else {
        return Ok(None);
    };
    let Some(schema) = label(alloc, given, b'm')? else {
        return Ok(None);
    };
    let Some(file) = file(alloc, given)? else {
        return Ok(None);
    };
    let Some(per_part) = per_part(given) else {
        return Ok(None);
    };
    let Some(skip) = skip(given) else {
        return Ok(None);
    };
    Ok(Some(Job::Ardea(Load {
        dir,
        schema,
        file,
        per_part,
        skip,
    })))
}

#[tactic(auto, unfolding(crate::specs::Words::ibis_by))]
fn ibis(alloc: Global, words: &[String]) -> Result<Option<Job>, AllocError>
    ensures job { IfOk result (λ found. found ≡ ibis_by (map string_bytes words.now)) }
    ensures valid { IfOk result (λ found. IfSome found IsValid) }
{
    match read_given(alloc, b"dqebk", b"vcl", words)? {
        Some(given) => ask(alloc, &given),
        None => Ok(None),
    }
}

/// A task on a dataset.
fn ask(alloc: Global, given: &Given) -> Result<Option<Job>, AllocError>
    ensures job { IfOk result (λ found. found ≡ ibis_of (dir_of given.now) (task_of given.now)) }
    ensures valid { IfOk result (λ found. IfSome found IsValid) }
{
    let Some(dir) = dir(alloc, given)? else {
        return Ok(None);
    };
    match task(alloc, given)? {
        Some(task) => Ok(Some(Job::Ibis { dir, task })),
        None => Ok(None),
    }
}

#[tactic(auto, unfolding(crate::specs::Words::task_of))]
fn task(alloc: Global, given: &Given) -> Result<Option<Task>, AllocError>
    ensures task { IfOk result (λ found. found ≡ task_of given.now) }
    ensures valid { IfOk result (λ found. IfSome found IsValidTask) }
{
    if is_single(given) {
        chosen(alloc, given)
    } else {
        Ok(None)
    }
}

/// Whether one task is asked for, with nothing that belongs to another.
fn is_single(given: &Given) -> bool
    ensures { result ≡ is_one_task given.now }
{
    let tell_fits = !given.has(b'v') || given.has(b'q');
    let columns_fit = !given.has(b'k') || given.has(b'b');
    tasks(given) == 1 && tell_fits && columns_fit
}

/// How many tasks are asked for.
#[tactic(auto, unfolding(crate::specs::Words::task_count))]
fn tasks(given: &Given) -> usize
    ensures { result ≡ task_count given.now }
{
    b"qebcl".iter().filter(|letter| given.has(**letter)).count()
}

fn chosen(alloc: Global, given: &Given) -> Result<Option<Task>, AllocError>
    ensures task { IfOk result (λ found. found ≡ first_task given.now) }
    ensures valid { IfOk result (λ found. IfSome found IsValidTask) }
{
    if let Some(query) = label(alloc, given, b'q')? {
        let tell = given.has(b'v');
        return Ok(Some(Task::Answer { query, tell }));
    }
    if let Some(query) = label(alloc, given, b'e')? {
        return Ok(Some(Task::Estimate { query }));
    }
    if let Some(spec) = label(alloc, given, b'b')? {
        let columns = label(alloc, given, b'k')?;
        return Ok(Some(Task::Build { spec, columns }));
    }
    if given.has(b'c') {
        return Ok(Some(Task::Check));
    }
    if given.has(b'l') {
        return Ok(Some(Task::List));
    }
    Ok(None)
}

#[tactic(auto, unfolding(crate::specs::Words::session_by))]
fn session(words: &[String]) -> Option<Job>
    ensures job { result ≡ session_by (map string_bytes words.now) }
    ensures valid { IfSome result IsValid }
{
    match words {
        [] => Some(Job::Session),
        _ => None,
    }
}

#[tactic(auto, unfolding(crate::specs::Words::gen_by))]
fn gen_job(words: &[String]) -> Option<Job>
    ensures job { result ≡ gen_by (map string_bytes words.now) }
    ensures valid { IfSome result IsValid }
{
    match words {
        [rows, seed] => {
            let rows = row_count(rows.as_str())?;
            let seed = number(seed.as_str())?;
            Some(Job::Gen { rows, seed })
        }
        _ => None,
    }
}
