//! Sessions: commands in the lines of an input.

ghost use Rattle.std.specs.Prelude.{◌≡◌, ◌≢◌, ◌∷◌, ◌+◌, ◌^◌, ◌<◌, ◌≤◌, false, length, IfSome};
ghost use Rattle.std.specs.List.{prefix_len};
ghost use Rattle.fb_outside.specs.Causes.{HasCause};
ghost use Rattle.fb_outside.specs.Files.{ChangesAmong, SameFiles};
ghost use Rattle.fb_outside.specs.Streams.{ForSomeInput, IsAtEnd};
ghost use Rattle.world.specs.World.{World};
ghost use Rattle.world.specs.Stands.{StandsFor};
ghost use Rattle.command_words.specs.Valid.{IsValid};
ghost use Rattle.commands.specs.Causes.{HasCauseIn};
ghost use Rattle.commands.specs.Command.{command_of};
ghost use Rattle.commands.specs.Effects.{LeavesAfter};
ghost use Rattle.commands.specs.Reply.{Replies, is_fault as ends_it};
ghost use Rattle.fastbit_tool.specs.Requests.{SessionComesTo, SessionRuns, IsOfAsked, OfSession};
ghost use Rattle.fastbit_tool.specs.Session.{CommandRuns, LineRuns, LinesRun, in_session as allowed, is_plain, lines_from, lines_of, outside, session_outcome};

use command_words::{Job, line_words, request};
use commands::{refuse, run_command};
use csv_load::{InputFault, read_input};
use fb_outside::{Sink, Source, Store};
use statuses::{LimitKind, Status};
use std::alloc::Global;
use std::sync::ledger::Ledger;
use steps::Steps;

/// The most bytes of a session.
pub const MOST_SESSION_BYTES: u64 = 16_777_216;

/// Runs the commands that stand in the lines of `input`, one after another: loads of files, and what is asked of
/// datasets. A refusal prints its line and the session goes on; a fault ends it.
pub fn session<I: Source, S: Store, K: Sink, L: Ledger>(
    alloc: Global,
    input: &mut I,
    store: &mut S,
    out: &mut K,
    steps: &mut Steps<L>,
) -> Status
    // Where the files stand for a world, what is printed are the lines' replies, each in the world that the lines before
    // it leave, and the files stand for the world after the effects of all.
    ensures reply { ForSomeInput (I.left input.old) (λ bytes. (world : World) → StandsFor (S.files store.old) world
        → Replies (session_outcome bytes world) result (K.written out.old) (K.written out.new)) }
    ensures effects { ForSomeInput (I.left input.old) (λ bytes. (world : World) → StandsFor (S.files store.old) world
        → LeavesAfter (session_outcome bytes world).effects world result (S.files store.new)) }
    ensures end { result ≡ Status.Done → IsAtEnd (I.left input.new) }

    // Over every store: only files of datasets that its lines name change, and none where it is refused for its length.
    ensures kept { ForSomeInput (I.left input.old)
        (λ bytes. ChangesAmong (IsOfAsked OfSession bytes) (S.files store.old) (S.files store.new)) }
    ensures refused { ends_it result ≡ false → result ≢ Status.Done → SameFiles (S.files store.old) (S.files store.new) }

    // It is refused exactly where the input is too long, and else its lines ran, each by the clauses of its command.
    ensures causes { HasCauseIn (SessionComesTo (I.left input.old)) result }
    ensures ran { SessionRuns (I.left input.old) (I.left input.new)
        (outside (S.files store.old) (S.reads store.old) (K.written out.old) steps.old)
        (outside (S.files store.new) (S.reads store.new) (K.written out.new) steps.new) result }

    // A failure of the outside is told, as such and only then.
    ensures read_cause { HasCause (I.faults input.old) (I.faults input.new) (result ≡ Status.ReadFault) }
    ensures store_cause { HasCause (S.faults store.old) (S.faults store.new) (result ≡ Status.StoreFault) }
    ensures print_cause { HasCause (K.faults out.old) (K.faults out.new) (result ≡ Status.SinkFault) }
{
    run_session(alloc, input, store, out, steps)
}

fn run_session<I: Source, S: Store, K: Sink, L: Ledger>(
    alloc: Global,
    input: &mut I,
    store: &mut S,
    out: &mut K,
    steps: &mut Steps<L>,
) -> Status
    ensures ran { SessionRuns (I.left input.old) (I.left input.new)
        (outside (S.files store.old) (S.reads store.old) (K.written out.old) steps.old)
        (outside (S.files store.new) (S.reads store.new) (K.written out.new) steps.new) result }
    ensures end { result ≡ Status.Done → IsAtEnd (I.left input.new) }
    ensures read_cause { HasCause (I.faults input.old) (I.faults input.new) (result ≡ Status.ReadFault) }
    ensures store_cause { HasCause (S.faults store.old) (S.faults store.new) (result ≡ Status.StoreFault) }
    ensures print_cause { HasCause (K.faults out.old) (K.faults out.new) (result ≡ Status.SinkFault) }
{
    match read_input(alloc, input, MOST_SESSION_BYTES) {
        Ok(bytes) => run_lines(alloc, &bytes, input, store, out, steps),
        Err(InputFault::TooLong { limit }) => refuse(alloc, out, too_long(limit)),
        Err(InputFault::ReadFault) => Status::ReadFault,
        Err(InputFault::OutOfMemory) => Status::OutOfMemory,
    }
}

/// The refusal of a session that is longer than the limit, by a byte at least.
fn too_long(limit: u64) -> Status
    requires { limit < 2 ^ 63 }
    ensures { result ≡ Status.Limit LimitKind.Session (limit + 1) limit }
{
    Status::Limit {
        what: LimitKind::Session,
        number: limit + 1,
        limit,
    }
}

/// Runs the lines one after another.
#[tactic(auto, using(crate::proofs::RunLinesLemmas::run_goes, crate::proofs::RunLinesLemmas::run_stops, crate::proofs::RunLinesLemmas::run_none))]
fn run_lines<I: Source, S: Store, K: Sink, L: Ledger>(
    alloc: Global,
    text: &[u8],
    input: &mut I,
    store: &mut S,
    out: &mut K,
    steps: &mut Steps<L>,
) -> Status
    ensures runs { LinesRun (lines_of text.now) (I.left input.old)
        (outside (S.files store.old) (S.reads store.old) (K.written out.old) steps.old)
        (outside (S.files store.new) (S.reads store.new) (K.written out.new) steps.new) result }
    ensures untouched { (I.left input.new ≡ I.left input.old) × (I.faults input.new ≡ I.faults input.old) }
    ensures store_cause { HasCause (S.faults store.old) (S.faults store.new) (result ≡ Status.StoreFault) }
    ensures print_cause { HasCause (K.faults out.old) (K.faults out.new) (result ≡ Status.SinkFault) }
{
    let mut at = 0;
    while at <= text.len() {
        let line = line_at(text, at);
        let status = run_line(alloc, line, input, store, out, steps);
        if is_fault(&status) {
            return status;
        }
        at += line.len() + 1;
    }
    Status::Done
}

/// How many bytes stand before the first line feed.
fn line_len(text: &[u8]) -> usize
    ensures value { result ≡ prefix_len is_plain text.now }
    ensures within { result ≤ length text.now }
{
    text.iter().take_while(|b| **b != b'\n').count()
}

/// The line that begins at a place, up to its line feed or to the end.
#[tactic(auto, using(crate::proofs::CutLemmas::line_cut, crate::proofs::CutLemmas::line_within))]
fn line_at(text: &[u8], at: usize) -> &[u8]
    requires { at ≤ length text.now }
    ensures first { lines_from text.now at ≡ result.now ∷ lines_from text.now (at + length result.now + 1) }
    ensures within { at + length result.now ≤ length text.now }
{
    let (_, rest) = text.split_at(at);
    rest.split_at(line_len(rest)).0
}

fn is_fault(status: &Status) -> bool
    ensures { result ≡ ends_it status.now }
{
    matches!(
        status,
        Status::ReadFault | Status::StoreFault | Status::SinkFault | Status::OutOfMemory
    )
}

/// Runs one line: the command that its words spell, a refusal where they spell none, nothing where it is skipped.
#[tactic(auto, using(crate::proofs::RequestLemmas::quiet_line))]
fn run_line<I: Source, S: Store, K: Sink, L: Ledger>(
    alloc: Global,
    line: &[u8],
    input: &mut I,
    store: &mut S,
    out: &mut K,
    steps: &mut Steps<L>,
) -> Status
    ensures runs { LineRuns line.now (I.left input.old)
        (outside (S.files store.old) (S.reads store.old) (K.written out.old) steps.old)
        (outside (S.files store.new) (S.reads store.new) (K.written out.new) steps.new) result }
    ensures untouched { (I.left input.new ≡ I.left input.old) × (I.faults input.new ≡ I.faults input.old) }
    ensures store_cause { HasCause (S.faults store.old) (S.faults store.new) (result ≡ Status.StoreFault) }
    ensures print_cause { HasCause (K.faults out.old) (K.faults out.new) (result ≡ Status.SinkFault) }
{
    let words = match line_words(alloc, line) {
        Ok(Some(words)) => words,
        Ok(None) => return run_asked(alloc, None, input, store, out, steps),
        Err(_) => return Status::OutOfMemory,
    };
    if words.is_empty() {
        return Status::Done;
    }
    match request(alloc, &words) {
        Ok(job) => run_asked(alloc, in_session(job), input, store, out, steps),
        Err(_) => Status::OutOfMemory,
    }
}

/// What a session's line may ask for: a load of a file, and each task on a dataset.
fn in_session(job: Option<Job>) -> Option<Job>
    ensures { result ≡ allowed job }
{
    match job {
        Some(Job::Ardea(load)) => {
            if load.file.is_some() {
                Some(Job::Ardea(load))
            } else {
                None
            }
        }
        Some(Job::Ibis { dir, task }) => Some(Job::Ibis { dir, task }),
        Some(Job::Session) => None,
        Some(Job::Gen { .. }) => None,
        None => None,
    }
}

/// Runs a command of a session, which takes nothing from the input.
fn run_asked<I: Source, S: Store, K: Sink, L: Ledger>(
    alloc: Global,
    asked: Option<Job>,
    input: &mut I,
    store: &mut S,
    out: &mut K,
    steps: &mut Steps<L>,
) -> Status
    requires valid { IfSome asked IsValid }
    requires allowed { allowed asked ≡ asked }
    ensures runs { CommandRuns (command_of asked) (I.left input.old)
        (outside (S.files store.old) (S.reads store.old) (K.written out.old) steps.old)
        (outside (S.files store.new) (S.reads store.new) (K.written out.new) steps.new) result }
    ensures untouched { (I.left input.new ≡ I.left input.old) × (I.faults input.new ≡ I.faults input.old) }
    ensures store_cause { HasCause (S.faults store.old) (S.faults store.new) (result ≡ Status.StoreFault) }
    ensures print_cause { HasCause (K.faults out.old) (K.faults out.new) (result ≡ Status.SinkFault) }
{
    run_command(alloc, &asked, input, store, out, steps)
}
