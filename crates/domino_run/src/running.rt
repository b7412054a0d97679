//! The whole run.
ghost use Rattle.std.specs.Prelude.{◌≡◌, map, string_bytes, IfOk};
ghost use Rattle.run_ends.specs.Ends.{seen_by};
ghost use Rattle.domino_run.specs.Whole.{bad_session};
ghost use Rattle.domino_run.specs.Words.{Stored, words_of};
ghost use Rattle.domino_run.specs.Parts.{AnswersLines};
ghost use Rattle.domino_run.specs.Theorem.{RunsAs};
ghost use Rattle.domino_run.specs.declared.running.TheConstants.{INPUT_LIMIT};

use crate::machine::{Counters, Database};
use crate::opening::{OpenFault, open};
use crate::summary::summary;
use crate::tally::push_number;
use crate::words::{Words, words_of};
use line_loop::run_lines;
use outside::{Shelf, Sink, Source};
use run_ends::{Outside, Status, say, status_of};
use session::Session;
use std::alloc::{AllocError, Global};
use std::sync::ledger::Ledger;

/// The most bytes that the program takes.
pub const INPUT_LIMIT: u64 = 1_073_741_824;

/// How a run ended, with what was counted.
#[derive(Drop)]
pub struct Ran<L: Ledger, M: Ledger> {
    /// How it ended.
    pub status: Status,
    /// The counters that it was given.
    pub counters: Counters<L, M>,
}

/// The program over an outside: answers the lines of the source, and writes the replies to the sink, under
/// a limit of [`INPUT_LIMIT`] bytes.
pub fn run<S: Source, K: Sink, F: Shelf, L: Ledger, M: Ledger>(
    alloc: Global,
    words: &[String],
    outside: &mut Outside<S, K, F>,
    counters: Counters<L, M>,
) -> Ran<L, M>
    ensures { RunsAs INPUT_LIMIT (words_of (map string_bytes words.now))
        (seen_by S.faults K.faults F.faults S.left K.written F.texts outside.old)
        (seen_by S.faults K.faults F.faults S.left K.written F.texts outside.new)
        counters.reads result.counters.reads result.status }
{
    run_limited(alloc, INPUT_LIMIT, words, outside, counters)
}

/// The program over an outside, under a limit of bytes.
///
/// The words are those of the program, its name first. After it `--gen` and a number of one to nine digits
/// answer the generator's lines instead, tell how many they are, how many were refused, and how many bytes
/// the replies have, with their sum, and read nothing. After `--session` and a name the text of this name is
/// loaded, without replies; where there is none or it is no session, it writes `bad session` with the number
/// of the line of its first fault, or 0. With other words it writes `bad words` and reads nothing.
///
/// Lines end with a line feed, and the last line may lack it. Each
/// line is answered, and its reply written, before the next read, and after a `quit` nothing is read. A read
/// asks for at most [`line_loop::PIECE`] bytes, and for none past the limit but the one that shows that there is another.
pub fn run_limited<S: Source, K: Sink, F: Shelf, L: Ledger, M: Ledger>(
    alloc: Global,
    limit: u64,
    words: &[String],
    outside: &mut Outside<S, K, F>,
    mut counters: Counters<L, M>,
) -> Ran<L, M>
    ensures { RunsAs limit (words_of (map string_bytes words.now))
        (seen_by S.faults K.faults F.faults S.left K.written F.texts outside.old)
        (seen_by S.faults K.faults F.faults S.left K.written F.texts outside.new)
        counters.reads result.counters.reads result.status }
{
    match words_of(words) {
        Words::Bad => Ran {
            status: say(&mut outside.sink, b"bad words\n", Status::BadWords),
            counters,
        },
        Words::Plain => {
            let session = Session::new(alloc);
            answer_lines(limit, alloc, session, outside, counters)
        }
        Words::Generated(number) => match summary(alloc, number, &mut counters) {
            Ok(text) => Ran {
                status: say(&mut outside.sink, &text, Status::Done),
                counters,
            },
            Err(_) => Ran {
                status: Status::NoMemory,
                counters,
            },
        },
        Words::Stored(name) => run_stored(alloc, limit, name, outside, counters),
    }
}

/// Answers the lines of the source from the session on whose text lies under this name.
fn run_stored<S: Source, K: Sink, F: Shelf, L: Ledger, M: Ledger>(
    alloc: Global,
    limit: u64,
    name: &[u8],
    outside: &mut Outside<S, K, F>,
    mut counters: Counters<L, M>,
) -> Ran<L, M>
    ensures { RunsAs limit (Stored name.now)
        (seen_by S.faults K.faults F.faults S.left K.written F.texts outside.old)
        (seen_by S.faults K.faults F.faults S.left K.written F.texts outside.new)
        counters.reads result.counters.reads result.status }
{
    match open(
        alloc,
        name,
        &mut outside.shelf,
        &mut counters.reads,
        &mut counters.probes,
    ) {
        Ok(session) => answer_lines(limit, alloc, session, outside, counters),
        Err(OpenFault::BadSession(number)) => match bad_session(alloc, number) {
            Ok(text) => Ran {
                status: say(&mut outside.sink, &text, Status::BadSession),
                counters,
            },
            Err(_) => Ran {
                status: Status::NoMemory,
                counters,
            },
        },
        Err(OpenFault::ShelfFault) => Ran {
            status: Status::ShelfFault,
            counters,
        },
        Err(OpenFault::NoMemory) => Ran {
            status: Status::NoMemory,
            counters,
        },
    }
}

/// The line that tells of a bad session.
fn bad_session(alloc: Global, number: u64) -> Result<Vec<u8>, AllocError>
    ensures { IfOk result (λ text. text.items ≡ bad_session number) }
{
    let mut text = Vec::new(alloc);
    push_number(&mut text, b"bad session ", u128::from(number))?;
    Ok(text)
}

/// Answers the lines of the source, from a state of the database on.
fn answer_lines<S: Source, K: Sink, F: Shelf, L: Ledger, M: Ledger>(
    limit: u64,
    alloc: Global,
    session: Session,
    outside: &mut Outside<S, K, F>,
    counters: Counters<L, M>,
) -> Ran<L, M>
    ensures { AnswersLines session limit
        (seen_by S.faults K.faults F.faults S.left K.written F.texts outside.old)
        (seen_by S.faults K.faults F.faults S.left K.written F.texts outside.new)
        counters.reads result.counters.reads result.status }
{
    let mut database = Database::new(session, counters);
    let ending = run_lines(
        alloc,
        limit,
        &mut database,
        &mut outside.source,
        &mut outside.sink,
        &mut outside.shelf,
    );
    Ran {
        status: status_of(ending),
        counters: database.into_counters(),
    }
}
