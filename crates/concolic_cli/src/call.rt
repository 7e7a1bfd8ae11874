//! The one call that does all that the program does.

ghost use Rattle.std.specs.Prelude.{◌≡◌, ℕ, ◌<◌, ◌≤◌, ◌+◌, ◌⊎◌, ◌↔◌, ◌++◌, ◌∷◌, List, []};
ghost use Rattle.std.specs.Prelude.{length, codes, Option, Some, None};
ghost use Rattle.cc_base.specs.declared.inputs.Input.{Input};
ghost use Rattle.cc_base.specs.Paths.{Path, In};
ghost use Rattle.cc_model.specs.declared.commands.RunWords.{RunWords};
ghost use Rattle.cc_model.specs.declared.commands.Strategy.TheVariants.{Dfs};
ghost use Rattle.cc_model.specs.declared.commands.TraceWords.{TraceWords};
ghost use Rattle.cc_model.specs.declared.commands.ReplayWords.{ReplayWords};
ghost use Rattle.replay.specs.Files.{IsRefusedAt};
ghost use Rattle.cc_model.specs.declared.commands.Command.TheVariants.{Run, Trace, Replay, Make};
ghost use Rattle.cc_model.specs.Core.{Program};
ghost use Rattle.cc_model.specs.Report.{newline};
ghost use Rattle.cc_model.specs.Runs.{IsInput};
ghost use Rattle.cc_model.specs.Source.{IsProgram};
ghost use Rattle.cc_outside.specs.Faults.{Rose};
ghost use Rattle.cc_outside.specs.Held.{Held, file_of};
ghost use Rattle.input_map.specs.Maps.{IsMap};
ghost use Rattle.input_map.specs.CellFaults.{Refused};
ghost use Rattle.input_map.specs.declared.faults.MapFault.{MapFault};
ghost use Rattle.concolic_cli.specs.Concolic.{HasNoCommand, IsSource, IsSourceOf, HoldsFile, HoldsSome, Headline};
ghost use Rattle.concolic_cli.specs.Concolic.{NothingMissedBut, PartStands, SourceIsRefused, MadeIsRefused};
ghost use Rattle.concolic_cli.specs.Concolic.{FileIsRefused, IsRefusal, TestsUnread, Answered};
ghost use Rattle.search_dfs.specs.Missed.{IsEasy, HoldsPaths, room};
ghost use Rattle.concolic_cli.specs.Made.{made_source, made_entry};
ghost use Rattle.concolic_cli.specs.Refusals.{bad_word_text, Says};
ghost use Rattle.concolic_cli.specs.ReportFiles.{WroteTestsFile, WroteTestFile, WroteWalkFile};
ghost use Rattle.concolic_cli.specs.Session.{Wrote, WroteLast, seen_of};
ghost use Rattle.concolic_cli.specs.Sources.{Refuses};
ghost use Rattle.concolic_cli.specs.Tasks.{Task, Asks, IsAfter, word_of, list_task, walk_task, trace_task, replay_task};
ghost use Rattle.command_words.specs.Words.{texts, Accepted, BadWord};

use crate::answers::{Status, refuse};
use crate::performing::perform;
use c_parse::one_program;
use cc_outside::{Files, Sink};
use command_words::one_command;
use std::alloc::Global;

/// Answers a call.
fn answer<F: Files, K: Sink, E: Sink>(
    alloc: Global,
    words: &[String],
    files: &mut F,
    out: &mut K,
    err: &mut E,
) -> Status
    ensures answered { Answered (record {
      words = texts words.now;
      seen = seen_of F.held F.faults K.written K.faults files.old files.new out.old out.new;
      err_old = E.written err.old;
      err_new = E.written err.new;
      err_faults_old = E.faults err.old;
      err_faults_new = E.faults err.new;
    }) result.0 }
    ensures held { F.held files.new ≡ F.held files.old }
{
    match perform(alloc, words, files, out) {
        Ok(status) => status,
        Err(refused) => refuse(alloc, refused.refusal, refused.named, err),
    }
}

/// Does what the words of the command line ask: reads the file of a source, and either lists the paths of its tested
/// function and writes the report, or walks over the runs of that function and writes the report, or runs it on one
/// input and writes what the run does, or runs it on the inputs of a tests file and writes whether each test is real;
/// or lists the paths of a source that it makes, and writes the last line. Where it refuses, it says why in one line to
/// `err`.
///
/// A walk begins with the run on the base input, and makes at most so many runs. It goes on to the inputs that solves
/// give for alternatives of its runs: `-random` draws one of the alternatives of the current run that are left;
/// `-uniform_random` makes passes over runs and draws at each event with alternatives one of all its outcomes; `-cfg`
/// takes the alternative from which the fewest decisions lead to an outcome of a decision that no run took. The draws
/// come from `-seed`. The report is the line of the bounds, a line for each run as it is made and for each solve that
/// passed its budget, the lines of the terms, and the number of runs with how many outcomes of decisions they took, of
/// how many. A walk claims no completeness.
///
/// The statuses: 0 and 1 a complete listing, a walk or a run, 1 where a listed test, a run of the walk or the run ends
/// as a fault, 0 for `make` and for a replay of real tests; 2 the words are no command; 3 the source, the map or the
/// tests file is refused; 4 a file can't be read; 5 the output failed; 7 want of memory, the one answer that nothing
/// else explains; 8 a test of the file isn't real; 10 and 11 an incomplete listing, 11 where a test or stray run ends
/// as a fault.
pub fn concolic<F: Files, K: Sink, E: Sink>(
    alloc: Global,
    words: &[String],
    files: &mut F,
    out: &mut K,
    err: &mut E,
) -> Status
    // `run` with `-dfs`, 0 and 1: the report of a complete listing was written.
    ensures headline { (run : RunWords) → Accepted (texts words.now) (Run run) → run.strategy ≡ Dfs
        → (result.0 ≡ 0) ⊎ (result.0 ≡ 1)
        → Headline (texts words.now) run (F.held files.old) (K.written out.old) (K.written out.new) result.0 }

    // `run` with `-dfs`, 0, 1, 10 and 11: the report of a listing was written, the status is its verdict, and it misses
    // no more than it says.
    ensures listed { (run : RunWords) (after : Option Path) → Accepted (texts words.now) (Run run) → run.strategy ≡ Dfs
        → IsAfter (texts words.now) run after
        → In result.0 (0 ∷ 1 ∷ 10 ∷ 11 ∷ [])
        → Wrote (F.held files.old) (K.written out.old) (K.written out.new)
        (list_task (texts words.now) run after) result.0 }
    ensures missed { (run : RunWords) → Accepted (texts words.now) (Run run) → run.strategy ≡ Dfs
        → In result.0 (0 ∷ 1 ∷ 10 ∷ 11 ∷ [])
        → NothingMissedBut (texts words.now) run (F.held files.old) (K.written out.old) (K.written out.new) result.0 }

    // `run` with a walk, 0 and 1: the report of the walk was written; 1 where a run ends as a fault.
    ensures walked { (run : RunWords) → Accepted (texts words.now) (Run run) → (run.strategy ≡ Dfs → ⊥)
        → In result.0 (0 ∷ 1 ∷ [])
        → Wrote (F.held files.old) (K.written out.old) (K.written out.new) (walk_task (texts words.now) run) result.0 }

    // `trace`, 0 and 1: the run on the input of the map was written; 1 where it ends as a fault.
    ensures traced { (trace : TraceWords) → Accepted (texts words.now) (Trace trace) → result.0 ≤ 1
        → Wrote (F.held files.old) (K.written out.old) (K.written out.new)
        (trace_task (texts words.now) trace) result.0 }

    // What `run`, with `-dfs` or a walk, and `trace` wrote is a tests file of the program, as it stands.
    ensures run_file { (run : RunWords) → Accepted (texts words.now) (Run run) → run.strategy ≡ Dfs
        → In result.0 (0 ∷ 1 ∷ 10 ∷ 11 ∷ [])
        → WroteTestsFile (texts words.now) (F.held files.old) (K.written out.old) (K.written out.new) run }
    ensures walk_file { (run : RunWords) → Accepted (texts words.now) (Run run) → (run.strategy ≡ Dfs → ⊥)
        → In result.0 (0 ∷ 1 ∷ [])
        → WroteWalkFile (texts words.now) (F.held files.old) (K.written out.old) (K.written out.new) run }
    ensures trace_file { (trace : TraceWords) → Accepted (texts words.now) (Trace trace) → result.0 ≤ 1
        → WroteTestFile (texts words.now) (F.held files.old) (K.written out.old) (K.written out.new) trace }

    // `replay`, 0 and 8: whether each test of the file is real was written, or which is the first that isn't.
    ensures replayed { (replay : ReplayWords) → Accepted (texts words.now) (Replay replay) → In result.0 (0 ∷ 8 ∷ [])
        → Wrote (F.held files.old) (K.written out.old) (K.written out.new)
        (replay_task (texts words.now) replay) result.0 }

    // `make`, 0: the last line of a listing of the made source was written.
    ensures made { (n : ℕ) → Accepted (texts words.now) (Make n) → result.0 ≡ 0
        → WroteLast n (K.written out.old) (K.written out.new) }
    ensures quiet { In result.0 (0 ∷ 1 ∷ 8 ∷ 10 ∷ 11 ∷ []) → E.written err.new ≡ E.written err.old }

    // They come where nothing is refused and nothing fails, unless memory is wanting.
    ensures answers_run { (run : RunWords) (after : Option Path) (bytes : List ℕ) (p : Program)
        → Accepted (texts words.now) (Run run)
        → run.strategy ≡ Dfs → IsAfter (texts words.now) run after
        → IsSource (list_task (texts words.now) run after) (F.held files.old) bytes
        → IsProgram bytes (word_of (texts words.now) run.entry) p
        → (Rose (F.faults files.old) (F.faults files.new) → ⊥) → (Rose (K.faults out.old) (K.faults out.new) → ⊥)
        → In result.0 (0 ∷ 1 ∷ 7 ∷ 10 ∷ 11 ∷ []) }
    ensures answers_walk { (run : RunWords) (bytes : List ℕ) (p : Program) → Accepted (texts words.now) (Run run)
        → (run.strategy ≡ Dfs → ⊥) → IsSource (walk_task (texts words.now) run) (F.held files.old) bytes
        → IsProgram bytes (word_of (texts words.now) run.entry) p
        → (Rose (F.faults files.old) (F.faults files.new) → ⊥) → (Rose (K.faults out.old) (K.faults out.new) → ⊥)
        → In result.0 (0 ∷ 1 ∷ 7 ∷ []) }
    ensures complete_trace { (trace : TraceWords) (bytes : List ℕ) (h : Input)
        → Accepted (texts words.now) (Trace trace)
        → IsSource (trace_task (texts words.now) trace) (F.held files.old) bytes
        → IsMap (word_of (texts words.now) trace.map) h
        → IsSourceOf bytes (word_of (texts words.now) trace.entry) (λ p. IsInput p trace.bounds h)
        → (Rose (F.faults files.old) (F.faults files.new) → ⊥) → (Rose (K.faults out.old) (K.faults out.new) → ⊥)
        → In result.0 (0 ∷ 1 ∷ 7 ∷ []) }
    ensures answers_replay { (replay : ReplayWords) (bytes file : List ℕ) → Accepted (texts words.now) (Replay replay)
        → IsSource (replay_task (texts words.now) replay) (F.held files.old) bytes
        → HoldsFile (F.held files.old) (word_of (texts words.now) replay.tests) file
        → IsSourceOf bytes (word_of (texts words.now) replay.entry) (λ p. HoldsSome p file)
        → (Rose (F.faults files.old) (F.faults files.new) → ⊥) → (Rose (K.faults out.old) (K.faults out.new) → ⊥)
        → In result.0 (0 ∷ 7 ∷ 8 ∷ []) }
    ensures answers_make { (n : ℕ) → Accepted (texts words.now) (Make n)
        → (Rose (K.faults out.old) (K.faults out.new) → ⊥) → In result.0 (0 ∷ 3 ∷ 7 ∷ []) }

    // The listing of an easy program is complete where there are runs for each path, or with `-after` for each path
    // above that path and one more than its length.
    ensures complete { (run : RunWords) (after : Option Path) (bytes : List ℕ) (paths : List Path)
        → Accepted (texts words.now) (Run run)
        → run.strategy ≡ Dfs → IsAfter (texts words.now) run after
        → IsSource (list_task (texts words.now) run after) (F.held files.old) bytes
        → IsSourceOf bytes (word_of (texts words.now) run.entry)
        (λ p. IsEasy p run.bounds run.budget × HoldsPaths p run.bounds after paths)
        → length paths + room after ≤ run.runs
        → (Rose (F.faults files.old) (F.faults files.new) → ⊥) → (Rose (K.faults out.old) (K.faults out.new) → ⊥)
        → (result.0 ≡ 7) ⊎ Headline (texts words.now) run (F.held files.old) (K.written out.old)
        (K.written out.new) result.0 }

    // 2: exactly where the words are no command; the bad word is named.
    ensures bad_words { (result.0 ≡ 2) ↔ HasNoCommand (texts words.now) }
    ensures bad_word { result.0 ≡ 2 → (n : ℕ) × BadWord (texts words.now) n
        × Says (E.written err.old) (E.written err.new) (E.faults err.old) (E.faults err.new)
        (bad_word_text n ++ newline) }

    // 3: exactly where the source is refused, or for `trace` the map is, or for `replay` the tests file; the text is
    // that of the first of these.
    ensures source_refused { result.0 ≡ 3
        → SourceIsRefused (texts words.now) (F.held files.old) (E.written err.old) (E.written err.new)
        (E.faults err.old) (E.faults err.new)
        ⊎ MadeIsRefused (texts words.now) (E.written err.old) (E.written err.new) (E.faults err.old)
        (E.faults err.new) }
    ensures refused_source { (task : Task) (bytes text : List ℕ) → Asks (texts words.now) task
        → IsSource task (F.held files.old) bytes
        → Refuses bytes task.entry text → IsRefusal (F.faults files.old) (F.faults files.new) result.0 }
    ensures refused_map { (trace : TraceWords) (bytes : List ℕ) (f : MapFault)
        → Accepted (texts words.now) (Trace trace)
        → IsSource (trace_task (texts words.now) trace) (F.held files.old) bytes
        → IsSourceOf bytes (word_of (texts words.now) trace.entry)
        (λ p. Refused p trace.bounds (word_of (texts words.now) trace.map) f)
        → IsRefusal (F.faults files.old) (F.faults files.new) result.0 }
    ensures refused_tests { (replay : ReplayWords) (bytes file : List ℕ) (line : ℕ)
        → Accepted (texts words.now) (Replay replay)
        → IsSource (replay_task (texts words.now) replay) (F.held files.old) bytes
        → HoldsFile (F.held files.old) (word_of (texts words.now) replay.tests) file
        → IsSourceOf bytes (word_of (texts words.now) replay.entry) (λ p. IsRefusedAt p file line)
        → IsRefusal (F.faults files.old) (F.faults files.new) result.0 }
    ensures refused_make { (n : ℕ) (text : List ℕ) → Accepted (texts words.now) (Make n)
        → Refuses (made_source n) made_entry text
        → (result.0 ≡ 3) ⊎ (result.0 ≡ 7) }

    // 4: each text by its cause; where the files are told, exactly where there is no such file or it is too long.
    ensures file_refused { result.0 ≡ 4
        → FileIsRefused (texts words.now) (F.held files.old) (F.faults files.old) (F.faults files.new)
        (E.written err.old) (E.written err.new) (E.faults err.old) (E.faults err.new) }
    ensures missing_file { (task : Task) (h : Held) → Asks (texts words.now) task → F.held files.old ≡ Some h
        → file_of task.file h ≡ None → (result.0 ≡ 4) ⊎ (result.0 ≡ 7) }
    ensures too_long_file { (task : Task) (h : Held) (bytes : List ℕ) → Asks (texts words.now) task
        → F.held files.old ≡ Some h
        → file_of task.file h ≡ Some bytes → 1048576 < length bytes → (result.0 ≡ 4) ⊎ (result.0 ≡ 7) }

    // So it is with the tests file of `replay`; but the source comes first, with 3 where it is refused.
    ensures missing_tests { (replay : ReplayWords) (h : Held) → Accepted (texts words.now) (Replay replay)
        → F.held files.old ≡ Some h → file_of (word_of (texts words.now) replay.tests) h ≡ None
        → TestsUnread (replay_task (texts words.now) replay) (F.held files.old) result.0 }
    ensures too_long_tests { (replay : ReplayWords) (h : Held) (file : List ℕ)
        → Accepted (texts words.now) (Replay replay)
        → F.held files.old ≡ Some h → file_of (word_of (texts words.now) replay.tests) h ≡ Some file
        → 16777216 < length file
        → TestsUnread (replay_task (texts words.now) replay) (F.held files.old) result.0 }

    // 5: only where the output failed in this call. 7: want of memory. A first part of what is written stands.
    ensures output_failed { result.0 ≡ 5 → Rose (K.faults out.old) (K.faults out.new)
        × Says (E.written err.old) (E.written err.new) (E.faults err.old) (E.faults err.new)
        (codes "output failed" ++ newline) }
    ensures no_memory { result.0 ≡ 7
        → Says (E.written err.old) (E.written err.new) (E.faults err.old) (E.faults err.new)
        (codes "no memory" ++ newline) }
    ensures stands { (result.0 ≡ 5) ⊎ (result.0 ≡ 7)
        → PartStands (texts words.now) (F.held files.old) (K.written out.old) (K.written out.new) }
    ensures silent { 2 ≤ result.0 → result.0 ≤ 4 → K.written out.new ≡ K.written out.old }

    // No other status comes, 1 for `run` and `trace` alone, 8 for `replay`, and 10 and 11 for `run` with `-dfs`.
    ensures statuses { In result.0 (0 ∷ 1 ∷ 2 ∷ 3 ∷ 4 ∷ 5 ∷ 7 ∷ 8 ∷ 10 ∷ 11 ∷ []) }
    ensures fault_alone { result.0 ≡ 1 → ((run : RunWords) × Accepted (texts words.now) (Run run))
        ⊎ ((trace : TraceWords) × Accepted (texts words.now) (Trace trace)) }
    ensures replay_alone { result.0 ≡ 8 → (replay : ReplayWords) × Accepted (texts words.now) (Replay replay) }
    ensures run_alone { 10 ≤ result.0 → (run : RunWords) × Accepted (texts words.now) (Run run) × (run.strategy ≡ Dfs) }

    // A call leaves the files as they were.
    ensures held { F.held files.new ≡ F.held files.old }
{
    one_program();
    one_command();
    answer(alloc, words, files, out, err)
}
