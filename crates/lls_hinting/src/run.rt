// The program: from words to a status.
ghost use Rattle.std.specs.Prelude.{◌≡◌, ◌≢◌, ◌⊎◌, Ok, IsErr, map, string_bytes};
ghost use Rattle.lls_base.specs.Shelf.{known_files};
ghost use Rattle.lls_hinting.specs.Ends.{HasCause, HasFault, HasNoFault, IsAnswered, IsComplete, IsContent, IsRefused, IsSilent, KeepsOthers, LeavesHints, OfRequest};
ghost use Rattle.lls_outside.specs.Moment.{sink_at};
ghost use Rattle.lls_hinting.specs.Words.{request_in};

use crate::deliver::{give_hints, give_text, refuse, refuse_words};
use crate::outcome::{Outcome, outcome_of};
use crate::request::{Request, read_request};
use crate::status::Status;
use lls_base::{Shelf, Sink};
use std::alloc::Global;

// Does what a request asks.
fn run_request<S: Shelf, O: Sink, E: Sink>(
    alloc: Global,
    request: &Request,
    shelf: &mut S,
    out: &mut O,
    err: &mut E,
) -> Status
    ensures done { result ≡ Status.Done → LeavesHints (sink_at O.Sink out.old) (sink_at O.Sink out.new) (Ok request.now) (known_files (S.told shelf.old)) (known_files (S.told shelf.new)) }
    ensures files { result ≢ Status.Done → result ≢ Status.Outside → known_files (S.told shelf.new) ≡ known_files (S.told shelf.old) }
    ensures others { KeepsOthers (Ok request.now) (known_files (S.told shelf.old)) (known_files (S.told shelf.new)) }
    ensures answered { IsAnswered result → OfRequest HasNoFault (Ok request.now) (known_files (S.told shelf.old)) }
    ensures refused { result ≡ Status.Refused → OfRequest (IsRefused (sink_at O.Sink out.old) (sink_at O.Sink out.new)) (Ok request.now) (known_files (S.told shelf.old)) }
    ensures error { IsContent result → OfRequest (HasFault result (sink_at E.Sink err.old) (sink_at E.Sink err.new)) (Ok request.now) (known_files (S.told shelf.old)) }
    ensures outside { result ≡ Status.Outside → HasCause (Ok request.now) (known_files (S.told shelf.old))
        (S.faults shelf.old) (S.faults shelf.new) (O.faults out.old) (O.faults out.new) }
    ensures not_words { result ≢ Status.Words }
    ensures silent { IsSilent result → O.written out.new ≡ O.written out.old }
{
    match outcome_of(alloc, shelf, request) {
        Ok(Outcome::Hinted(hints)) => give_hints(&hints, &request.output, shelf, out, err),
        Ok(Outcome::Refused(text)) => give_text(&text, Status::Refused, out, err),
        Err(fault) => refuse(alloc, fault, err),
    }
}

/// Runs a command line: the words behind the program's name, over files and two sinks.
pub fn run<S: Shelf, O: Sink, E: Sink>(
    alloc: Global,
    words: &[String],
    shelf: &mut S,
    out: &mut O,
    err: &mut E,
) -> Status
    // A proof with hints was written: that of the formula of the first file, in the third one. The standard output says how many additions it has, of how
    // many, and how many deletions of the second file's proof were passed over, and why.
    ensures done { result ≡ Status.Done →
        LeavesHints (sink_at O.Sink out.old) (sink_at O.Sink out.new) (request_in (map string_bytes words.now)) (known_files (S.told shelf.old)) (known_files (S.told shelf.new)) }

    // An answer comes only where the inputs have no fault. The proof doesn't go through where no hints lead to one of its lemmas from
    // what those before it leave, or where all were taken and the empty clause isn't reached; the standard output says which.
    ensures answered { IsAnswered result → OfRequest HasNoFault (request_in (map string_bytes words.now)) (known_files (S.told shelf.old)) }
    ensures refused { result ≡ Status.Refused → OfRequest (IsRefused (sink_at O.Sink out.old) (sink_at O.Sink out.new))
        (request_in (map string_bytes words.now)) (known_files (S.told shelf.old)) }

    // A fault of the inputs' bytes is the first that they have, and the standard error says which.
    ensures error { IsContent result → OfRequest (HasFault result (sink_at E.Sink err.old) (sink_at E.Sink err.new))
        (request_in (map string_bytes words.now)) (known_files (S.told shelf.old)) }

    // A failure of the outside comes only where a count of faults rose, or where an input isn't there.
    ensures outside { result ≡ Status.Outside → HasCause (request_in (map string_bytes words.now)) (known_files (S.told shelf.old))
        (S.faults shelf.old) (S.faults shelf.new) (O.faults out.old) (O.faults out.new) }

    // Where the words are right and no call failed, there is an answer, or the fault of the inputs, but for want of memory.
    ensures complete { IsComplete (request_in (map string_bytes words.now)) (known_files (S.told shelf.old))
        (S.faults shelf.old) (S.faults shelf.new) (O.faults out.old) (O.faults out.new) result }

    // At any other status no file has changed, but where the outside failed: then it is that which was to be written.
    ensures files { result ≢ Status.Done → result ≢ Status.Outside → known_files (S.told shelf.new) ≡ known_files (S.told shelf.old) }
    ensures others { result ≡ Status.Outside →
        KeepsOthers (request_in (map string_bytes words.now)) (known_files (S.told shelf.old)) (known_files (S.told shelf.new)) }

    // Words are refused exactly where they are no command line, but for want of memory.
    ensures words { result ≡ Status.Words → IsErr (request_in (map string_bytes words.now)) }
    ensures all_words { IsErr (request_in (map string_bytes words.now)) → (result ≡ Status.Words) ⊎ (result ≡ Status.Memory) }

    ensures silent { IsSilent result → O.written out.new ≡ O.written out.old }
{
    match read_request(alloc, words) {
        Ok(request) => run_request(alloc, &request, shelf, out, err),
        Err(error) => refuse_words(alloc, error, err),
    }
}
