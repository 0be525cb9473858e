//! One run with counters of its own, and how the process ends by it.
//! The counters are made here, so that no caller has to know of them. An ending is made here alone, so `main` ends with
//! the status of a run that it had played.
ghost use Rattle.std.specs.Prelude.{◌≡◌, ◌⊎◌, IsSome, None};
ghost use Rattle.std.specs.Process.{exit_status};
ghost use Rattle.fx_plain.specs.CommandLine.{Fetches, plan_in};
ghost use Rattle.fx_plain.specs.PlainPlayer.{Answers, IsAnswer, IsOver, IsWithin};
ghost use Rattle.fx_plain.specs.declared.answers.Status.TheVariants as status;
ghost use Rattle.fx_port.specs.Causes.{Rose};
ghost use Rattle.fx_port.specs.Files.{Files};
ghost use Rattle.fx_words.specs.Reading.{accept, texts};
ghost use Rattle.fxplay.specs.Exits.{status_number};

use crate::exits::exit_code;
use fx_base::{Ledgers, Work};
use fx_play::{Status, play};
use fx_port::{Shelf, Sink};
use std::alloc::Global;
use std::io::Eprint;
use std::marker::Model;
use std::process::{ExitCode, Termination};
use std::sync::ledger::Blank;

/// How the process ends. Contracts see it as the status of a run.
#[derive(Drop)]
pub struct Ending {
    status: Status,
}

impl Model for Ending {
    ghost use Rattle.fx_plain.specs.declared.answers.Status.{Status};

    ghost Value = { Status };

    ghost view = { λ ending. ending.status };
}

impl Termination for Ending {
    fn report<R: Eprint>(self, _rt: &R) -> ExitCode
        ensures { exit_status result ≡ status_number self }
    {
        exit_code(self.status)
    }
}

impl Ending {
    /// The end of a process that has no room for its words.
    pub fn without_memory() -> Ending
        ensures { result ≡ status.NoMemory }
    {
        Ending {
            status: Status::NoMemory,
        }
    }
}

/// Plays what the words ask for, and ends as the player does.
pub fn start<F: Shelf, O: Sink, L: Ledgers>(
    alloc: Global,
    words: &[String],
    shelf: &mut F,
    out: &mut O,
    evaluated: Blank,
    styled: Blank,
    laid: Blank,
    painted: Blank,
) -> Ending
    requires evaluated { (evaluated.name ≡ L.evaluated_name) × (evaluated.parts ≡ 1) }
    requires styled { (styled.name ≡ L.styled_name) × (styled.parts ≡ 1) }
    requires laid { (laid.name ≡ L.laid_name) × (laid.parts ≡ 1) }
    requires painted { (painted.name ≡ L.painted_name) × (painted.parts ≡ 1) }

    // what is printed, and the status, are the plain player's
    ensures answers { (files : Files) → IsOver (F.held shelf.old) (plan_in (texts words.now)) files → IsAnswer result →
        Answers (plan_in (texts words.now)) files (O.written out.old) (O.written out.new) result }
    ensures within { (files : Files) → IsOver (F.held shelf.old) (plan_in (texts words.now)) files →
        IsWithin (plan_in (texts words.now)) files (O.written out.old) (O.written out.new) }
    ensures complete { ¬ (Rose (F.faults shelf.old) (F.faults shelf.new)) →
        ¬ (Rose (O.faults out.old) (O.faults out.new)) → IsAnswer result ⊎ (result ≡ status.NoMemory) }

    // each answer's cause, over any shelf and any sink
    ensures read { result ≡ status.ReadFault → (Rose (F.faults shelf.old) (F.faults shelf.new)) ×
        (Fetches (plan_in (texts words.now)) × (O.written out.new ≡ O.written out.old)) }
    ensures write { result ≡ status.WriteFault → Rose (O.faults out.old) (O.faults out.new) }
    ensures usage { result ≡ status.Usage → accept (texts words.now) ≡ None }
    ensures played { (result ≡ status.Done) ⊎ (result ≡ status.Refused) → IsSome (accept (texts words.now)) }
    ensures still { ¬ (Fetches (plan_in (texts words.now))) → shelf.new ≡ shelf.old }
{
    let mut work: Work<L> = Work::new(evaluated, styled, laid, painted);
    Ending {
        status: play(alloc, words, shelf, out, &mut work),
    }
}
