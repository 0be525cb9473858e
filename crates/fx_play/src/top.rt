//! The top call.
ghost use Rattle.std.specs.Prelude.{◌≡◌, ◌⊎◌, IsSome, None};
ghost use Rattle.fx_plain.specs.CommandLine.{Fetches, plan_in};
ghost use Rattle.fx_plain.specs.PlainPlayer.{Answers, IsAnswer, IsOver, IsWithin};
ghost use Rattle.fx_plain.specs.Works.{HasWorked, IsWorkOf};
ghost use Rattle.fx_plain.specs.declared.answers.Status.TheVariants as status;
ghost use Rattle.fx_plain_work.specs.Works.{counted};
ghost use Rattle.fx_port.specs.Causes.{Rose};
ghost use Rattle.fx_port.specs.Files.{Files};
ghost use Rattle.fx_play.specs.Ends.{IsIdle, IsPlayed};
ghost use Rattle.fx_play.specs.Plans.{HasLabels, plan_view};
ghost use Rattle.fx_words.specs.Reading.{accept, texts};

use crate::endings::tell_usage;
use crate::plans::{Plan, plan_of};
use crate::runs::{play_demo, play_run};
use fx_base::{Ledgers, Work};
use fx_plain::Status;
use fx_port::{Shelf, Sink};
use fx_words::accept;
use std::alloc::Global;

/// Plays a script on a scene: reads the script, the style sheets and the scene from the shelf, and writes frames,
/// values, notices and refusals to the sink, or their totals. What is written is the plain player's output, for all
/// words and all files that the shelf tells; only a counted failure of the shelf or the sink, or want of memory, ends
/// it earlier, after a part of that output.
pub fn play<F: Shelf, O: Sink, L: Ledgers>(
    alloc: Global,
    words: &[String],
    shelf: &mut F,
    out: &mut O,
    work: &mut Work<L>,
) -> Status
    // Done, Usage and Refused: all that the plain player writes, and its status.
    ensures answers { (files : Files) → IsOver (F.held shelf.old) (plan_in (texts words.now)) files → IsAnswer result →
        Answers (plan_in (texts words.now)) files (O.written out.old) (O.written out.new) result }

    // Whatever the answer, no more than a part of what it writes of the lines that were taken.
    ensures within { (files : Files) → IsOver (F.held shelf.old) (plan_in (texts words.now)) files →
        IsWithin (plan_in (texts words.now)) files (O.written out.old) (O.written out.new) }

    // Where nothing failed, the run came to its end, or memory was wanting.
    ensures complete { ¬ (Rose (F.faults shelf.old) (F.faults shelf.new)) →
        ¬ (Rose (O.faults out.old) (O.faults out.new)) → IsAnswer result ⊎ (result ≡ status.NoMemory) }

    // Over any shelf and any sink, each answer's cause.
    ensures read { result ≡ status.ReadFault → (Rose (F.faults shelf.old) (F.faults shelf.new)) ×
        (Fetches (plan_in (texts words.now)) × (O.written out.new ≡ O.written out.old)) }
    ensures write { result ≡ status.WriteFault → Rose (O.faults out.old) (O.faults out.new) }
    ensures usage { result ≡ status.Usage → accept (texts words.now) ≡ None }
    ensures played { (result ≡ status.Done) ⊎ (result ≡ status.Refused) → IsSome (accept (texts words.now)) }
    ensures held { F.held shelf.new ≡ F.held shelf.old }

    // A demo is played without the shelf, and so is what else fetches no file.
    ensures still { ¬ (Fetches (plan_in (texts words.now))) → shelf.new ≡ shelf.old }

    // Where no scene was built, nothing was counted as work.
    ensures idle { IsIdle result → work.new ≡ work.old }

    // A run that is played to its end wrote the bytes of a course of the plain player in which no line but `pulse`
    // styles, lays out or paints, and a `pulse` does no more than what was touched since the last one asks for. No more
    // expressions are evaluated than what the lines and the actions that they ran may, and none while the scene is
    // built.
    ensures worked { (files : Files) → IsOver (F.held shelf.old) (plan_in (texts words.now)) files →
        result ≡ status.Done → HasWorked (λ bytes. IsWorkOf (plan_in (texts words.now)) files bytes
        (counted work.old.styled work.old.laid work.old.painted)
        (counted work.new.styled work.new.laid work.new.painted))
        (O.written out.old) (O.written out.new) work.old.evaluated work.new.evaluated }
{
    match accept(alloc, words) {
        Ok(asked) => play_plan(alloc, plan_of(&asked), shelf, out, work),
        Err(_) => Status::NoMemory,
    }
}

/// Plays what is planned.
fn play_plan<F: Shelf, O: Sink, L: Ledgers>(
    alloc: Global,
    plan: Plan<'_>,
    shelf: &mut F,
    out: &mut O,
    work: &mut Work<L>,
) -> Status
    requires { HasLabels (plan_view plan) }
    ensures held { F.held shelf.new ≡ F.held shelf.old }
    ensures still { ¬ (Fetches (plan_view plan.entry)) → shelf.new ≡ shelf.old }
    ensures idle { IsIdle result → work.new ≡ work.old }
    ensures worked { (files : Files) → IsOver (F.held shelf.old) (plan_view plan.entry) files →
        result ≡ status.Done → HasWorked (λ bytes. IsWorkOf (plan_view plan.entry) files bytes
        (counted work.old.styled work.old.laid work.old.painted)
        (counted work.new.styled work.new.laid work.new.painted))
        (O.written out.old) (O.written out.new) work.old.evaluated work.new.evaluated }
    ensures played { IsPlayed (plan_view plan.entry) (F.held shelf.old) (F.faults shelf.old) (F.faults shelf.new)
        (O.faults out.old) (O.faults out.new) (O.written out.old) (O.written out.new) result }
{
    match plan {
        Plan::Plays(run, manner) => play_run(alloc, &run, manner, shelf, out, work),
        Plan::PlaysDemo(number, manner) => play_demo(alloc, number, manner, out, work),
        Plan::ShowsUsage => tell_usage(out),
    }
}
