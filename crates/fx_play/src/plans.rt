//! What is played for the run that the words ask for.
//! It stands between the words and the files.
ghost use Rattle.std.specs.Prelude.{◌≡◌, IfSome};
ghost use Rattle.std.specs.Option.{option_map};
ghost use Rattle.fx_plain.specs.CommandLine as spec;
ghost use Rattle.fx_play.specs.Plans.{HasLabels, plan_view};
ghost use Rattle.fx_words.specs.Asking.{IsNumbered};

use fx_frame_text::Form;
use fx_load_parts::Run;
use fx_plain_runs::Manner;
use fx_words::{Frames, Size, Source};

/// A run over files, and how it shows what it does; or the demo of so many labels; or no run.
pub(crate) enum Plan<'a> {
    Plays(Run<'a>, Manner),
    PlaysDemo(u32, Manner),
    ShowsUsage,
}

/// What is played where the words ask for this run, if they ask for one.
pub(crate) fn plan_of(asked: &Option<fx_words::Run>) -> Plan<'_>
    requires { IfSome asked.now (λ run. IsNumbered run.source) }
    ensures plan { plan_view result ≡ spec.plan_of asked.now }
    ensures labels { HasLabels (plan_view result) }
{
    match asked {
        Some(run) => plan_of_run(run),
        None => Plan::ShowsUsage,
    }
}

fn plan_of_run(run: &fx_words::Run) -> Plan<'_>
    requires { IsNumbered run.now.source }
    ensures plan { plan_view result ≡ spec.plan_of_run run.now }
    ensures labels { HasLabels (plan_view result) }
{
    played(&run.source, manner_of(run))
}

fn played(source: &Source, manner: Manner) -> Plan<'_>
    requires { IsNumbered source.now }
    ensures plan { plan_view result ≡ spec.played source.now manner }
    ensures labels { HasLabels (plan_view result) }
{
    match source {
        Source::Demo(number) => Plan::PlaysDemo(*number, manner),
        Source::Files(scene, script, sheets) => {
            let run = Run {
                scene: scene.as_str(),
                script: script.as_str(),
                sheets: sheets.as_slice(),
            };
            Plan::Plays(run, manner)
        }
    }
}

fn manner_of(run: &fx_words::Run) -> Manner
    ensures { result ≡ spec.manner_of run.now }
{
    Manner {
        window: window_of(run.size),
        form: form_of(run.frames),
        summary: run.summary,
    }
}

fn window_of(size: Option<Size>) -> Option<(u32, u32)>
    ensures { result ≡ option_map spec.window_of size }
{
    match size {
        Some(size) => Some((size.width, size.height)),
        None => None,
    }
}

fn form_of(frames: Frames) -> Form
    ensures { result ≡ spec.form_of frames }
{
    match frames {
        Frames::Text => Form::Text,
        Frames::Ppm => Form::Ppm,
        Frames::Nothing => Form::Nothing,
        Frames::Delta => Form::Delta,
    }
}
