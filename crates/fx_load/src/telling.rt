//! The lines that tell what was dropped of sheets and of inline styles.
ghost use Rattle.std.specs.Prelude.{◌≡◌, ◌++◌, IfOk, OnOk};
ghost use Rattle.fx_load.specs.Telling as spec;

use fx_base::{Place, Str};
use fx_load_parts::{name_in, warning_line};
use fx_scene_acts::{Doing, Task};
use fx_scene_plan::PlannedStep;
use std::alloc::{AllocError, Global};

/// A line `warn FILE LINE COLUMN` for each part that was dropped, in the order of the tasks: of a sheet where it
/// stands, of an inline style at its attribute.
pub(crate) fn warnings_of(
    alloc: Global,
    files: &[Str],
    tasks: &[Task],
) -> Result<Vec<u8>, AllocError>
    ensures { IfOk result (λ text. text.items ≡ spec.warnings_of files.now tasks.now) }
{
    let mut text = Vec::new(alloc);
    for task in tasks {
        add_task(alloc, files, task, &mut text)?;
    }
    Ok(text)
}

#[tactic(auto, unfolding(crate::specs::Telling::task_lines))]
fn add_task(alloc: Global, files: &[Str], task: &Task, text: &mut Vec<u8>) -> Result<(), AllocError>
    ensures ok { OnOk result (text.new.items ≡ text.old.items ++ spec.task_lines files.now task.now) }
{
    match &task.doing {
        Doing::Step(step) => add_step(alloc, files, task.place, step, text),
        Doing::Fault(_) | Doing::Room(_) => Ok(()),
    }
}

fn add_step(
    alloc: Global,
    files: &[Str],
    place: Place,
    step: &PlannedStep,
    text: &mut Vec<u8>,
) -> Result<(), AllocError>
    ensures ok { OnOk result (text.new.items ≡ text.old.items ++ spec.step_lines files.now place step.now) }
{
    match step {
        PlannedStep::Inline(_, sheet) => {
            add_style(alloc, files, place, sheet.warnings.as_slice(), text)
        }
        PlannedStep::Sheet(_, sheet) => add_sheet(alloc, files, sheet.warnings.as_slice(), text),
        _ => Ok(()),
    }
}

/// Appends a line at the place for each part that was dropped.
fn add_style(
    alloc: Global,
    files: &[Str],
    place: Place,
    dropped: &[Place],
    text: &mut Vec<u8>,
) -> Result<(), AllocError>
    ensures ok { OnOk result (text.new.items ≡ text.old.items ++ spec.style_lines files.now place dropped.now) }
{
    for _part in dropped {
        add_line(alloc, files, place, text)?;
    }
    Ok(())
}

/// Appends a line for each part that was dropped, where it stands.
fn add_sheet(
    alloc: Global,
    files: &[Str],
    dropped: &[Place],
    text: &mut Vec<u8>,
) -> Result<(), AllocError>
    ensures ok { OnOk result (text.new.items ≡ text.old.items ++ spec.sheet_lines files.now dropped.now) }
{
    for part in dropped {
        add_line(alloc, files, *part, text)?;
    }
    Ok(())
}

fn add_line(
    alloc: Global,
    files: &[Str],
    place: Place,
    text: &mut Vec<u8>,
) -> Result<(), AllocError>
    ensures ok { OnOk result (text.new.items ≡ text.old.items ++ spec.line_at files.now place) }
{
    let line = warning_line(alloc, name_in(files, place.file), place)?;
    text.extend_from_slice(line.as_slice())?;
    Ok(())
}
