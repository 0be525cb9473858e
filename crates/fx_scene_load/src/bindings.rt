//! Bindings, once all names are known.
ghost use Rattle.std.specs.Prelude.{◌≡◌, ◌++◌, IfOk, OnOk, map};
ghost use Rattle.fx_scene_load.specs.Reading as spec;
ghost use Rattle.fx_scene_things.specs.Known.{space_view};

use fx_scene_acts::{Doing, Task};
use fx_scene_bindings::bound;
use fx_scene_course::Waiting;
use fx_scene_things::{Names, Space, names_in};
use std::alloc::{AllocError, Global};

/// Adds the tasks of the bindings, over the names of the document in which each stands.
pub(crate) fn add_bound(
    alloc: Global,
    spaces: &[Space],
    bindings: &[Waiting],
    tasks: &mut Vec<Task>,
) -> Result<(), AllocError>
    ensures ok { OnOk result (tasks.new.items
        ≡ tasks.old.items ++ map (spec.bound_task (map space_view spaces.now)) bindings.now) }
{
    for waiting in bindings {
        tasks.push(bound_task(alloc, spaces, waiting)?)?;
    }
    Ok(())
}

fn bound_task(alloc: Global, spaces: &[Space], waiting: &Waiting) -> Result<Task, AllocError>
    ensures { IfOk result (λ task. task ≡ spec.bound_task (map space_view spaces.now) waiting.now) }
{
    Ok(Task {
        place: waiting.place,
        doing: bound_doing(alloc, spaces, waiting)?,
    })
}

fn bound_doing(alloc: Global, spaces: &[Space], waiting: &Waiting) -> Result<Doing, AllocError>
    ensures { IfOk result (λ doing. doing ≡ (spec.bound_task (map space_view spaces.now) waiting.now).doing) }
{
    match names_in(spaces, waiting.place.file) {
        Some(names) => bound(alloc, spaces, names, &waiting.binding),
        None => bound(alloc, spaces, &Names::new(alloc), &waiting.binding),
    }
}
