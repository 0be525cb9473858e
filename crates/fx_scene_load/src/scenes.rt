//! The tasks of a scene.
ghost use Rattle.std.specs.Prelude.{◌≡◌, IfOk, Some};
ghost use Rattle.fx_doc.specs.Views.{reading};
ghost use Rattle.fx_port.specs.Causes.{HasCause};
ghost use Rattle.fx_port.specs.Files.{Files};
ghost use Rattle.fx_port.specs.declared.files.FetchError.TheVariants.{Failed};
ghost use Rattle.fx_scene_course.specs.Courses as spec;
ghost use Rattle.fx_scene_load.specs.Reading.{IsSceneRead, all_tasks};
ghost use Rattle.fx_scene_course.specs.Views.{course_view};

use crate::bindings::add_bound;
use crate::reading::read_whole;
use fx_base::Str;
use fx_doc::Document;
use fx_port::{FetchError, Shelf};
use fx_scene_acts::Task;
use fx_scene_course::{Course, Open, around_with};
use fx_scene_read::Stand;
use std::alloc::{AllocError, Global};

/// The tasks of a run, and the names of the files that were fetched behind its script.
#[derive(Drop)]
pub struct Scene {
    pub tasks: Vec<Task>,
    pub files: Vec<Str>,
}

/// Adds the tasks of a scene, the file of this number and name, up to the first fault, and the names of the files that
/// are fetched for it.
pub fn add_scene<'x, F: Shelf>(
    alloc: Global,
    shelf: &mut F,
    file: u32,
    name: &'x str,
    document: &'x Document,
    before: Scene,
) -> Result<Scene, FetchError>
    ensures held { F.held shelf.new ≡ F.held shelf.old }
    ensures cause { HasCause Failed (F.faults shelf.old) (F.faults shelf.new) result }
    ensures made { (files : Files) → F.held shelf.old ≡ Some files
        → IfOk result (λ scene. IsSceneRead files file name.now (spec.first_course before.tasks.items
        before.files.items) (reading document.now) scene.tasks.items scene.files.items) }
{
    let mut course = first_course(alloc, before);
    let around = around_with(alloc, &[], name)?;
    let here = Open {
        file,
        name,
        imports: document.imports.as_slice(),
        around,
        path: Some(Vec::new(alloc)),
        stand: Stand::Root,
    };
    read_whole(alloc, shelf, &here, document, &mut course)?;
    Ok(scene_of(alloc, course)?)
}

fn first_course(alloc: Global, before: Scene) -> Course
    ensures { course_view result ≡ spec.first_course before.tasks.items before.files.items }
{
    let Scene { tasks, files } = before;
    Course {
        tasks,
        files,
        classes: Vec::new(alloc),
        bindings: Vec::new(alloc),
        spaces: Vec::new(alloc),
        at_fault: false,
    }
}

/// Behind all documents the bindings are resolved, if nothing is wrong.
fn scene_of(alloc: Global, course: Course) -> Result<Scene, AllocError>
    ensures tasks { IfOk result (λ scene. scene.tasks.items ≡ all_tasks (course_view course)) }
    ensures files { IfOk result (λ scene. scene.files ≡ course.files) }
{
    let Course {
        tasks,
        files,
        classes: _,
        bindings,
        spaces,
        at_fault,
    } = course;
    if at_fault {
        return Ok(Scene { tasks, files });
    }
    let mut tasks = tasks;
    add_bound(alloc, spaces.as_slice(), bindings.as_slice(), &mut tasks)?;
    Ok(Scene { tasks, files })
}
