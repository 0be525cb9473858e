//! What is done so far for a scene.
ghost use Rattle.std.specs.Prelude.{◌≡◌, ◌||◌, OnOk};
ghost use Rattle.std.specs.List.{list_any};
ghost use Rattle.fx_load_parts.specs.Views.{fault_of};
ghost use Rattle.fx_scene_course.specs.Courses as spec;
ghost use Rattle.fx_scene_course.specs.Views.{course_view};
ghost use Rattle.fx_scene_things.specs.Known.{known};

use fx_base::{Place, Position, Str};
use fx_kinds::Class;
use fx_load_parts::FileFault;
use fx_scene_acts::{Binding, Doing, Task};
use fx_scene_flaws::{FaultKind, Flaw};
use fx_scene_plan::PlannedStep;
use fx_scene_things::{Names, Space};
use std::alloc::AllocError;

/// A binding that waits until all names are known, where it stands.
#[derive(Drop)]
pub struct Waiting {
    pub place: Place,
    pub binding: Binding,
}

/// The tasks so far, the names of the files that were fetched behind the script, the classes of the nodes by their
/// ordinals, the bindings that wait, the names of the documents that are whole, and whether the last task is a fault.
#[derive(Drop)]
pub struct Course {
    pub tasks: Vec<Task>,
    pub files: Vec<Str>,
    pub classes: Vec<Class>,
    pub bindings: Vec<Waiting>,
    pub spaces: Vec<Space>,
    pub at_fault: bool,
}

pub fn place_in(file: u32, position: Position) -> Place
    ensures { result ≡ spec.place_in file position }
{
    Place { file, position }
}

/// Adds a task.
#[inline]
pub fn add_task(course: &mut Course, place: Place, doing: Doing) -> Result<(), AllocError>
    ensures ok { OnOk result (course_view course.new ≡ spec.with_task (course_view course.old) place doing) }
{
    course.tasks.push(Task { place, doing })?;
    Ok(())
}

/// Adds a step, if there is one.
#[inline(always)]
pub fn add_step(
    course: &mut Course,
    place: Place,
    step: Option<PlannedStep>,
) -> Result<(), AllocError>
    ensures ok { OnOk result (course_view course.new ≡ spec.with_step (course_view course.old) place step) }
{
    match step {
        Some(step) => add_task(course, place, Doing::Step(step)),
        None => Ok(()),
    }
}

/// Adds a fault, behind which nothing is done.
pub fn add_fault(course: &mut Course, place: Place, kind: FaultKind) -> Result<(), AllocError>
    ensures ok { OnOk result (course_view course.new ≡ spec.with_fault (course_view course.old) place kind) }
{
    add_task(course, place, Doing::Fault(kind))?;
    course.at_fault = true;
    Ok(())
}

/// Adds what is wrong with a document.
pub fn add_flaw(course: &mut Course, place: Place, flaw: Flaw) -> Result<(), AllocError>
    ensures ok { OnOk result (course_view course.new ≡ spec.with_flaw (course_view course.old) place flaw) }
{
    add_fault(course, place, FaultKind::Flawed(flaw))
}

/// Adds a fault of the file of this number.
pub fn add_fault_in(course: &mut Course, file: u32, fault: &FileFault<'_>) -> Result<(), AllocError>
    ensures ok { OnOk result (course_view course.new
        ≡ spec.with_fault_in (course_view course.old) file (fault_of fault.now)) }
{
    add_fault(course, place_in(file, fault.position), fault.kind)
}

/// Adds a file that was fetched.
pub fn add_file(course: &mut Course, name: Str) -> Result<(), AllocError>
    ensures ok { OnOk result (course_view course.new ≡ spec.with_file (course_view course.old) name) }
{
    course.files.push(name)?;
    Ok(())
}

/// Adds a binding that waits.
pub fn add_binding(course: &mut Course, place: Place, binding: Binding) -> Result<(), AllocError>
    ensures ok { OnOk result (course_view course.new ≡ spec.with_binding (course_view course.old) place binding) }
{
    course.bindings.push(Waiting { place, binding })?;
    Ok(())
}

/// Adds the class of a further node, if there is one.
pub fn add_class(course: &mut Course, class: Option<Class>) -> Result<(), AllocError>
    ensures ok { OnOk result (course_view course.new ≡ spec.with_class (course_view course.old) class) }
{
    match class {
        Some(class) => push_class(course, class),
        None => Ok(()),
    }
}

fn push_class(course: &mut Course, class: Class) -> Result<(), AllocError>
    ensures ok { OnOk result (course_view course.new ≡ spec.with_class (course_view course.old) (Some class)) }
{
    course.classes.push(class)?;
    Ok(())
}

/// Adds the names of a document that is whole.
pub fn add_space(course: &mut Course, file: u32, names: Names) -> Result<(), AllocError>
    ensures ok { OnOk result (course_view course.new ≡ spec.with_space (course_view course.old) file (known names)) }
{
    course.spaces.push(Space { file, names })?;
    Ok(())
}

/// Was the property `id` of the node of this ordinal given or bound?
#[tactic(auto, unfolding(crate::specs::Courses::has_id))]
pub fn has_id(course: &Course, node: usize) -> bool
    ensures { result ≡ spec.has_id (course_view course.now) node }
{
    gives_id(course.tasks.as_slice(), node) || binds_id(course.bindings.as_slice(), node)
}

fn gives_id(tasks: &[Task], node: usize) -> bool
    ensures { result ≡ list_any (spec.gives_id node) tasks.now }
{
    tasks.iter().any(|task| is_id_doing(&task.doing, node))
}

fn binds_id(bindings: &[Waiting], node: usize) -> bool
    ensures { result ≡ list_any (spec.binds_id node) bindings.now }
{
    bindings.iter().any(|waiting| is_id(
        node,
        waiting.binding.node,
        waiting.binding.property.as_str(),
    ))
}

fn is_id_doing(doing: &Doing, node: usize) -> bool
    ensures { result ≡ spec.is_id_doing node doing.now }
{
    match doing {
        Doing::Step(step) => is_id_step(step, node),
        _ => false,
    }
}

fn is_id_step(step: &PlannedStep, node: usize) -> bool
    ensures { result ≡ spec.is_id_step node step.now }
{
    match step {
        PlannedStep::Code(property, _) => is_id(node, property.node, property.property.as_str()),
        _ => false,
    }
}

fn is_id(node: usize, other: usize, name: &str) -> bool
    ensures { result ≡ spec.is_id node other name.now }
{
    other == node && name == "id"
}
