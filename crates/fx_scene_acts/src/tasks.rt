//! What is done for a scene, in the order of work.
use fx_base::Place;
use fx_scene_flaws::FaultKind;
use fx_scene_plan::PlannedStep;

/// What is done at a task.
#[derive(Drop)]
pub enum Doing {
    /// A step of building the scene.
    Step(PlannedStep),
    /// A file is at fault, and nothing behind it is done.
    Fault(FaultKind),
    /// There has to be room for a further node under the one of this ordinal.
    Room(usize),
}

/// What is done at a place of a file, when all files that it needs are read.
#[derive(Drop)]
pub struct Task {
    pub place: Place,
    pub doing: Doing,
}

/// Why one of several files is refused, and where: a position in it, or line 0 and column 0 for the whole file.
#[derive(Clone, Copy, Debug, PartialEq, Eq)]
pub struct SceneFault {
    pub kind: FaultKind,
    pub place: Place,
}
