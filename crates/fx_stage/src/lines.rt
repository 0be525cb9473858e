//! Lines of a script, each by what it asks for.
ghost use Rattle.std.specs.Prelude.{ℕ, ◌≡◌, ◌≤◌, ◌+◌};
ghost use Rattle.fx_stage_model.specs.Answers.{cost_of};
ghost use Rattle.fx_stage_model.specs.Lines as spec;
ghost use Rattle.fx_stage_model.specs.Taking.{IsTaken};

use crate::stage::Stage;
use fx_base::{Ledgers, Work};
use fx_events::Phase;
use fx_script_lines::Instruction;
use fx_stage_types::{Outcome, StageError};
use fx_stage_words::nothing;
use std::alloc::Global;

impl Stage {
    /// Carries out a line of words. Event lines, `pulse`, and lines on timelines aren't the world's own, and do nothing
    /// here.
    #[tactic(auto, unfolding(fx_stage_model::specs::Lines::instructed))]
    pub fn carry_out<L: Ledgers>(
        &mut self,
        alloc: Global,
        line: &Instruction,
        work: &mut Work<L>,
    ) -> Result<Outcome, StageError>
        ensures taken { (slot : ℕ) × IsTaken (spec.instructed slot line.now self.old) self.old self.new result }
        ensures few { (slot : ℕ) → work.new.evaluated ≤ work.old.evaluated
            + cost_of (spec.instructed slot line.now self.old) }
        ensures others { work.new ≡ record work.old { evaluated = work.new.evaluated } }
    {
        match line {
            Instruction::Prop(name, kind, text) => self.declare(alloc, name, kind, text.as_str()),
            Instruction::Set(path, text) => self.set(alloc, path.as_slice(), text.as_str(), work),
            Instruction::Get(path) => self.get(alloc, path.as_slice(), work),
            Instruction::Unbind(path) => self.unbind(alloc, path.as_slice(), work),
            Instruction::Pair(one, other) => self.pair(
                alloc,
                one.as_slice(),
                other.as_slice(),
                work,
            ),
            Instruction::Unpair(one, other) => self.unpair(
                alloc,
                one.as_slice(),
                other.as_slice(),
                work,
            ),
            Instruction::Owner(label) => self.own(alloc, label),
            Instruction::Release(label) => self.release(alloc, label),
            Instruction::Listen(kind, path, label) => {
                self.listen(alloc, kind, path.as_slice(), None, label.as_ref(), work)
            }
            Instruction::Unlisten(kind, path, label) => {
                self.unlisten(alloc, kind, path.as_slice(), None, label.as_ref(), work)
            }
            Instruction::Watch(kind, path, action, label) => {
                self.listen(
                    alloc,
                    kind,
                    path.as_slice(),
                    Some(action),
                    label.as_ref(),
                    work,
                )
            }
            Instruction::Unwatch(kind, path, action, label) => {
                self.unlisten(
                    alloc,
                    kind,
                    path.as_slice(),
                    Some(action),
                    label.as_ref(),
                    work,
                )
            }
            Instruction::New(class, id) => self.new_node(alloc, class, id),
            Instruction::Attach(parent, child, place) => {
                self.attach(alloc, parent.as_slice(), child.as_slice(), place)
            }
            Instruction::Drop(path) => self.drop_node(alloc, path.as_slice(), work),
            Instruction::Detach(path) => self.detach(alloc, path.as_slice()),
            Instruction::Class(path, name) => self.add_class(alloc, path.as_slice(), name),
            Instruction::Unclass(path, name) => self.remove_class(alloc, path.as_slice(), name),
            Instruction::Style(path, text) => self.set_style(alloc, path.as_slice(), text.as_str()),
            Instruction::Pseudo(path, name, state) => self.set_pseudo(
                alloc,
                path.as_slice(),
                name,
                state,
            ),
            Instruction::Constrain(path, name, text) => {
                self.constrain(alloc, path.as_slice(), name, text.as_str())
            }
            Instruction::Handle(path, name, action) => {
                self.handle(alloc, Phase::Handler, path.as_slice(), name, action)
            }
            Instruction::Filter(path, name, action) => {
                self.handle(alloc, Phase::Filter, path.as_slice(), name, action)
            }
            Instruction::Resize(width, height) => self.resize(alloc, width, height),
            Instruction::Explain(_, _)
            | Instruction::Say(_)
            | Instruction::Consume
            | Instruction::Move(_, _)
            | Instruction::Press
            | Instruction::ReleaseButton
            | Instruction::Key(_)
            | Instruction::Focus(_)
            | Instruction::Tab
            | Instruction::Backtab
            | Instruction::Pulse
            | Instruction::Timeline(_, _, _)
            | Instruction::Keyframe(_, _, _, _)
            | Instruction::Play(_)
            | Instruction::Stop(_)
            | Instruction::Tick(_) => Ok(nothing(alloc)),
        }
    }
}
