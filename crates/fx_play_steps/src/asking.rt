//! What single lines ask for.
ghost use Rattle.std.specs.Prelude.{◌≡◌};
ghost use Rattle.std.specs.Option.{option_map};
ghost use Rattle.fx_plain_steps.specs.Lines as spec;
ghost use Rattle.fx_script_commands.specs.Requests.{command_view, line_view};

use fx_base::Text;
use fx_script_commands::{Command, Line};
use fx_script_lines::Instruction;

/// The path of the property that the line asks for.
#[tactic(auto, unfolding(fx_plain_steps::specs::Lines::asked_by))]
pub(crate) fn asked_by(line: &Instruction) -> &[Text]
    ensures { result.now ≡ spec.asked_by line.now }
{
    match line {
        Instruction::Get(path) => path.as_slice(),
        _ => &[],
    }
}

/// Whether the stage takes the line.
#[tactic(auto, unfolding(fx_plain_steps::specs::Lines::is_carried))]
pub(crate) fn is_carried(line: &Instruction) -> bool
    ensures { result ≡ spec.is_carried line.now }
{
    match line {
        Instruction::Explain(_, _)
        | Instruction::Say(_)
        | Instruction::Move(_, _)
        | Instruction::Press
        | Instruction::ReleaseButton
        | Instruction::Key(_)
        | Instruction::Focus(_)
        | Instruction::Tab
        | Instruction::Backtab
        | Instruction::Pulse
        | Instruction::Timeline(_, _, _)
        | Instruction::Keyframe(_, _, _, _)
        | Instruction::Play(_)
        | Instruction::Stop(_)
        | Instruction::Tick(_) => false,
        _ => true,
    }
}

/// What the line says.
#[tactic(auto, unfolding(fx_plain_steps::specs::Lines::saying))]
pub(crate) fn saying(line: &Instruction) -> Option<&str>
    ensures { option_map (λ t. t.now) result ≡ spec.saying line.now }
{
    match line {
        Instruction::Say(text) => Some(text.as_str()),
        _ => None,
    }
}

/// Whether the line may stand in no action.
#[tactic(auto, unfolding(fx_plain_steps::specs::Lines::is_of_script))]
fn is_of_script(line: &Instruction) -> bool
    ensures { result ≡ spec.is_of_script line.now }
{
    match line {
        Instruction::Resize(_, _)
        | Instruction::Move(_, _)
        | Instruction::Press
        | Instruction::ReleaseButton
        | Instruction::Key(_)
        | Instruction::Focus(_)
        | Instruction::Tab
        | Instruction::Backtab
        | Instruction::Pulse
        | Instruction::Explain(_, _)
        | Instruction::Timeline(_, _, _)
        | Instruction::Keyframe(_, _, _, _)
        | Instruction::Play(_)
        | Instruction::Stop(_)
        | Instruction::Tick(_) => true,
        _ => false,
    }
}

/// Whether the line may stand in no action.
#[tactic(auto, unfolding(fx_plain_steps::specs::Lines::is_barred))]
pub(crate) fn is_barred(command: &Command) -> bool
    ensures { result ≡ spec.is_barred (command_view command.now) }
{
    match command {
        Command::Plain(instruction) => is_of_script(instruction),
        Command::Action(_, _) => true,
        _ => false,
    }
}

fn is_consume_line(line: &Instruction) -> bool
    ensures { result ≡ spec.is_consume_line line.now }
{
    match line {
        Instruction::Consume => true,
        _ => false,
    }
}

/// Whether the line consumes the event for which its action runs.
#[tactic(auto, unfolding(fx_plain_steps::specs::Lines::is_consume))]
pub fn is_consume(command: &Command) -> bool
    ensures { result ≡ spec.is_consume (command_view command.now) }
{
    match command {
        Command::Plain(instruction) => is_consume_line(instruction),
        _ => false,
    }
}

/// The number of the line.
pub fn number_of(line: &Line) -> u32
    ensures { result ≡ (line_view line.now).number }
{
    line.number
}
