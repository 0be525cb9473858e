//! How many operands a binding has. The graph keeps their sum below a limit.
ghost use Rattle.std.specs.Prelude.{◌≡◌, ◌<◌, length};
ghost use Rattle.fx_graph_model.specs.Uses.{uses, operands_in};

use fx_graph_model::{Definition, Entry, Operands};

/// How many operands the binding of the name has.
pub fn operands_at(entries: &[Entry], name: usize) -> usize
    requires { name < length entries.now }
    ensures { result ≡ length (uses entries.now name) }
{
    count_operands(&entries[name].definition)
}

fn count_operands(definition: &Definition) -> usize
    ensures { result ≡ length (operands_in definition.now) }
{
    match definition {
        Definition::Base(_) => 0,
        Definition::Bound(_, operands) => count_names(operands),
        Definition::Forgotten => 0,
    }
}

fn count_names(operands: &Operands) -> usize
    ensures { result ≡ length operands.now }
{
    operands.as_slice().len()
}
