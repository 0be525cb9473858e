//! What is true of the facts of every world.
ghost use Rattle.fx_stage_facts.specs.Laws.{FactsFitTogether, NodesAreATree};

/// The lists tell of the nodes in the scene in one order, each parent stands before its children, and values by code
/// are of rows that the style table has.
pub fn facts_fit_together()
    ensures { FactsFitTogether }
{}

/// The nodes are a tree, by the places of their parents, where the scene's tree is one, as it always is.
pub fn nodes_are_a_tree()
    ensures { NodesAreATree }
{}
