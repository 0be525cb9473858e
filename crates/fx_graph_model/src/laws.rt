//! Laws of stores of properties, each a function that does nothing: its contract is the law. Layers above cite them
//! instead of the definitions' bodies.
ghost use Rattle.fx_graph_model.specs.Laws.{MarksStayClosed, RanksForbidCycles, ValuesHaveTheirKinds, ValuesUnfold};

/// Where numbers fall along uses no property reaches itself.
pub fn ranks_forbid_cycles()
    ensures { RanksForbidCycles }
{}

/// The value of a property is its own one, or the meaning of its expression over the values of its operands.
pub fn values_unfold()
    ensures { ValuesUnfold }
{}

/// The value of a known property has the property's kind.
pub fn values_have_their_kinds()
    ensures { ValuesHaveTheirKinds }
{}

/// Where all users of unread properties are unread, but for some that are marked next, this holds of all afterwards.
pub fn marks_stay_closed()
    ensures { MarksStayClosed }
{}
