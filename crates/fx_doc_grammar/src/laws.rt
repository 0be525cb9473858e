//! Laws of the grammar, each the contract of a function with nothing in it.
//! They say of the definitions what a reader of them would hope.
ghost use Rattle.std.specs.Prelude.{◌≡◌, ℕ, List};
ghost use Rattle.fx_doc_grammar.specs.Judgements.{Judgement, IsJudgement, judgement};
ghost use Rattle.fx_doc_grammar.specs.Judging.{verdict_of};
ghost use Rattle.fx_doc_grammar.specs.Verdicts.{IsVerdict, OneDocument, OneVerdict};

/// No text spells two documents.
pub fn documents_are_one()
    ensures { OneDocument }
{}

/// No text has two answers: what is read, the end of its longest prefix, and the first limit that it passes exclude
/// each other.
pub fn answers_are_one()
    ensures { OneVerdict }
{}

/// What the machine finds of a text is the grammar's verdict on it; so each text has one.
pub fn texts_are_judged_by_the_grammar()
    ensures { (text : List ℕ) → IsVerdict text (verdict_of text) }
{}

/// The function's judgement on bytes is the grammar's, and no other is: no text exactly where they are no UTF-8.
pub fn bytes_are_judged_by_the_grammar()
    ensures is { (bytes : List ℕ) → IsJudgement bytes (judgement bytes) }
    ensures alone { (bytes : List ℕ) (j : Judgement) → IsJudgement bytes j → judgement bytes ≡ j }
{}
