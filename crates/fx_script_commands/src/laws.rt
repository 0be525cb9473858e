//! What follows of the definitions of lines, for whoever cites them.
ghost use Rattle.std.specs.Prelude.{◌≡◌, ◌≤◌, ℕ, List, Some, length};
ghost use Rattle.std.specs.Str.{chars};
ghost use Rattle.fx_expr.specs.Reading.{IsRead};
ghost use Rattle.fx_expr.specs.Tree.{Tree};
ghost use Rattle.fx_script_commands.specs.Commands.{IsBadLine, expression_of, request_of};
ghost use Rattle.fx_script_commands.specs.Requests.{Expression, bad};
ghost use Rattle.fx_script_commands.specs.declared.standing.Standing.{Standing};

/// The expression of a text is the one that it is written in, with at most 256 operands. A text has one at most.
pub fn expressions_are_written()
    ensures read { (text : List ℕ) (found : Expression) → expression_of text ≡ Some found
        → IsRead (chars text) found.paths found.meaning × (length found.paths ≤ 256) }
    ensures written { (text : List ℕ) (paths : List (List (List ℕ))) (meaning : Tree)
        → IsRead (chars text) paths meaning → length paths ≤ 256
        → expression_of text ≡ Some (record { paths = paths; meaning = meaning }) }
{}

/// A line that opens no action is bad just where its first word may not stand there, or where it is of no form.
pub fn lines_are_bad_by_a_cause()
    ensures bad { (standing : Standing) (text : List ℕ) → request_of standing text ≡ bad → IsBadLine standing text }
    ensures cause { (standing : Standing) (text : List ℕ) → IsBadLine standing text → request_of standing text ≡ bad }
{}
