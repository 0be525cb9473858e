//! That the words of a command line ask for what is read from them, and for nothing else.
//! The contract of a function with nothing in it.
ghost use Rattle.std.specs.Prelude.{◌≡◌, List, Some};
ghost use Rattle.fx_words.specs.Asking.{Asks, Word};
ghost use Rattle.fx_words.specs.Reading.{accept};
ghost use Rattle.fx_words.specs.declared.runs.Run.{Run};

/// The run that is read is asked for, and each run that is asked for is read. So no words ask for two runs.
pub fn words_ask_in_one_way()
    ensures asked { (words : List Word) (run : Run) → accept words ≡ Some run → Asks words run }
    ensures alone { (words : List Word) (run : Run) → Asks words run → accept words ≡ Some run }
{}
