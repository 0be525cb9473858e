//! The words of a command line: what they ask for, as a relation, and the reader that finds it.
//! It stands between the program's words and the files that are fetched.
#![tactic(auto)]

ghost use Rattle.std.specs.Prelude.{◌≡◌, IfOk, IfSome};
ghost use Rattle.fx_words.specs.Asking.{IsNumbered};
ghost use Rattle.fx_words.specs.Reading.{accept, texts};

mod arguments;
mod asking;
mod laws;
mod runs;
mod sorts;
mod values;

use crate::arguments::read_arguments;
use crate::asking::run_of;
pub use laws::words_ask_in_one_way;
pub use runs::{Frames, Run, Size, Source};
use std::alloc::{AllocError, Global};

/// What is printed where the words ask for no run.
pub const USAGE: &str = "usage: fxplay SCENE SCRIPT [SHEET..] [--size WxH] \
[--frames text|ppm|none|delta] [--summary]\n";

/// The run that the words behind the program's name ask for, if they ask for one.
#[tactic(auto, unfolding(crate::specs::Reading::accept))]
pub fn accept(alloc: Global, words: &[String]) -> Result<Option<Run>, AllocError>
    ensures run { IfOk result (λ run. run ≡ accept (texts words.now)) }
    ensures numbered { IfOk result (λ run. IfSome run (λ asked. IsNumbered asked.source)) }
{
    match read_arguments(alloc, words)? {
        Some(arguments) => Ok(run_of(arguments)),
        None => Ok(None),
    }
}
