//! What the words of a command line say, one after another: positionals, values of options, and `--summary`.
//! Between the single words and the run that they ask for.
ghost use Rattle.std.specs.Prelude.{◌≡◌, ◌<◌, ◌^◌, ◌-◌, [], ◌∷◌, IfOk, OnOk};
ghost use Rattle.std.specs.Option.{option_map};
ghost use Rattle.fx_words.specs.Asking.{no_arguments, with_positionals, with_value};
ghost use Rattle.fx_words.specs.Held.{arguments_in, state_in};
ghost use Rattle.fx_words.specs.Reading.{at_end, ended, read, step, texts, value_behind, word_step};

use crate::runs::{Frames, Size};
use crate::sorts::{Awaits, Setting, Sort, sort_of};
use crate::values::{frames_of, size_of};
use fx_base::Str;
use std::alloc::{AllocError, Global};

#[derive(Drop)]
pub(crate) struct Arguments {
    pub(crate) positionals: Vec<Str>,
    pub(crate) sizes: Vec<Option<Size>>,
    pub(crate) frames: Vec<Option<Frames>>,
    pub(crate) summaries: usize,
}

/// What the words say, unless one of them is none of a command line.
pub(crate) fn read_arguments(
    alloc: Global,
    words: &[String],
) -> Result<Option<Arguments>, AllocError>
    ensures { IfOk result (λ arguments. option_map arguments_in arguments ≡ ended (read (texts words.now))) }
{
    let mut arguments = Arguments::new(alloc);
    let mut awaits = Awaits::Any;
    for word in words {
        match arguments.take(alloc, word.as_str(), awaits)? {
            Some(next) => awaits = next,
            None => return Ok(None),
        }
    }
    Ok(arguments.ended(awaits))
}

impl Arguments {
    fn new(alloc: Global) -> Arguments
        ensures { arguments_in result ≡ no_arguments }
    {
        Arguments {
            positionals: Vec::new(alloc),
            sizes: Vec::new(alloc),
            frames: Vec::new(alloc),
            summaries: 0,
        }
    }

    /// Takes the next word. The answer is what is due behind it, or nothing where it is no word of a command line.
    fn take(
        &mut self,
        alloc: Global,
        word: &str,
        awaits: Awaits,
    ) -> Result<Option<Awaits>, AllocError>
        requires { self.old.summaries < 2 ^ 64 - 1 }
        ensures { IfOk result (λ next. option_map (state_in self.new) next ≡
            step (arguments_in self.old) word.now awaits) }
    {
        match awaits {
            Awaits::Any => self.take_word(alloc, word, sort_of(word.as_bytes())),
            Awaits::Value(setting) => {
                self.take_value(setting, word.as_bytes())?;
                Ok(Some(Awaits::Any))
            }
            Awaits::Positionals => {
                self.take_positional(alloc, word)?;
                Ok(Some(Awaits::Positionals))
            }
        }
    }

    fn take_word(
        &mut self,
        alloc: Global,
        word: &str,
        sort: Sort,
    ) -> Result<Option<Awaits>, AllocError>
        requires { self.old.summaries < 2 ^ 64 - 1 }
        ensures { IfOk result (λ next. option_map (state_in self.new) next ≡
            word_step (arguments_in self.old) word.now sort) }
    {
        match sort {
            Sort::Plain => self.take_positional(alloc, word)?,
            Sort::End => return Ok(Some(Awaits::Positionals)),
            Sort::Summary => self.summaries += 1,
            Sort::Apart(setting) => return Ok(Some(Awaits::Value(setting))),
            Sort::Joined(setting) => self.take_value(
                setting,
                value_behind(setting, word.as_bytes()),
            )?,
            Sort::Unknown => return Ok(None),
        }
        Ok(Some(Awaits::Any))
    }

    fn take_positional(&mut self, alloc: Global, word: &str) -> Result<(), AllocError>
        ensures { OnOk result (arguments_in self.new ≡ with_positionals (arguments_in self.old) (word.now ∷ [])) }
    {
        let word = Str::from_string(String::from_str(alloc, word)?);
        self.positionals.push(word)?;
        Ok(())
    }

    fn take_value(&mut self, setting: Setting, value: &[u8]) -> Result<(), AllocError>
        ensures { OnOk result (arguments_in self.new ≡ with_value (arguments_in self.old) setting value.now) }
    {
        match setting {
            Setting::Size => self.sizes.push(size_of(value))?,
            Setting::Frames => self.frames.push(frames_of(value))?,
        }
        Ok(())
    }

    /// All that was said, unless a value is due.
    fn ended(self, awaits: Awaits) -> Option<Arguments>
        ensures { option_map arguments_in result ≡ at_end (arguments_in self) awaits }
    {
        match awaits {
            Awaits::Any | Awaits::Positionals => Some(self),
            Awaits::Value(_) => None,
        }
    }
}

/// What is behind the option's name and the `=`.
fn value_behind(setting: Setting, word: &[u8]) -> &[u8]
    ensures { result.now ≡ value_behind setting word.now }
{
    let front = setting.name().len() + 1;
    word.get(front..).unwrap_or(&[])
}
