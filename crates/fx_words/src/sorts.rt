//! What a word of a command line is by itself.
//! The first look at each word; what it says is taken in arguments.rt.
ghost use Rattle.std.specs.Prelude.{◌≡◌};
ghost use Rattle.fx_words.specs.Asking.{is_plain, name_of};
ghost use Rattle.fx_words.specs.Reading.{sort_of};

/// An option that takes a value.
#[derive(Clone, Copy)]
pub(crate) enum Setting {
    Size,
    Frames,
}

impl Setting {
    pub(crate) fn name(self) -> &'static str
        ensures { result.now ≡ name_of self }
    {
        match self {
            Setting::Size => "--size",
            Setting::Frames => "--frames",
        }
    }
}

/// What a word is where neither a value is due nor all words are positionals.
#[derive(Clone, Copy)]
pub(crate) enum Sort {
    /// A positional.
    Plain,
    /// `--`, behind which all words are positionals.
    End,
    /// `--summary`.
    Summary,
    /// An option whose value is the word behind it.
    Apart(Setting),
    /// An option with its value behind a `=`.
    Joined(Setting),
    /// No word of a command line.
    Unknown,
}

/// What is due behind a word.
#[derive(Clone, Copy)]
pub(crate) enum Awaits {
    Any,
    Value(Setting),
    Positionals,
}

#[tactic(auto, unfolding(crate::specs::Reading::sort_of))]
pub(crate) fn sort_of(word: &[u8]) -> Sort
    ensures { result ≡ sort_of word.now }
{
    if is_plain(word) {
        Sort::Plain
    } else if word == b"--".as_slice() {
        Sort::End
    } else if word == b"--summary".as_slice() {
        Sort::Summary
    } else if word == b"--size".as_slice() {
        Sort::Apart(Setting::Size)
    } else if word == b"--frames".as_slice() {
        Sort::Apart(Setting::Frames)
    } else if word.starts_with(b"--size=") {
        Sort::Joined(Setting::Size)
    } else if word.starts_with(b"--frames=") {
        Sort::Joined(Setting::Frames)
    } else {
        Sort::Unknown
    }
}

fn is_plain(word: &[u8]) -> bool
    ensures { result ≡ is_plain word.now }
{
    !word.starts_with(b"-") || word == b"-".as_slice()
}
