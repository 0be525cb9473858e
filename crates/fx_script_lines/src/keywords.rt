//! The first words of lines, by what the lines are about.
//! Each word is looked up once, among those of its length; forms.rt reads what is behind it.
ghost use Rattle.std.specs.Prelude.{◌≡◌, map};
ghost use Rattle.std.specs.List.{find};
ghost use Rattle.std.specs.Option.{option_map};
ghost use Rattle.std.specs.Str.{bytes_eq};
ghost use Rattle.fx_script_lines.specs.Keywords as spec;

/// The first word of a line, by what the line is about.
#[derive(Clone, Copy)]
pub(crate) enum Keyword {
    Property(PropertyWord),
    Bond(BondWord),
    Listener(ListenerWord),
    Tree(TreeWord),
    Look(LookWord),
    Node(NodeWord),
    Input(InputWord),
    Focus(FocusWord),
    Frame(FrameWord),
    Time(TimeWord),
}

/// About the values of properties.
#[derive(Clone, Copy)]
pub(crate) enum PropertyWord {
    Prop,
    Set,
    Get,
    Unbind,
}

/// About pairs of properties, and owners.
#[derive(Clone, Copy)]
pub(crate) enum BondWord {
    Pair,
    Unpair,
    Owner,
    Release,
}

/// About listeners.
#[derive(Clone, Copy)]
pub(crate) enum ListenerWord {
    Listen,
    Unlisten,
    Watch,
    Unwatch,
}

/// About nodes and their parents.
#[derive(Clone, Copy)]
pub(crate) enum TreeWord {
    New,
    Attach,
    Detach,
    Drop,
}

/// About what nodes look like.
#[derive(Clone, Copy)]
pub(crate) enum LookWord {
    Class,
    Unclass,
    Style,
    Pseudo,
}

/// About constraints, where a value came from, and handlers.
#[derive(Clone, Copy)]
pub(crate) enum NodeWord {
    Constrain,
    Explain,
    Handle,
    Filter,
}

/// About the pointer and the keys.
#[derive(Clone, Copy)]
pub(crate) enum InputWord {
    Move,
    Press,
    ReleaseButton,
    Key,
}

/// About the focus.
#[derive(Clone, Copy)]
pub(crate) enum FocusWord {
    Focus,
    Tab,
    Backtab,
}

/// About frames, and what handlers do.
#[derive(Clone, Copy)]
pub(crate) enum FrameWord {
    Resize,
    Pulse,
    Say,
    Consume,
}

/// About timelines.
#[derive(Clone, Copy)]
pub(crate) enum TimeWord {
    Timeline,
    Keyframe,
    Play,
    Stop,
    Tick,
}

/// Each first word with what it says, by the number of its letters.
const THREE_LETTERS: [(&str, Keyword); 6] = [
    ("set", Keyword::Property(PropertyWord::Set)),
    ("get", Keyword::Property(PropertyWord::Get)),
    ("new", Keyword::Tree(TreeWord::New)),
    ("key", Keyword::Input(InputWord::Key)),
    ("tab", Keyword::Focus(FocusWord::Tab)),
    ("say", Keyword::Frame(FrameWord::Say)),
];

const FOUR_LETTERS: [(&str, Keyword); 7] = [
    ("prop", Keyword::Property(PropertyWord::Prop)),
    ("pair", Keyword::Bond(BondWord::Pair)),
    ("drop", Keyword::Tree(TreeWord::Drop)),
    ("move", Keyword::Input(InputWord::Move)),
    ("play", Keyword::Time(TimeWord::Play)),
    ("stop", Keyword::Time(TimeWord::Stop)),
    ("tick", Keyword::Time(TimeWord::Tick)),
];

const FIVE_LETTERS: [(&str, Keyword); 7] = [
    ("owner", Keyword::Bond(BondWord::Owner)),
    ("watch", Keyword::Listener(ListenerWord::Watch)),
    ("class", Keyword::Look(LookWord::Class)),
    ("style", Keyword::Look(LookWord::Style)),
    ("press", Keyword::Input(InputWord::Press)),
    ("focus", Keyword::Focus(FocusWord::Focus)),
    ("pulse", Keyword::Frame(FrameWord::Pulse)),
];

const SIX_LETTERS: [(&str, Keyword); 9] = [
    ("unbind", Keyword::Property(PropertyWord::Unbind)),
    ("unpair", Keyword::Bond(BondWord::Unpair)),
    ("listen", Keyword::Listener(ListenerWord::Listen)),
    ("attach", Keyword::Tree(TreeWord::Attach)),
    ("detach", Keyword::Tree(TreeWord::Detach)),
    ("pseudo", Keyword::Look(LookWord::Pseudo)),
    ("handle", Keyword::Node(NodeWord::Handle)),
    ("filter", Keyword::Node(NodeWord::Filter)),
    ("resize", Keyword::Frame(FrameWord::Resize)),
];

const SEVEN_LETTERS: [(&str, Keyword); 6] = [
    ("release", Keyword::Bond(BondWord::Release)),
    ("unwatch", Keyword::Listener(ListenerWord::Unwatch)),
    ("unclass", Keyword::Look(LookWord::Unclass)),
    ("explain", Keyword::Node(NodeWord::Explain)),
    ("backtab", Keyword::Focus(FocusWord::Backtab)),
    ("consume", Keyword::Frame(FrameWord::Consume)),
];

const EIGHT_LETTERS: [(&str, Keyword); 3] = [
    ("unlisten", Keyword::Listener(ListenerWord::Unlisten)),
    ("timeline", Keyword::Time(TimeWord::Timeline)),
    ("keyframe", Keyword::Time(TimeWord::Keyframe)),
];

const MORE_LETTERS: [(&str, Keyword); 2] = [
    ("constrain", Keyword::Node(NodeWord::Constrain)),
    ("release-button", Keyword::Input(InputWord::ReleaseButton)),
];

/// What this first word says, if a line can begin with it.
pub(crate) fn keyword_of(word: &[u8]) -> Option<Keyword>
    ensures { result ≡ spec.keyword_of word.now }
{
    match word.len() {
        0..=2 => None,
        3 => keyword_at(&THREE_LETTERS, word),
        4 => keyword_at(&FOUR_LETTERS, word),
        5 => keyword_at(&FIVE_LETTERS, word),
        6 => keyword_at(&SIX_LETTERS, word),
        7 => keyword_at(&SEVEN_LETTERS, word),
        8 => keyword_at(&EIGHT_LETTERS, word),
        9.. => keyword_at(&MORE_LETTERS, word),
    }
}

fn keyword_at(table: &[(&str, Keyword)], word: &[u8]) -> Option<Keyword>
    ensures { result ≡ spec.keyword_at (map (λ row. (row.0.now, row.1)) table.now) word.now }
{
    find_row(table, word)
}

fn find_row(table: &[(&str, Keyword)], word: &[u8]) -> Option<Keyword>
    ensures { result ≡ option_map (λ row. row.1) (find (λ row. bytes_eq row.0.now word.now) table.now) }
{
    table
        .iter()
        .find(|row| row.0.as_bytes() == word)
        .map(|row| row.1)
}
