//! What a line of a script asks for where its form has words, paths and texts alone.
//! The plain types that lines are read into.
use fx_base::{List, Str, Text};

/// A path of names is a list of identifiers; numbers and other words stay as they are written.
#[derive(Drop)]
pub enum Instruction {
    /// `prop NAME int|bool|text REST` declares a free property.
    Prop(Text, Text, Str),
    /// `set NAME REST`
    Set(List<Text>, Str),
    /// `get NAME`
    Get(List<Text>),
    /// `unbind NAME`
    Unbind(List<Text>),
    /// `pair NAME NAME`
    Pair(List<Text>, List<Text>),
    /// `unpair NAME NAME`
    Unpair(List<Text>, List<Text>),
    /// `owner LABEL`
    Owner(Text),
    /// `release LABEL`
    Release(Text),
    /// `listen invalid|change NAME [LABEL]`
    Listen(Text, List<Text>, Option<Text>),
    /// `unlisten invalid|change NAME [LABEL]`
    Unlisten(Text, List<Text>, Option<Text>),
    /// `watch invalid|change NAME ACTION [LABEL]`
    Watch(Text, List<Text>, Text, Option<Text>),
    /// `unwatch invalid|change NAME ACTION [LABEL]`
    Unwatch(Text, List<Text>, Text, Option<Text>),
    /// `new CLASS ID`
    New(Text, Text),
    /// `attach PARENT CHILD PLACE`, the place a number or an edge in lower case
    Attach(List<Text>, List<Text>, Text),
    /// `detach ID`
    Detach(List<Text>),
    /// `drop ID`
    Drop(List<Text>),
    /// `class ID WORD`
    Class(List<Text>, Text),
    /// `unclass ID WORD`
    Unclass(List<Text>, Text),
    /// `style ID REST`
    Style(List<Text>, Str),
    /// `pseudo ID WORD on|off`
    Pseudo(List<Text>, Text, Text),
    /// `constrain ID CLASS.PROPERTY REST`
    Constrain(List<Text>, Text, Str),
    /// `explain ID NAME`
    Explain(List<Text>, Text),
    /// `handle ID EVENT ACTION`
    Handle(List<Text>, Text, Text),
    /// `filter ID EVENT ACTION`
    Filter(List<Text>, Text, Text),
    /// `say REST`
    Say(Str),
    /// `consume`
    Consume,
    /// `move X Y`
    Move(Text, Text),
    /// `press`
    Press,
    /// `release-button`
    ReleaseButton,
    /// `key WORD`
    Key(Text),
    /// `focus ID`
    Focus(List<Text>),
    /// `tab`
    Tab,
    /// `backtab`
    Backtab,
    /// `resize W H`
    Resize(Text, Text),
    /// `pulse`
    Pulse,
    /// `timeline LABEL COUNT [reverse]`
    Timeline(Text, Text, bool),
    /// `keyframe LABEL MS NAME REST`
    Keyframe(Text, Text, List<Text>, Str),
    /// `play LABEL`
    Play(Text),
    /// `stop LABEL`
    Stop(Text),
    /// `tick MS`
    Tick(Text),
}
