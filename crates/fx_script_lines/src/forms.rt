//! What a line asks for, by its first word and the words behind it.
//! Between the words of a line and the script's lines.
ghost use Rattle.fx_script_lines.specs.Forms as spec;
ghost use Rattle.fx_script_lines.specs.Taking.{Gives};

use crate::instructions::Instruction;
use crate::keywords::{
    BondWord, FocusWord, FrameWord, InputWord, Keyword, ListenerWord, LookWord, NodeWord,
    PropertyWord, TimeWord, TreeWord, keyword_of,
};
use crate::shapes::Shape;
use crate::stops::Stop;
use crate::words::Words;
use std::alloc::Global;

/// What the words behind the first one ask for.
#[tactic(auto, unfolding(crate::specs::Forms::instruction_behind))]
pub fn instruction(words: &mut Words<'_>, alloc: Global, first: &[u8]) -> Result<Instruction, Stop>
    ensures { Gives result (spec.instruction_behind first.now words.old.left.now) }
{
    match keyword_of(first) {
        Some(keyword) => form(words, alloc, keyword),
        None => Err(Stop::Form),
    }
}

fn form(words: &mut Words<'_>, alloc: Global, keyword: Keyword) -> Result<Instruction, Stop>
    ensures { Gives result (spec.form keyword words.old.left.now) }
{
    match keyword {
        Keyword::Property(keyword) => property_line(words, alloc, keyword),
        Keyword::Bond(keyword) => bond_line(words, alloc, keyword),
        Keyword::Listener(keyword) => listener_line(words, alloc, keyword),
        Keyword::Tree(keyword) => tree_line(words, alloc, keyword),
        Keyword::Look(keyword) => look_line(words, alloc, keyword),
        Keyword::Node(keyword) => node_line(words, alloc, keyword),
        Keyword::Input(keyword) => input_line(words, alloc, keyword),
        Keyword::Focus(keyword) => focus_line(words, alloc, keyword),
        Keyword::Frame(keyword) => frame_line(words, alloc, keyword),
        Keyword::Time(keyword) => time_line(words, alloc, keyword),
    }
}

#[tactic(auto, unfolding(crate::specs::Forms::property))]
fn property_line(
    words: &mut Words<'_>,
    alloc: Global,
    keyword: PropertyWord,
) -> Result<Instruction, Stop>
    ensures { Gives result (spec.property keyword words.old.left.now) }
{
    match keyword {
        PropertyWord::Prop => {
            let (name, kind, rest) = words.two_words_and_rest(
                alloc,
                Shape::Identifier,
                Shape::Kind,
            )?;
            Ok(Instruction::Prop(name, kind, rest))
        }
        PropertyWord::Set => {
            let (path, rest) = words.path_and_rest(alloc)?;
            Ok(Instruction::Set(path, rest))
        }
        PropertyWord::Get => Ok(Instruction::Get(words.path_alone(alloc)?)),
        PropertyWord::Unbind => Ok(Instruction::Unbind(words.path_alone(alloc)?)),
    }
}

#[tactic(auto, unfolding(crate::specs::Forms::bond))]
fn bond_line(words: &mut Words<'_>, alloc: Global, keyword: BondWord) -> Result<Instruction, Stop>
    ensures { Gives result (spec.bond keyword words.old.left.now) }
{
    match keyword {
        BondWord::Pair => {
            let (one, other) = words.two_paths(alloc)?;
            Ok(Instruction::Pair(one, other))
        }
        BondWord::Unpair => {
            let (one, other) = words.two_paths(alloc)?;
            Ok(Instruction::Unpair(one, other))
        }
        BondWord::Owner => Ok(Instruction::Owner(words.word_alone(alloc, Shape::Identifier)?)),
        BondWord::Release => Ok(Instruction::Release(words.word_alone(alloc, Shape::Identifier)?)),
    }
}

#[tactic(auto, unfolding(crate::specs::Forms::listener))]
fn listener_line(
    words: &mut Words<'_>,
    alloc: Global,
    keyword: ListenerWord,
) -> Result<Instruction, Stop>
    ensures { Gives result (spec.listener keyword words.old.left.now) }
{
    match keyword {
        ListenerWord::Listen => {
            let (notice, path, label) = words.notice_of(alloc)?;
            Ok(Instruction::Listen(notice, path, label))
        }
        ListenerWord::Unlisten => {
            let (notice, path, label) = words.notice_of(alloc)?;
            Ok(Instruction::Unlisten(notice, path, label))
        }
        ListenerWord::Watch => {
            let (notice, path, action, label) = words.watch_of(alloc)?;
            Ok(Instruction::Watch(notice, path, action, label))
        }
        ListenerWord::Unwatch => {
            let (notice, path, action, label) = words.watch_of(alloc)?;
            Ok(Instruction::Unwatch(notice, path, action, label))
        }
    }
}

#[tactic(auto, unfolding(crate::specs::Forms::tree))]
fn tree_line(words: &mut Words<'_>, alloc: Global, keyword: TreeWord) -> Result<Instruction, Stop>
    ensures { Gives result (spec.tree keyword words.old.left.now) }
{
    match keyword {
        TreeWord::New => {
            let (first, second) = words.two_words(alloc, Shape::Any, Shape::Identifier)?;
            Ok(Instruction::New(first, second))
        }
        TreeWord::Attach => {
            let (parent, child, place) = words.two_paths_and_place(alloc)?;
            Ok(Instruction::Attach(parent, child, place))
        }
        TreeWord::Detach => Ok(Instruction::Detach(words.path_alone(alloc)?)),
        TreeWord::Drop => Ok(Instruction::Drop(words.path_alone(alloc)?)),
    }
}

#[tactic(auto, unfolding(crate::specs::Forms::look))]
fn look_line(words: &mut Words<'_>, alloc: Global, keyword: LookWord) -> Result<Instruction, Stop>
    ensures { Gives result (spec.look keyword words.old.left.now) }
{
    match keyword {
        LookWord::Class => {
            let (path, word) = words.path_and_word(alloc, Shape::Any)?;
            Ok(Instruction::Class(path, word))
        }
        LookWord::Unclass => {
            let (path, word) = words.path_and_word(alloc, Shape::Any)?;
            Ok(Instruction::Unclass(path, word))
        }
        LookWord::Style => {
            let (path, rest) = words.path_and_rest(alloc)?;
            Ok(Instruction::Style(path, rest))
        }
        LookWord::Pseudo => {
            let (path, word, last) = words.path_and_two_words(alloc, Shape::Switch)?;
            Ok(Instruction::Pseudo(path, word, last))
        }
    }
}

#[tactic(auto, unfolding(crate::specs::Forms::node))]
fn node_line(words: &mut Words<'_>, alloc: Global, keyword: NodeWord) -> Result<Instruction, Stop>
    ensures { Gives result (spec.node keyword words.old.left.now) }
{
    match keyword {
        NodeWord::Constrain => {
            let (path, word, rest) = words.path_word_and_rest(alloc)?;
            Ok(Instruction::Constrain(path, word, rest))
        }
        NodeWord::Explain => {
            let (path, word) = words.path_and_word(alloc, Shape::Ident)?;
            Ok(Instruction::Explain(path, word))
        }
        NodeWord::Handle => {
            let (path, word, last) = words.path_and_two_words(alloc, Shape::Identifier)?;
            Ok(Instruction::Handle(path, word, last))
        }
        NodeWord::Filter => {
            let (path, word, last) = words.path_and_two_words(alloc, Shape::Identifier)?;
            Ok(Instruction::Filter(path, word, last))
        }
    }
}

#[tactic(auto, unfolding(crate::specs::Forms::input))]
fn input_line(words: &mut Words<'_>, alloc: Global, keyword: InputWord) -> Result<Instruction, Stop>
    ensures { Gives result (spec.input keyword words.old.left.now) }
{
    match keyword {
        InputWord::Move => {
            let (first, second) = words.two_words(alloc, Shape::Integer, Shape::Integer)?;
            Ok(Instruction::Move(first, second))
        }
        InputWord::Press => {
            words.end()?;
            Ok(Instruction::Press)
        }
        InputWord::ReleaseButton => {
            words.end()?;
            Ok(Instruction::ReleaseButton)
        }
        InputWord::Key => Ok(Instruction::Key(words.word_alone(alloc, Shape::Any)?)),
    }
}

#[tactic(auto, unfolding(crate::specs::Forms::focus))]
fn focus_line(words: &mut Words<'_>, alloc: Global, keyword: FocusWord) -> Result<Instruction, Stop>
    ensures { Gives result (spec.focus keyword words.old.left.now) }
{
    match keyword {
        FocusWord::Focus => Ok(Instruction::Focus(words.path_alone(alloc)?)),
        FocusWord::Tab => {
            words.end()?;
            Ok(Instruction::Tab)
        }
        FocusWord::Backtab => {
            words.end()?;
            Ok(Instruction::Backtab)
        }
    }
}

#[tactic(auto, unfolding(crate::specs::Forms::frame))]
fn frame_line(words: &mut Words<'_>, alloc: Global, keyword: FrameWord) -> Result<Instruction, Stop>
    ensures { Gives result (spec.frame keyword words.old.left.now) }
{
    match keyword {
        FrameWord::Resize => {
            let (first, second) = words.two_words(alloc, Shape::Integer, Shape::Integer)?;
            Ok(Instruction::Resize(first, second))
        }
        FrameWord::Pulse => {
            words.end()?;
            Ok(Instruction::Pulse)
        }
        FrameWord::Say => Ok(Instruction::Say(words.rest_alone(alloc)?)),
        FrameWord::Consume => {
            words.end()?;
            Ok(Instruction::Consume)
        }
    }
}

#[tactic(auto, unfolding(crate::specs::Forms::time))]
fn time_line(words: &mut Words<'_>, alloc: Global, keyword: TimeWord) -> Result<Instruction, Stop>
    ensures { Gives result (spec.time keyword words.old.left.now) }
{
    match keyword {
        TimeWord::Timeline => {
            let (name, count, reverse) = words.timeline_of(alloc)?;
            Ok(Instruction::Timeline(name, count, reverse))
        }
        TimeWord::Keyframe => {
            let (name, time, path, rest) = words.keyframe_of(alloc)?;
            Ok(Instruction::Keyframe(name, time, path, rest))
        }
        TimeWord::Play => Ok(Instruction::Play(words.word_alone(alloc, Shape::Identifier)?)),
        TimeWord::Stop => Ok(Instruction::Stop(words.word_alone(alloc, Shape::Identifier)?)),
        TimeWord::Tick => Ok(Instruction::Tick(words.word_alone(alloc, Shape::Integer)?)),
    }
}
