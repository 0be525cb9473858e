//! What stands behind the first words of lines, up to the end of the line.
//! Several first words share one arrangement; forms.rt says which.
ghost use Rattle.fx_script_lines.specs.Taking as spec;
ghost use Rattle.fx_script_lines.specs.Taking.{Gives};
ghost use Rattle.fx_script_lines.specs.declared.shapes.Shape.TheVariants as shape;

use crate::shapes::Shape;
use crate::stops::Stop;
use crate::words::Words;
use fx_base::{List, Str, Text};
use std::alloc::Global;

impl Words<'_> {
    pub(crate) fn path_alone(&mut self, alloc: Global) -> Result<List<Text>, Stop>
        ensures { Gives result (spec.alone spec.path self.old.left.now) }
    {
        let path = self.path(alloc)?;
        self.end()?;
        Ok(path)
    }

    /// A word of this shape, and nothing behind it.
    pub fn word_alone(&mut self, alloc: Global, form: Shape) -> Result<Text, Stop>
        ensures { Gives result (spec.alone (spec.word form) self.old.left.now) }
    {
        let word = self.word(alloc, form)?;
        self.end()?;
        Ok(word)
    }

    pub(crate) fn rest_alone(&mut self, alloc: Global) -> Result<Str, Stop>
        ensures { Gives result (spec.alone spec.rest self.old.left.now) }
    {
        let rest = self.rest(alloc)?;
        self.end()?;
        Ok(rest)
    }

    pub(crate) fn path_and_rest(&mut self, alloc: Global) -> Result<(List<Text>, Str), Stop>
        ensures { Gives result (spec.pair spec.path spec.rest self.old.left.now) }
    {
        let path = self.path(alloc)?;
        let rest = self.rest(alloc)?;
        self.end()?;
        Ok((path, rest))
    }

    pub(crate) fn two_paths(&mut self, alloc: Global) -> Result<(List<Text>, List<Text>), Stop>
        ensures { Gives result (spec.pair spec.path spec.path self.old.left.now) }
    {
        let one = self.path(alloc)?;
        let other = self.path(alloc)?;
        self.end()?;
        Ok((one, other))
    }

    pub(crate) fn path_and_word(
        &mut self,
        alloc: Global,
        form: Shape,
    ) -> Result<(List<Text>, Text), Stop>
        ensures { Gives result (spec.pair spec.path (spec.word form) self.old.left.now) }
    {
        let path = self.path(alloc)?;
        let word = self.word(alloc, form)?;
        self.end()?;
        Ok((path, word))
    }

    pub(crate) fn two_words(
        &mut self,
        alloc: Global,
        first: Shape,
        second: Shape,
    ) -> Result<(Text, Text), Stop>
        ensures { Gives result (spec.pair (spec.word first) (spec.word second) self.old.left.now) }
    {
        let one = self.word(alloc, first)?;
        let other = self.word(alloc, second)?;
        self.end()?;
        Ok((one, other))
    }

    pub(crate) fn two_words_and_rest(
        &mut self,
        alloc: Global,
        first: Shape,
        second: Shape,
    ) -> Result<(Text, Text, Str), Stop>
        ensures { Gives result (spec.triple (spec.word first) (spec.word second) spec.rest self.old.left.now) }
    {
        let one = self.word(alloc, first)?;
        let other = self.word(alloc, second)?;
        let rest = self.rest(alloc)?;
        self.end()?;
        Ok((one, other, rest))
    }

    pub(crate) fn path_word_and_rest(
        &mut self,
        alloc: Global,
    ) -> Result<(List<Text>, Text, Str), Stop>
        ensures { Gives result (spec.triple spec.path (spec.word shape.Any) spec.rest self.old.left.now) }
    {
        let path = self.path(alloc)?;
        let word = self.word(alloc, Shape::Any)?;
        let rest = self.rest(alloc)?;
        self.end()?;
        Ok((path, word, rest))
    }

    pub(crate) fn path_and_two_words(
        &mut self,
        alloc: Global,
        second: Shape,
    ) -> Result<(List<Text>, Text, Text), Stop>
        ensures { Gives result (spec.triple spec.path (spec.word shape.Any) (spec.word second) self.old.left.now) }
    {
        let path = self.path(alloc)?;
        let one = self.word(alloc, Shape::Any)?;
        let other = self.word(alloc, second)?;
        self.end()?;
        Ok((path, one, other))
    }

    pub(crate) fn two_paths_and_place(
        &mut self,
        alloc: Global,
    ) -> Result<(List<Text>, List<Text>, Text), Stop>
        ensures { Gives result (spec.triple spec.path spec.path (spec.word shape.Place) self.old.left.now) }
    {
        let parent = self.path(alloc)?;
        let child = self.path(alloc)?;
        let place = self.word(alloc, Shape::Place)?;
        self.end()?;
        Ok((parent, child, place))
    }

    pub(crate) fn notice_of(
        &mut self,
        alloc: Global,
    ) -> Result<(Text, List<Text>, Option<Text>), Stop>
        ensures { Gives result (spec.triple (spec.word shape.Notice) spec.path spec.label self.old.left.now) }
    {
        let notice = self.word(alloc, Shape::Notice)?;
        let path = self.path(alloc)?;
        let label = self.label(alloc)?;
        self.end()?;
        Ok((notice, path, label))
    }

    pub(crate) fn watch_of(
        &mut self,
        alloc: Global,
    ) -> Result<(Text, List<Text>, Text, Option<Text>), Stop>
        ensures { Gives result (spec.quadruple (spec.word shape.Notice) spec.path (spec.word shape.Identifier)
            spec.label self.old.left.now) }
    {
        let notice = self.word(alloc, Shape::Notice)?;
        let path = self.path(alloc)?;
        let action = self.word(alloc, Shape::Identifier)?;
        let label = self.label(alloc)?;
        self.end()?;
        Ok((notice, path, action, label))
    }

    pub(crate) fn timeline_of(&mut self, alloc: Global) -> Result<(Text, Text, bool), Stop>
        ensures { Gives result (spec.triple (spec.word shape.Identifier) (spec.word shape.Count) spec.reverse
            self.old.left.now) }
    {
        let name = self.word(alloc, Shape::Identifier)?;
        let count = self.word(alloc, Shape::Count)?;
        let reverse = self.reverse()?;
        self.end()?;
        Ok((name, count, reverse))
    }

    pub(crate) fn keyframe_of(
        &mut self,
        alloc: Global,
    ) -> Result<(Text, Text, List<Text>, Str), Stop>
        ensures { Gives result (spec.quadruple (spec.word shape.Identifier) (spec.word shape.Integer) spec.path
            spec.rest self.old.left.now) }
    {
        let name = self.word(alloc, Shape::Identifier)?;
        let time = self.word(alloc, Shape::Integer)?;
        let path = self.path(alloc)?;
        let rest = self.rest(alloc)?;
        self.end()?;
        Ok((name, time, path, rest))
    }
}
