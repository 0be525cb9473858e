//! `prop`: free properties.
ghost use Rattle.std.specs.Prelude.{◌≡◌, None, IfOk, IsTrue, false};
ghost use Rattle.std.specs.Map.{lookup};
ghost use Rattle.std.specs.Str.{bytes_eq};
ghost use Rattle.fx_base.specs.Printing.{kind_of};
ghost use Rattle.fx_look.specs.Readings.{value_at};
ghost use Rattle.fx_stage_model.specs.Properties as spec;
ghost use Rattle.fx_stage_model.specs.Taking.{IsTaken};

use crate::stage::Stage;
use fx_base::{Text, Value};
use fx_stage_parts::{has_free, has_no_room, kind_named};
use fx_stage_types::{Outcome, Refusal, StageError};
use fx_stage_words::{nothing, read};
use std::alloc::{AllocError, Global};

impl Stage {
    /// `prop NAME KIND REST`: a free property of this kind has the value that the text spells.
    #[tactic(auto, unfolding(fx_stage_model::specs::Properties::declare))]
    pub fn declare(
        &mut self,
        alloc: Global,
        name: &Text,
        kind: &Text,
        text: &str,
    ) -> Result<Outcome, StageError>
        ensures { IsTaken (spec.declare name.now kind.now text.now self.old) self.old self.new result }
    {
        let value = match read(alloc, kind_named(kind), text) {
            Ok(Some(value)) => value,
            Ok(None) => return Err(StageError::Refused(Refusal::Value)),
            Err(_) => return Err(StageError::Memory),
        };
        if has_free(&self.free, name) {
            return Err(StageError::Refused(Refusal::Exists));
        }
        if has_no_room(&self.free, &self.store) {
            return Err(StageError::Refused(Refusal::Full));
        }
        let Ok(name) = name.copy(alloc) else {
            return Err(StageError::Memory);
        };
        self.add_free(alloc, name, value)
    }

    /// Declares the property, whose name is new.
    fn add_free(&mut self, alloc: Global, name: Text, value: Value) -> Result<Outcome, StageError>
        requires new { lookup (bytes_eq name) self.old.names.free ≡ None }
        requires room { spec.has_no_room self.old ≡ false }
        ensures { IsTaken (spec.declared name (kind_of value) value self.old) self.old self.new result }
    {
        let Ok(property) = self.store.declare(alloc, value.kind(), false, value) else {
            return Err(StageError::Memory);
        };
        let Ok(()) = self.free.add(name, property) else {
            return Err(StageError::Memory);
        };
        Ok(nothing(alloc))
    }
}
