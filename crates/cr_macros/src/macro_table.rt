//! The macros that are defined.
ghost use Rattle.std.specs.Prelude.{◌≡◌, ◌≤◌, [], None, IsSome, OnOk, IfErr, OnErr, length};
ghost use Rattle.std.specs.Option.{option_copied};
ghost use Rattle.cr_macros.specs.Definition.{starts_at, IsPlaced, IsFirstPlaced};
ghost use Rattle.cr_macros.specs.MacroTables.{macro_named, Sets, Defines, IsRefused};

use crate::definition::definition;
use crate::fault::ExpandFault;
use crate::macros::Macro;
use cr_base::{Name, NameTable, Origin, Place, PpTok};
use indexmap::IndexMap;
use std::alloc::Global;
use std::marker::Model;

/// The macros that are defined. Contracts see it as the list of their names, each with its macro.
#[derive(Drop)]
pub struct MacroTable {
    alloc: Global,
    macros: IndexMap<Name, Macro>,
}

impl Model for MacroTable {
    ghost use Rattle.std.specs.Prelude.{List};
    ghost use Rattle.cr_macros.specs.MacroTables.{Macros};

    ghost Value = { Macros };

    ghost view = { λ t. t.macros.entries };
}

// The place of a token that wasn't made.
fn place_of(t: PpTok) -> Place
    requires { IsPlaced t.origin }
    ensures { t.origin ≡ Origin.At result }
{
    match t.origin {
        Origin::At(place) => place,
        Origin::Made => unreachable!(),
    }
}

impl MacroTable {
    /// No macros.
    pub fn new(alloc: Global) -> MacroTable
        ensures { result ≡ [] }
    {
        MacroTable {
            alloc,
            macros: IndexMap::new(alloc),
        }
    }

    /// Carries a `define` line out, given from its `#` to the line's end: its macro takes the place
    /// of one of that name, whatever its body (C11 6.10.3).
    ///
    /// `BadDefine` at the place of the `#`: the name is no identifier, or `defined`, or predefined;
    /// the parameters aren't distinct identifiers with `...` at most at the end; `##` is at an end of
    /// the body; a `#` of a function-like body isn't before a parameter; or `__VA_ARGS__` stands
    /// elsewhere than in the body of a variadic macro. A refused line changes nothing.
    pub fn define(&mut self, names: &NameTable, line: &[PpTok]) -> Result<(), ExpandFault>
        requires words { 2 ≤ length line.now }
        requires placed { IsFirstPlaced line.now }
        ensures defines { OnOk result (Defines names.now line.now self.old self.new) }
        ensures refused { IfErr result (λ fault. IsRefused names.now line.now fault) }
        ensures kept { OnErr result (self.new ≡ self.old) }
    {
        match definition(self.alloc, names, line)? {
            None => Err(ExpandFault::BadDefine(place_of(line[0]))),
            Some(found) => {
                self.macros.insert(found.name, found)?;
                Ok(())
            }
        }
    }

    /// Takes the macro of a name away, if there is one (C11 6.10.3.5).
    pub fn undefine(&mut self, name: Name)
        ensures { Sets self.old name None self.new }
    {
        let _ = self.macros.swap_remove(&name);
    }

    /// The macro of a name.
    pub fn lookup(&self, name: Name) -> Option<&Macro>
        ensures { option_copied result ≡ macro_named name self.now }
    {
        self.macros.get(&name)
    }
}
