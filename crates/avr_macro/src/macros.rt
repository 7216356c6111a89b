//! The macros that are defined.

ghost use Rattle.std.specs.Prelude.{◌≡◌, IfSome, OnErr, OnOk, Some};
ghost use Rattle.std.specs.Option.{option_map};
ghost use Rattle.std.specs.FinMap as finmap;
ghost use Rattle.avr_macro.specs.Macros.{seen_macro};

use crate::bodies::{Macro, Template};
use std::alloc::{AllocError, Global};
use std::collections::BTreeMap;
use std::marker::Model;

/// Names of macros with their bodies, each name once. Case counts.
///
/// A clause sees a finite map from names to lines.
#[derive(Drop)]
pub(crate) struct Macros {
    bodies: BTreeMap<Vec<u8>, Macro>,
}

impl Model for Macros {
    ghost use Rattle.std.specs.Prelude.{List, ℕ};
    ghost use Rattle.std.specs.Ordering.{nat_cmp};
    ghost use Rattle.std.specs.Cmp.Lexicographic.{slice_cmp};
    ghost use Rattle.std.specs.Coded.{coded_ℕ, coded_list};
    ghost use Rattle.std.specs.FinMap as map;
    ghost use Rattle.avr_macro.specs.Macros.{named};

    ghost Value = { map.FinMap (slice_cmp nat_cmp) (List (List ℕ)) };

    ghost coded = { map.code (coded_list coded_ℕ) (coded_list (coded_list coded_ℕ)) };

    ghost view = { λ macros. map.from_entries (named macros.bodies.entries) };
}

impl Macros {
    /// None.
    pub fn new(alloc: Global) -> Macros
        ensures { result ≡ finmap.empty }
    {
        Macros {
            bodies: BTreeMap::new(alloc),
        }
    }

    /// The body of a macro, and None exactly where none has that name.
    pub fn get(&self, name: &[u8]) -> Option<&Macro>
        ensures { option_map (λ body. seen_macro body.now) result ≡ finmap.get self.now name.now }
    {
        self.bodies.get(name)
    }

    /// Defines a macro. After want of memory nothing is changed.
    pub fn define(&mut self, alloc: Global, name: &[u8], body: Macro) -> Result<(), AllocError>
        ensures ok { OnOk result (self.new ≡ finmap.insert self.old name.now (seen_macro body)) }
        ensures err { OnErr result (self.new ≡ self.old) }
    {
        let name = Vec::from_slice(alloc, name)?;
        self.bodies.insert(name, body)?;
        Ok(())
    }

    /// Keeps the lines of a macro, which were made for a call.
    #[tactic(auto, using(crate::proofs::MacroMaps::same_body))]
    pub fn keep(
        &mut self,
        alloc: Global,
        name: &[u8],
        made: Option<Template>,
    ) -> Result<(), AllocError>
        requires { IfSome made (λ template. finmap.get self.old name.now ≡ Some template.text.value.lines) }
        ensures { self.new ≡ self.old }
    {
        match made {
            Some(template) => self.define(alloc, name, Macro::Template(template)),
            None => Ok(()),
        }
    }
}
