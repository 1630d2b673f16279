//! The names that are bound inside an expression.
ghost use Rattle.std.specs.Prelude.{◌≡◌, ◌++◌, ◌∷◌, [], OnOk, length, take, ◌-◌};
ghost use Rattle.df_inline.specs.Bindings.{standing_at};

use df_flattened::standing::Standing;
use df_names::NameMap;
use df_values::memory::Memory;
use df_values::name::Name;
use std::alloc::Global;
use std::marker::Model;

/// A name that is bound inside an expression, with what it stands for.
#[derive(Clone, Copy)]
pub struct Binding {
    /// The name.
    pub name: Name,
    /// What it stands for.
    pub standing: Standing,
}

/// A binding, with what its name stood for before.
#[derive(Clone, Copy)]
pub struct Remembered {
    /// The binding.
    pub binding: Binding,
    /// What the last binding of the same name before it stands for, if there is one.
    pub before: Option<Standing>,
}

/// The bindings that an expression sees, in order.
///
/// Beside the list stands what each name stands for by its last binding, so that a look-up takes a number of steps that
/// grows with the logarithm of the number of bindings.
#[derive(Drop)]
pub struct Names {
    bindings: Vec<Remembered>,
    standings: NameMap<Standing>,
}

impl Model for Names {
    ghost use Rattle.std.specs.Prelude.{List};
    ghost use Rattle.df_names.specs.Found.{names_of};
    ghost use Rattle.df_inline.specs.declared.names.Binding.{Binding};
    ghost use Rattle.df_inline.specs.Bindings.{AreStandings, AreRemembered, bindings_of};

    ghost Value = { List Binding };

    ghost view = { λ l. bindings_of l.bindings.items };

    ghost invariant = { λ l. AreStandings (bindings_of l.bindings.items) (names_of l.standings) × AreRemembered l.bindings.items };
}

impl Names {
    /// No binding.
    pub fn new(alloc: Global) -> Names
        ensures { result ≡ [] }
    {
        Names {
            bindings: Vec::new(alloc),
            standings: NameMap::new(alloc),
        }
    }

    /// How many bindings there are.
    pub fn len(&self) -> usize
        ensures { result ≡ length self.now }
    {
        self.bindings.len()
    }

    /// What the last binding of a name stands for.
    pub fn get(&self, name: &Name) -> Option<Standing>
        ensures { result ≡ standing_at self.now name.now }
    {
        self.standings.get(name)
    }

    /// Adds a binding as the last one.
    pub fn push(&mut self, binding: Binding) -> Result<(), Memory>
        ensures { OnOk result (self.new ≡ self.old ++ binding ∷ []) }
    {
        let before = self.standings.get(&binding.name);
        self.bindings.push(Remembered { binding, before })?;
        if let Err(refused) = self.standings.bind(binding.name, binding.standing) {
            self.bindings.pop();
            return Err(refused);
        }
        Ok(())
    }

    /// Takes the last binding away, if there is one: its name stands for what it stood for before.
    fn pop(&mut self) -> Result<(), Memory>
        ensures { OnOk result (self.new ≡ take (length self.old - 1) self.old) }
    {
        let Some(last) = self.bindings.last().copied() else {
            return Ok(());
        };
        match last.before {
            Some(standing) => self.standings.bind(last.binding.name, standing)?,
            None => self.standings.unbind(&last.binding.name),
        }
        self.bindings.pop();
        Ok(())
    }

    /// Keeps the first bindings, so many, and takes the others away.
    pub fn truncate(&mut self, count: usize) -> Result<(), Memory>
        ensures { OnOk result (self.new ≡ take count self.old) }
    {
        while self.len() > count {
            self.pop()?;
        }
        Ok(())
    }
}
