//! A value for each Packet Identifier.
ghost use Rattle.std.specs.Prelude.{ℕ, ◌≡◌, ◌==◌, cond, IfOk};
ghost use Rattle.mq_plain.specs.Tables.{at};

use mq_rules::Memory;
use std::alloc::Global;
use std::marker::Model;

/// A value for each Packet Identifier.
#[derive(Drop)]
pub struct Table<T: Copy> {
    // One value for each identifier, 65,536 in all.
    values: Vec<T>,
    initial: T,
}

impl<T: Copy> Model for Table<T> {
    ghost use Rattle.std.specs.Prelude.{◌≡◌, List, length};

    ghost Value = { T × List T };

    ghost view = { λ t. (t.initial, t.values.items) };

    ghost invariant = { λ t. length t.values.items ≡ 65536 };
}

impl<T: Copy> Table<T> {
    /// The same value for each identifier.
    ///
    /// # Errors
    ///
    /// `Memory` if there is no memory for them.
    #[tactic(auto, using(crate::proofs::TableLaws::of_replicate, crate::proofs::TableLaws::one_more))]
    pub fn new(alloc: Global, initial: T) -> Result<Self, Memory>
        ensures { IfOk result (λ table. (i : ℕ) → at table i ≡ initial) }
    {
        let mut values = Vec::with_capacity(alloc, 65_536)?;
        for _ in 0..65_536_u32 {
            values.push(initial)?;
        }
        Ok(Table { values, initial })
    }

    /// The value of an identifier.
    pub fn get(&self, identifier: u16) -> T
        ensures { result ≡ at self.now identifier }
    {
        self.values[usize::from(identifier)]
    }

    /// Sets the value of an identifier.
    pub fn set(&mut self, identifier: u16, value: T)
        ensures { (i : ℕ) → at self.new i ≡ cond (i == identifier) value (at self.old i) }
    {
        self.values[usize::from(identifier)] = value;
    }
}
