//! Topic Aliases of a Network Connection (MQTT 5.0, 3.3.2.3.4).
ghost use Rattle.std.specs.Prelude.{◌≡◌, ◌<◌, length, option_map, string_bytes, IfOk, OnOk, OnErr};
ghost use Rattle.std.specs.FinMap as map;

use std::alloc::{AllocError, AllocFailed, Global};
use std::collections::BTreeMap;
use std::marker::Model;

/// An allocation failed: there is no memory left.
#[derive(Clone, Copy, Debug, PartialEq, Eq)]
pub struct Memory;

impl<T: Drop> From<AllocFailed<T>> for Memory {
    fn from(_: AllocFailed<T>) -> Self {
        Memory
    }
}

impl From<AllocError> for Memory {
    fn from(_: AllocError) -> Self {
        Memory
    }
}

/// A Topic Name that the table owns. A contract sees the bytes of its UTF-8 encoding.
#[derive(Drop)]
struct Topic {
    name: String,
}

impl Model for Topic {
    ghost use Rattle.std.specs.Prelude.{List, ℕ, string_bytes};

    ghost Value = { List ℕ };

    ghost view = { λ t. string_bytes t.name };
}

impl Topic {
    // A copy of the name.
    fn of(alloc: Global, name: &str) -> Result<Topic, Memory>
        ensures { IfOk result (λ copy. copy ≡ name.now) }
    {
        let mut copy = String::with_capacity(alloc, name.len())?;
        copy.push_str(name)?;
        Ok(Topic { name: copy })
    }

    // The name.
    fn as_str(&self) -> &str
        ensures { result.now ≡ self.now }
    {
        self.name.as_str()
    }
}

/// The Topic Name that was last set for each Topic Alias of one direction of a Network Connection
/// (MQTT 5.0, 3.3.2.3.4).
///
/// A contract sees the finite map from aliases to the bytes of names.
///
/// # Examples
///
/// ```
/// let mut aliases = AliasTable::new(rt.alloc());
/// assert_eq!(rt; aliases.set(1, "sport/tennis"), Ok(()));
/// assert_eq!(rt; aliases.get(1), Some("sport/tennis"));
/// assert_eq!(rt; aliases.get(2), None);
/// ```
#[derive(Drop)]
pub struct AliasTable {
    alloc: Global,
    topics: BTreeMap<u16, Topic>,
}

impl Model for AliasTable {
    ghost use Rattle.std.specs.Prelude.{List, ℕ};
    ghost use Rattle.std.specs.Ordering.{nat_cmp};
    ghost use Rattle.std.specs.FinMap as map;
    ghost use Rattle.std.specs.Coded.{coded_list, coded_ℕ};

    ghost Value = { map.FinMap nat_cmp (List ℕ) };

    ghost coded = { map.code coded_ℕ (coded_list coded_ℕ) };

    ghost view = { λ a. map.from_entries a.topics.entries };
}

impl AliasTable {
    /// A table in which no alias has a name. It takes no memory.
    pub fn new(alloc: Global) -> Self
        ensures { result ≡ map.empty }
    {
        AliasTable {
            alloc,
            topics: BTreeMap::new(alloc),
        }
    }

    /// Sets the Topic Name of an alias, in place of any earlier one.
    ///
    /// # Errors
    ///
    /// `Memory` if the memory for the name couldn't be allocated. The table is then unchanged.
    pub fn set(&mut self, alias: u16, topic: &str) -> Result<(), Memory>
        ensures ok { OnOk result (self.new ≡ map.insert self.old alias topic.now) }
        ensures unchanged { OnErr result (self.new ≡ self.old) }
    {
        let topic = Topic::of(self.alloc, topic)?;
        self.topics.insert(alias, topic)?;
        Ok(())
    }

    /// The Topic Name that was last set for an alias, if one was.
    pub fn get(&self, alias: u16) -> Option<&str>
        ensures { option_map (λ topic. topic.now) result ≡ map.get self.now alias }
    {
        match self.topics.get(&alias) {
            Some(topic) => Some(topic.as_str()),
            None => None,
        }
    }

    /// Forgets all names, as at the beginning of a Network Connection.
    pub fn clear(&mut self)
        ensures { self.new ≡ map.empty }
    {
        self.topics.clear();
    }
}
