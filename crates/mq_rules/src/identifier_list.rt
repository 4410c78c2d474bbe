//! The Subscription Identifiers of a PUBLISH, as notes have them.
//!
//! Most have one, or none: it is stored in the value itself, and takes no memory of its own.
ghost use Rattle.std.specs.Prelude.{◌≡◌, IfOk};
ghost use Rattle.mq_props.specs.Props.{prop_view};
ghost use Rattle.mq_rules.specs.Notes.{identifier_in};

use crate::faults::Memory;
use mq_props::{Prop, Props};
use std::alloc::Global;
use std::marker::Model;
use std::slice;

/// Where the identifiers of a list are.
#[derive(Debug, Drop)]
enum IdentifierForm {
    Few(Option<u32>),
    Many(Vec<u32>),
}

/// The Subscription Identifiers of a PUBLISH, in order (MQTT 5.0, section 3.3.2.3.8).
#[derive(Debug, Drop)]
pub struct IdentifierList {
    form: IdentifierForm,
}

impl Model for IdentifierList {
    ghost use Rattle.std.specs.Prelude.{List, ℕ};
    ghost use Rattle.mq_rules.specs.Lists.{form_identifiers, AreFewOrSome};

    ghost Value = { List ℕ };

    ghost view = { λ l. form_identifiers l.form };

    ghost invariant = { λ l. AreFewOrSome l.form };
}

// The number, if the property is a Subscription Identifier.
fn identifier_of(property: Prop<'_>) -> Option<u32>
    ensures { result ≡ identifier_in (prop_view property.entry) }
{
    match property {
        Prop::SubscriptionIdentifier(identifier) => Some(identifier),
        _ => None,
    }
}

// A copy of the numbers.
fn copy_identifiers(alloc: Global, identifiers: &[u32]) -> Result<Vec<u32>, Memory>
    ensures { IfOk result (λ copy. copy.items ≡ identifiers.now) }
{
    let mut copy = Vec::with_capacity(alloc, identifiers.len())?;
    copy.extend_from_slice(identifiers)?;
    Ok(copy)
}

impl IdentifierList {
    ghost use Rattle.std.specs.Prelude.{◌≡◌, ◌<◌, ◌++◌, ◌∷◌, [], length, IfOk, OnErr};
    ghost use Rattle.mq_rules.specs.Notes.{subscription_identifiers_in};

    /// No identifiers.
    #[inline(always)]
    pub fn none() -> IdentifierList
        ensures { result ≡ [] }
    {
        IdentifierList {
            form: IdentifierForm::Few(None),
        }
    }

    // With one identifier more.
    fn with(self, alloc: Global, identifier: u32) -> Result<IdentifierList, Memory>
        ensures exact { IfOk result (λ longer. longer ≡ self ++ (identifier ∷ [])) }
        ensures needed { OnErr result (0 < length self) }
    {
        let form = match self.form {
            IdentifierForm::Few(None) => IdentifierForm::Few(Some(identifier)),
            IdentifierForm::Few(Some(first)) => {
                let mut identifiers = Vec::with_capacity(alloc, 2)?;
                identifiers.push(first)?;
                identifiers.push(identifier)?;
                IdentifierForm::Many(identifiers)
            }
            IdentifierForm::Many(mut identifiers) => {
                identifiers.push(identifier)?;
                IdentifierForm::Many(identifiers)
            }
        };
        Ok(IdentifierList { form })
    }

    /// The Subscription Identifiers of a list of properties.
    ///
    /// # Errors
    ///
    /// `Memory` if there is no memory for them. At most one needs none.
    pub fn of(alloc: Global, properties: &Props<'_>) -> Result<IdentifierList, Memory>
        ensures exact { IfOk result (λ identifiers. identifiers ≡ subscription_identifiers_in properties.now.items) }
        ensures needed { OnErr result (1 < length (subscription_identifiers_in properties.now.items)) }
    {
        let mut identifiers = IdentifierList::none();
        for property in properties.iter() {
            if let Some(identifier) = identifier_of(property) {
                identifiers = identifiers.with(alloc, identifier)?;
            }
        }
        Ok(identifiers)
    }

    // Copies of these identifiers.
    fn of_slice(alloc: Global, identifiers: &[u32]) -> Result<IdentifierList, Memory>
        ensures exact { IfOk result (λ copies. copies ≡ identifiers.now) }
        ensures needed { OnErr result (1 < length identifiers.now) }
    {
        let form = match identifiers {
            [] => IdentifierForm::Few(None),
            [identifier] => IdentifierForm::Few(Some(*identifier)),
            identifiers => IdentifierForm::Many(copy_identifiers(alloc, identifiers)?),
        };
        Ok(IdentifierList { form })
    }

    /// A copy of the list.
    ///
    /// # Errors
    ///
    /// `Memory` if there is no memory for it. At most one identifier needs none.
    pub fn copy(&self, alloc: Global) -> Result<IdentifierList, Memory>
        ensures exact { IfOk result (λ copy. copy ≡ self.now) }
        ensures needed { OnErr result (1 < length self.now) }
    {
        IdentifierList::of_slice(alloc, self.as_slice())
    }

    /// The identifiers, in order, 1 to 268,435,455.
    #[inline]
    pub fn as_slice(&self) -> &[u32]
        ensures { result.now ≡ self.now }
    {
        match &self.form {
            IdentifierForm::Few(None) => &[],
            IdentifierForm::Few(Some(identifier)) => slice::from_ref(identifier),
            IdentifierForm::Many(identifiers) => identifiers.as_slice(),
        }
    }
}
