//! What is known of a property list that has been read.

ghost use Rattle.std.specs.Prelude.{◌≡◌, ℕ, ◌<◌, ◌≢◌, false, [], ◌∷◌, ◌++◌, List};
ghost use Rattle.mq_props.specs.Allowed.{occurs_in};
ghost use Rattle.mq_props.specs.First.{first_two_bytes};
ghost use Rattle.mq_props.specs.Identifiers.{topic_alias};
ghost use Rattle.mq_props.specs.Values.{Property, two_bytes_value};
ghost use Rattle.mq_props.specs.Views.{Knows, item_view};

use crate::seen::Seen;
use crate::table::id::TOPIC_ALIAS;
use crate::value::Item;

/// The identifiers of a list's properties, and the first Topic Alias. So a getter of what isn't
/// there needs no walk.
#[derive(Debug, Clone, Copy)]
pub struct Facts {
    pub seen: Seen,
    pub topic_alias: Option<u16>,
}

impl Facts {
    /// What is known of an empty list.
    #[inline(always)]
    pub fn new() -> Facts
        ensures { Knows result [] }
    {
        Facts {
            seen: Seen::new(),
            topic_alias: None,
        }
    }

    // The first Topic Alias, with a property more at the list's end.
    fn topic_alias_with(self, item: &Item) -> Option<u16>
        ensures { (ps : List Property) → Knows self ps → result ≡ first_two_bytes topic_alias (ps ++ item_view item.now ∷ []) }
    {
        if item.id != TOPIC_ALIAS {
            return self.topic_alias;
        }
        if self.seen.has(TOPIC_ALIAS) {
            return self.topic_alias;
        }
        item.value.two_bytes()
    }

    /// With a property more at the list's end.
    pub fn with_item(self, item: &Item) -> Facts
        requires { item.now.id < 43 }
        ensures { (ps : List Property) → Knows self ps → Knows result (ps ++ item_view item.now ∷ []) }
    {
        Facts {
            seen: self.seen.with(item.id),
            topic_alias: self.topic_alias_with(item),
        }
    }

    /// With a property more at the list's end, which isn't a Topic Alias.
    #[inline(always)]
    pub fn with_other(self, id: u8) -> Facts
        requires below { id < 43 }
        requires other { id ≢ topic_alias }
        ensures { (ps : List Property) (p : Property) → Knows self ps → p.id ≡ id → Knows result (ps ++ p ∷ []) }
    {
        Facts {
            seen: self.seen.with(id),
            topic_alias: self.topic_alias,
        }
    }

    /// With a Topic Alias more at the list's end, which has none.
    #[inline(always)]
    pub fn with_topic_alias(self, number: u16) -> Facts
        ensures { (ps : List Property) → Knows self ps → occurs_in topic_alias ps ≡ false → Knows result (ps ++ record { id = topic_alias; value = two_bytes_value number } ∷ []) }
    {
        Facts {
            seen: self.seen.with(TOPIC_ALIAS),
            topic_alias: Some(number),
        }
    }
}
