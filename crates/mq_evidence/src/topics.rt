//! The topic of what is sent, by its Topic Name or its Topic Alias (MQTT 5.0, section 3.3.2.3.4):
//! for the evidence of B02, B09, P01, P02, R01 and R02.
ghost use Rattle.std.specs.Prelude.{◌≡◌, ◌==◌, nat_eq, ℕ, Option, Some, length, not, option_map, OnOk};
ghost use Rattle.std.specs.Option.{option_or};
ghost use Rattle.indexmap.specs.IndexMap.{get};
ghost use Rattle.mq_rules.specs.Words.{is_id, only};
ghost use Rattle.mq_rules.specs.Moments.{Moment};
ghost use Rattle.mq_rules.specs.Subscriptions.{last_set};
ghost use Rattle.mq_evidence.specs.Stretches.{Stretches, Comes, advanced, nothing_yet};
ghost use Rattle.mq_evidence.specs.Topics.{IsTopics, topic_next, topic_by};

use crate::turn::Turn;
use indexmap::IndexMap;
use mq_rules::{Memory, Note, PublishNote, Text};
use std::alloc::Global;

/// The Topic Name that was last set for each Topic Alias on the connection.
#[derive(Drop)]
pub struct Topics {
    alloc: Global,
    topics: IndexMap<u16, Text>,
}

// Keeps the Topic Name that a PUBLISH sets for its Topic Alias.
fn set_alias(
    alloc: Global,
    topics: &mut IndexMap<u16, Text>,
    publish: &PublishNote,
) -> Result<(), Memory>
    ensures { OnOk result ((alias : ℕ) → get nat_eq topics.new alias ≡ option_or (only (is_id alias (only (not (length publish.now.topic == 0)) publish.now.topic_alias)) (Some publish.now.topic)) (get nat_eq topics.old alias)) }
{
    if publish.topic.is_empty() {
        return Ok(());
    }
    if let Some(alias) = publish.topic_alias {
        let topic = Text::of(alloc, publish.topic.as_str())?;
        topics.insert(alias, topic)?;
    }
    Ok(())
}

// Takes in what an event says of topics, on the connection or as the beginning of another one.
fn take_topic(
    alloc: Global,
    topics: &mut IndexMap<u16, Text>,
    opens: bool,
    note: &Note,
) -> Result<(), Memory>
    ensures { OnOk result ((alias : ℕ) → get nat_eq topics.new alias ≡ topic_next opens note.now alias (get nat_eq topics.old alias)) }
{
    if opens {
        // A large map that is cleared costs its size each time.
        *topics = IndexMap::new(alloc);
    }
    if let Some(publish) = note.sent_publish() {
        set_alias(alloc, topics, publish)?;
    }
    Ok(())
}

impl Topics {
    /// No Topic Alias was set.
    pub fn new(alloc: Global) -> Self
        ensures { IsTopics result nothing_yet }
    {
        Topics {
            alloc,
            topics: IndexMap::new(alloc),
        }
    }

    /// Takes in the next event.
    ///
    /// # Errors
    ///
    /// `Memory` if there is no memory for what it keeps. Its state is then of no use.
    pub fn take(&mut self, turn: Turn, note: &Note) -> Result<(), Memory>
        ensures { OnOk result ((m : Moment) (s : Stretches) → Comes turn note.now m → IsTopics self.old s → IsTopics self.new (advanced turn m s)) }
    {
        take_topic(self.alloc, &mut self.topics, turn.opens, note)?;
        Ok(())
    }

    /// The topic of a PUBLISH that comes next on the connection: its Topic Name, or if that is
    /// empty the one that was last set for its Topic Alias.
    pub fn topic<'a>(&'a self, publish: &'a PublishNote) -> Option<&'a str>
        ensures { (s : Stretches) → IsTopics self.now s → option_map (λ topic. topic.now) result ≡ topic_by (λ alias. last_set alias s.connection) publish.now }
    {
        topic_of(publish, &self.topics)
    }
}

// The topic of a PUBLISH, by these topics.
fn topic_of<'a>(publish: &'a PublishNote, topics: &'a IndexMap<u16, Text>) -> Option<&'a str>
    ensures { option_map (λ topic. topic.now) result ≡ topic_by (get nat_eq topics.now) publish.now }
{
    if !publish.topic.is_empty() {
        return Some(publish.topic.as_str());
    }
    let alias = publish.topic_alias?;
    match topics.get(&alias) {
        Some(topic) => Some(topic.as_str()),
        None => None,
    }
}
