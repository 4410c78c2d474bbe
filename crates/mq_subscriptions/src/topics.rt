//! The topics that were sent on a connection, by their Topic Aliases (MQTT 5.0, section 3.3.2.3.4).
ghost use Rattle.std.specs.Prelude.{◌≡◌, ◌==◌, ℕ, not, Some, OnOk, nat_eq, length, option_map};
ghost use Rattle.std.specs.Option.{option_or};
ghost use Rattle.indexmap.specs.IndexMap.{get};
ghost use Rattle.mq_rules.specs.Words.{is_id, only};
ghost use Rattle.mq_subscriptions.specs.Standings.{topic_next, topic_kept};

use indexmap::IndexMap;
use mq_rules::{Memory, Note, Noted, PublishNote, Text};
use std::alloc::Global;

// Keeps the Topic Name that a PUBLISH sets for its Topic Alias (MQTT 5.0, section 3.3.2.3.4).
fn set_alias(
    alloc: Global,
    topics: &mut IndexMap<u16, Text>,
    publish: &PublishNote,
) -> Result<(), Memory>
    ensures { OnOk result ((alias : ℕ) → get nat_eq topics.new alias ≡ option_or (only (is_id alias (only (not (length publish.now.topic == 0)) publish.now.topic_alias)) (Some publish.now.topic)) (get nat_eq topics.old alias)) }
{
    if publish.topic.is_empty() {
        return Ok(());
    }
    if let Some(alias) = publish.topic_alias {
        let topic = Text::of(alloc, publish.topic.as_str())?;
        topics.insert(alias, topic)?;
    }
    Ok(())
}

/// Takes in what an event says of topics.
pub fn take_topic(
    alloc: Global,
    topics: &mut IndexMap<u16, Text>,
    note: &Note,
) -> Result<(), Memory>
    ensures { OnOk result ((alias : ℕ) → get nat_eq topics.new alias ≡ topic_next note.now alias (get nat_eq topics.old alias)) }
{
    if note.is_boundary() {
        // A large map that is cleared costs its size each time.
        *topics = IndexMap::new(alloc);
    }
    if let Some(publish) = note.sent_publish() {
        set_alias(alloc, topics, publish)?;
    }
    Ok(())
}

/// The topic of a PUBLISH, if it is known.
pub fn topic_of<'a>(publish: &'a PublishNote, topics: &'a IndexMap<u16, Text>) -> Option<&'a str>
    ensures { option_map (λ topic. topic.now) result ≡ topic_kept (get nat_eq topics.now) publish.now }
{
    if !publish.topic.is_empty() {
        return Some(publish.topic.as_str());
    }
    let alias = publish.topic_alias?;
    match topics.get(&alias) {
        Some(topic) => Some(topic.as_str()),
        None => None,
    }
}
