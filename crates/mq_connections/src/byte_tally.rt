//! How often W01 to W21 are put to the test, counted in one pass.
ghost use Rattle.std.specs.Prelude.{◌≡◌, ◌==◌, ◌&&◌, ◌||◌, not, ◌∷◌, ◌+◌, ◌<◌, [], ℕ, Bool, true, cond, length, List};
ghost use Rattle.mq_packet.specs.declared.rule.PacketRule.{PacketRule as ThePacketRule};
ghost use Rattle.mq_packet.specs.Reading.{view, publish_view};
ghost use Rattle.mq_packet.specs.Entries.{Entry, publish as publish_entry};
ghost use Rattle.mq_props.specs.Having as having;
ghost use Rattle.mq_props.specs.Having.{any_property};
ghost use Rattle.mq_props.specs.Identifiers.{response_topic};
ghost use Rattle.mq_packet.specs.Tries.{tries};
ghost use Rattle.mq_log.specs.Events.{Placed, packet as packet_item};
ghost use Rattle.mq_log.specs.Flows.{item_event};
ghost use Rattle.mq_log.specs.Reception.{event_of, item_of};
ghost use Rattle.mq_rules.specs.declared.role.Tested.{Tested as TheTested};
ghost use Rattle.mq_connections.specs.ByteTallies.{CountsBytes, count_of, tried_in};
ghost use Rattle.mq_rules.specs.Parts.{IsTriedAs, parts_try};
ghost use Rattle.mq_rules.specs.Trials.{places_bytes, tried_by};

use mq_log::{Direction, Event, Item};
use mq_packet::{Packet, PacketRule, Publish};
use mq_props::Props;
use mq_rules::{Bare, Parts, Rule, is_at_most_once, places_after};

// Whether a list has a text, where that isn't known to be beside the point.
#[inline(always)]
fn has_text_unless(known: bool, list: &Props<'_>) -> bool
    ensures { result ≡ (not known && any_property having.has_text list.now.items) }
{
    !known && list.has_text()
}

// Whether a list has a Response Topic, likewise.
#[inline(always)]
fn has_topic_unless(known: bool, list: &Props<'_>) -> bool
    ensures { result ≡ (not known && any_property (λ id. id == response_topic) list.now.items) }
{
    !known && list.has_response_topic()
}

// Whether a list has a property, which may be known.
#[inline(always)]
fn is_nonempty(known: bool, list: &Props<'_>) -> bool
    ensures { result ≡ (known || any_property (λ id. true) list.now.items) }
{
    known || list.has_any()
}

// What the tested end sent, and puts rules on bytes to the test.
#[derive(Clone, Copy)]
enum Trial<'p, 'a> {
    // A packet of this size in bytes.
    Sized(u32, &'p Packet<'a>),
    // Bytes that break this rule.
    Broken(PacketRule),
}

impl Trial<'_, '_> {
    // Whether it puts the rule to the test.
    #[inline(always)]
    fn tries(&self, rule: PacketRule) -> bool
        ensures { result ≡ tried_in self.now rule }
    {
        match self {
            Trial::Sized(size, packet) => packet.tries(*size, rule),
            Trial::Broken(broken) => rule == *broken,
        }
    }

    // The count of a rule after it, at this position.
    #[inline(always)]
    fn counted(&self, rule: PacketRule, count: u32, position: u32) -> u32
        ensures { count < position → result ≡ cond (tried_in self.now rule) 1 0 + count }
    {
        places_after(self.tries(rule), count, position)
    }
}

/// How often each of the statements on a packet's bytes was put to the test.
///
/// Most packets have no properties, and few of their parts differ from one to the next. So of
/// these, and of each PUBLISH, the parts are counted, and a rule that a part puts to the test has
/// also the places of that part.
#[derive(Drop)]
pub struct ByteTally {
    // PUBLISHes, other packets without properties, and PUBLISHes with a Topic Name.
    publishes: u32,
    others: u32,
    named: u32,
    // What else puts each rule to the test.
    w01: u32,
    w02: u32,
    w03: u32,
    w04: u32,
    w05: u32,
    w06: u32,
    w07: u32,
    w08: u32,
    w09: u32,
    w10: u32,
    w11: u32,
    w12: u32,
    w13: u32,
    w14: u32,
    w15: u32,
    w16: u32,
    w17: u32,
    w18: u32,
    w19: u32,
    w20: u32,
    w21: u32,
}

impl ByteTally {
    /// The counts before any event.
    pub fn new() -> Self
        ensures { (tested : TheTested) → CountsBytes result tested [] }
    {
        ByteTally {
            publishes: 0,
            others: 0,
            named: 0,
            w01: 0,
            w02: 0,
            w03: 0,
            w04: 0,
            w05: 0,
            w06: 0,
            w07: 0,
            w08: 0,
            w09: 0,
            w10: 0,
            w11: 0,
            w12: 0,
            w13: 0,
            w14: 0,
            w15: 0,
            w16: 0,
            w17: 0,
            w18: 0,
            w19: 0,
            w20: 0,
            w21: 0,
        }
    }

    // Counts the rules that this puts to the test.
    #[inline(always)]
    fn count(&mut self, position: u32, trial: Trial<'_, '_>)
        ensures { (rule : ThePacketRule) → count_of self.old rule < position → count_of self.new rule ≡ cond (tried_in trial.entry rule) 1 0 + count_of self.old rule }
    {
        self.w01 = trial.counted(PacketRule::W01, self.w01, position);
        self.w02 = trial.counted(PacketRule::W02, self.w02, position);
        self.w03 = trial.counted(PacketRule::W03, self.w03, position);
        self.w04 = trial.counted(PacketRule::W04, self.w04, position);
        self.w05 = trial.counted(PacketRule::W05, self.w05, position);
        self.w06 = trial.counted(PacketRule::W06, self.w06, position);
        self.w07 = trial.counted(PacketRule::W07, self.w07, position);
        self.w08 = trial.counted(PacketRule::W08, self.w08, position);
        self.w09 = trial.counted(PacketRule::W09, self.w09, position);
        self.w10 = trial.counted(PacketRule::W10, self.w10, position);
        self.w11 = trial.counted(PacketRule::W11, self.w11, position);
        self.w12 = trial.counted(PacketRule::W12, self.w12, position);
        self.w13 = trial.counted(PacketRule::W13, self.w13, position);
        self.w14 = trial.counted(PacketRule::W14, self.w14, position);
        self.w15 = trial.counted(PacketRule::W15, self.w15, position);
        self.w16 = trial.counted(PacketRule::W16, self.w16, position);
        self.w17 = trial.counted(PacketRule::W17, self.w17, position);
        self.w18 = trial.counted(PacketRule::W18, self.w18, position);
        self.w19 = trial.counted(PacketRule::W19, self.w19, position);
        self.w20 = trial.counted(PacketRule::W20, self.w20, position);
        self.w21 = trial.counted(PacketRule::W21, self.w21, position);
    }

    // Counts the rules that a PUBLISH puts to the test: by its parts, and by its properties.
    #[inline(never)]
    #[tactic(auto, unfolding(mq_packet::specs::Tries::tries), using(crate::proofs::ByteTallyLaws::no_part, crate::proofs::ByteTallyLaws::one_part, crate::proofs::ByteTallyLaws::two_parts, crate::proofs::ByteTallyLaws::other_part, crate::proofs::ByteTallyLaws::any_single))]
    fn count_publish(&mut self, position: u32, publish: &Publish<'_>)
        ensures { (size : ℕ) (rule : ThePacketRule) → count_of self.old rule < position → count_of self.new rule ≡ cond (tries rule size (publish_entry (publish_view publish.now))) 1 0 + count_of self.old rule }
    {
        let list = &publish.properties;
        let named = !publish.topic.is_empty();
        let single = list.has_single();
        let texted = has_text_unless(named, list);
        self.publishes = places_after(true, self.publishes, position);
        self.named = places_after(named, self.named, position);
        self.w04 = places_after(texted, self.w04, position);
        self.w05 = places_after(texted, self.w05, position);
        self.w08 = places_after(is_at_most_once(publish.qos), self.w08, position);
        self.w09 = places_after(publish.identifier.is_some(), self.w09, position);
        self.w10 = places_after(is_nonempty(single, list), self.w10, position);
        self.w11 = places_after(single, self.w11, position);
        self.w12 = places_after(list.has_range(), self.w12, position);
        self.w14 = places_after(has_topic_unless(named, list), self.w14, position);
        self.w21 = places_after(!named, self.w21, position);
    }

    // Counts the rules that a packet of this size puts to the test, each by a look at the packet.
    #[inline(never)]
    fn count_sized(&mut self, position: u32, size: u32, packet: &Packet<'_>)
        ensures { (rule : ThePacketRule) → count_of self.old rule < position → count_of self.new rule ≡ cond (tries rule size (view packet.now)) 1 0 + count_of self.old rule }
    {
        match packet {
            Packet::Publish(publish) => self.count_publish(position, publish),
            _ => self.count(position, Trial::Sized(size, packet)),
        }
    }

    // Counts the parts of a packet without properties.
    #[inline(always)]
    #[tactic(auto, using(crate::proofs::ByteTallyLaws::no_part, crate::proofs::ByteTallyLaws::one_part, crate::proofs::ByteTallyLaws::two_parts))]
    fn count_parts(&mut self, position: u32, parts: Parts)
        ensures { (rule : ThePacketRule) → count_of self.old rule < position → count_of self.new rule ≡ cond (parts_try parts rule) 1 0 + count_of self.old rule }
    {
        self.publishes = places_after(parts.publish, self.publishes, position);
        self.others = places_after(!parts.publish, self.others, position);
        self.named = places_after(parts.named, self.named, position);
        self.w08 = places_after(parts.at_most_once, self.w08, position);
        self.w09 = places_after(parts.identified, self.w09, position);
        self.w13 = places_after(parts.coded, self.w13, position);
        self.w21 = places_after(parts.publish && !parts.named, self.w21, position);
    }

    /// Counts the statements that a packet without properties puts to the test, by its numbers.
    #[inline(always)]
    pub fn count_bare(&mut self, position: u32, bare: Bare<'_>)
        ensures { (tested : TheTested) (p : Placed) (entry : Entry) (events : List Placed) → p.event ≡ item_event bare.entry.direction (packet_item bare.entry.size entry) → IsTriedAs bare.entry.size bare.entry.fields entry → position ≡ length events + 1 → CountsBytes self.old tested events → CountsBytes self.new tested (p ∷ events) }
    {
        match bare.direction {
            Direction::Sent => self.count_parts(position, Parts::of_bare(bare.size, bare.fields)),
            Direction::Recv => {}
        }
    }

    /// Counts the statements that a packet of `size` bytes puts to the test, which went this way.
    pub fn count_packet(
        &mut self,
        position: u32,
        direction: Direction,
        size: u32,
        packet: &Packet<'_>,
    )
        ensures { (tested : TheTested) (p : Placed) (events : List Placed) → p.event ≡ item_event direction (packet_item size (view packet.now)) → position ≡ length events + 1 → CountsBytes self.old tested events → CountsBytes self.new tested (p ∷ events) }
    {
        match direction {
            Direction::Sent => self.count_sized(position, size, packet),
            Direction::Recv => {}
        }
    }

    // Counts the rules that an item puts to the test which the tested end sent.
    fn count_sent(&mut self, position: u32, item: &Item<'_>)
        ensures { (rule : ThePacketRule) → count_of self.old rule < position → count_of self.new rule ≡ cond (tried_by rule (item_of item.now)) 1 0 + count_of self.old rule }
    {
        match item {
            Item::Packet(packet) => {
                let size = packet.size().unwrap_or(0);
                self.count_sized(position, size, packet);
            }
            Item::Bad { rule, .. } => self.count(position, Trial::Broken(*rule)),
            Item::Lost => self.count(position, Trial::Broken(PacketRule::W03)),
        }
    }

    /// Counts the statements that an event puts to the test.
    pub fn count_event(&mut self, position: u32, event: &Event<'_>)
        ensures { (tested : TheTested) (p : Placed) (events : List Placed) → p.event ≡ event_of event.now → position ≡ length events + 1 → CountsBytes self.old tested events → CountsBytes self.new tested (p ∷ events) }
    {
        match event {
            Event::Sent(item) => self.count_sent(position, item),
            Event::Open => {}
            Event::Close { .. } => {}
            Event::Rest => {}
            Event::Release(_) => {}
            Event::Recv(_) => {}
        }
    }

    /// How many places a statement has: 0 if it isn't one on a packet's bytes.
    pub fn places(&self, rule: Rule) -> u32
        ensures { (tested : TheTested) (events : List Placed) → CountsBytes self.now tested events → result ≡ places_bytes tested events rule }
    {
        match rule {
            Rule::W01 => self.count_of(PacketRule::W01),
            Rule::W02 => self.count_of(PacketRule::W02),
            Rule::W03 => self.count_of(PacketRule::W03),
            Rule::W04 => self.count_of(PacketRule::W04),
            Rule::W05 => self.count_of(PacketRule::W05),
            Rule::W06 => self.count_of(PacketRule::W06),
            Rule::W07 => self.count_of(PacketRule::W07),
            Rule::W08 => self.count_of(PacketRule::W08),
            Rule::W09 => self.count_of(PacketRule::W09),
            Rule::W10 => self.count_of(PacketRule::W10),
            Rule::W11 => self.count_of(PacketRule::W11),
            Rule::W12 => self.count_of(PacketRule::W12),
            Rule::W13 => self.count_of(PacketRule::W13),
            Rule::W14 => self.count_of(PacketRule::W14),
            Rule::W15 => self.count_of(PacketRule::W15),
            Rule::W16 => self.count_of(PacketRule::W16),
            Rule::W17 => self.count_of(PacketRule::W17),
            Rule::W18 => self.count_of(PacketRule::W18),
            Rule::W19 => self.count_of(PacketRule::W19),
            Rule::W20 => self.count_of(PacketRule::W20),
            Rule::W21 => self.count_of(PacketRule::W21),
            _ => 0,
        }
    }

    // The count of a rule, which is below 2^32.
    fn count_of(&self, rule: PacketRule) -> u32
        ensures { count_of self.now rule < 4294967296 → result ≡ count_of self.now rule }
    {
        match rule {
            PacketRule::W01 => self.w01.saturating_add(self.others),
            PacketRule::W02 => self.w02.saturating_add(self.whole()),
            PacketRule::W03 => self.w03.saturating_add(self.whole()),
            PacketRule::W04 => self.w04.saturating_add(self.named),
            PacketRule::W05 => self.w05.saturating_add(self.named),
            PacketRule::W06 => self.w06.saturating_add(self.whole()),
            PacketRule::W07 => self.w07.saturating_add(self.publishes),
            PacketRule::W08 => self.w08,
            PacketRule::W09 => self.w09,
            PacketRule::W10 => self.w10,
            PacketRule::W11 => self.w11,
            PacketRule::W12 => self.w12,
            PacketRule::W13 => self.w13,
            PacketRule::W14 => self.w14.saturating_add(self.named),
            PacketRule::W15 => self.w15,
            PacketRule::W16 => self.w16,
            PacketRule::W17 => self.w17,
            PacketRule::W18 => self.w18,
            PacketRule::W19 => self.w19,
            PacketRule::W20 => self.w20,
            PacketRule::W21 => self.w21,
        }
    }

    // How many packets were counted by their parts; the greatest number if that is less.
    fn whole(&self) -> u32
        ensures { self.now.publishes + self.now.others < 4294967296 → result ≡ self.now.publishes + self.now.others }
    {
        self.publishes.saturating_add(self.others)
    }
}
