//! The statements C01 to C23, in one pass: what is kept of the latest connection decides each of
//! them at the next event.
ghost use Rattle.std.specs.Prelude.{◌≡◌, ◌==◌, ◌∷◌, [], ◌+◌, ◌&&◌, ◌||◌, ℕ, cond, not, length, List, Some, OnOk, OnErr};
ghost use Rattle.std.specs.BTreeSet.{contains, btree_set_len};
ghost use Rattle.std.specs.Ordering.{nat_cmp};
ghost use Rattle.mq_rules.specs.declared.role.Role.TheVariants as roles;
ghost use Rattle.mq_rules.specs.declared.role.Tested.{Tested as TheTested};
ghost use Rattle.mq_rules.specs.declared.fate.Fate.TheVariants.{Void};
ghost use Rattle.mq_rules.specs.declared.note.Seen.{Seen as TheSeen};
ghost use Rattle.mq_rules.specs.Words.{is_id, only};
ghost use Rattle.mq_rules.specs.Notes.{is_open as opens, is_close as closes};
ghost use Rattle.mq_rules.specs.Connections.{IsOnConnection};
ghost use Rattle.mq_rules.specs.Pasts.{set_alias as sets};
ghost use Rattle.mq_rules.specs.Statements.{is_on_past};
ghost use Rattle.mq_rules.specs.Steps.{turns};
ghost use Rattle.mq_rules.specs.Burden.{aliases_sent};
ghost use Rattle.mq_connections.specs.Weights.{conn_weighs};
ghost use Rattle.mq_rules.specs.Keeping.{connection_after};
ghost use Rattle.mq_connections.specs.Finding as finding;
ghost use Rattle.mq_rules.specs.Growing.{Judges, JudgesWithin, GrowsBy, GrowsByWithin};
ghost use Rattle.mq_connections.specs.Finding.{Agrees, IsConn, is_among, is_another};

mod counting;
mod harmless;
mod harmless_tests;
mod tally;
mod trying;
mod verdicts;

pub use counting::CountingConn;
use harmless::send_bounds;
pub use harmless::{SendBounds, is_bare_harmless, is_harmless};
pub use harmless_tests::HarmlessTests;
use mq_log::Place3;
use mq_rules::{
    Bare, Brisk, ConnackNote, ConnectionState, DisconnectNote, Faults, ItemNote, Memory, Note,
    PacketNote, PublishNote, Role, Rule, Tested, Watch, step_apart,
};
use std::alloc::Global;
use std::collections::BTreeSet;
pub use trying::Tried;
pub(crate) use verdicts::Verdict;
use verdicts::{
    breaks_c15, breaks_c17, breaks_c19, breaks_c20, breaks_c23, client_item, client_packet,
    server_connack, server_item, server_packet,
};

/// Watches C01 to C23, the statements on the past of a connection. It takes in each event of a log
/// in which nothing is sent or received between two connections.
#[derive(Drop)]
pub struct Conn {
    role: Role,
    state: ConnectionState,
    /// What most packets are compared with. They follow from the state.
    bounds: SendBounds,
    /// The Topic Aliases that the tested end set (MQTT 5.0, section 3.3.2.3.4).
    aliases: BTreeSet<u16>,
}

impl Conn {
    /// The watcher before the first event, for this tested end.
    #[tactic(auto, unfolding(mq_rules::specs::Burden::aliases_sent))]
    pub fn new(alloc: Global, tested: Tested) -> Self
        ensures { ⟦<Conn as Watch>⟧.agrees result tested (Some Void) [] }
    {
        let state = ConnectionState::new();
        Conn {
            role: tested.role,
            state,
            bounds: send_bounds(&state, tested.role),
            aliases: BTreeSet::new(alloc),
        }
    }

    /// Judges an event of any list by what is kept, and then takes it in. The Topic Aliases stay
    /// until the next OPEN, also where something is sent after a CLOSE.
    ///
    /// # Errors
    ///
    /// `Memory` if there is no memory for a fault or a Topic Alias. Some of the event's faults may
    /// then have been added, but no others, and what is kept must not be used any more.
    pub(crate) fn take_in(
        &mut self,
        place: Place3,
        note: &Note,
        faults: &mut Faults,
    ) -> Result<(), Memory>
        ensures agrees { OnOk result ((tested : TheTested) (past : List TheSeen) → Agrees self.old tested past → Agrees self.new tested (record { place = place; note = note.now } ∷ past)) }
        ensures grows { OnOk result ((tested : TheTested) (past : List TheSeen) → Agrees self.old tested past → place.position ≡ length past + 1 → GrowsBy (is_on_past tested) tested (record { place = place; note = note.now }) past faults.old faults.new) }
        ensures memory { OnErr result ((tested : TheTested) (past : List TheSeen) → Agrees self.old tested past → place.position ≡ length past + 1 → GrowsByWithin (is_on_past tested) tested (record { place = place; note = note.now }) past faults.old faults.new) }
    {
        self.judge(place, note, faults)?;
        self.consume(note)?;
        Ok(())
    }

    /// The bounds by which `is_harmless` tells events that need not be taken in.
    #[inline]
    pub(crate) fn send_bounds(&self) -> SendBounds
        ensures { result ≡ finding.send_bounds self.now.role self.now.state }
    {
        send_bounds(&self.state, self.role)
    }

    // Takes an event.
    fn consume(&mut self, note: &Note) -> Result<(), Memory>
        ensures role { OnOk result (self.new.role ≡ self.old.role) }
        ensures state { OnOk result (self.new.state ≡ connection_after self.old.role self.old.state note.now) }
        ensures aliases { OnOk result ((alias : ℕ) → contains nat_cmp self.new.aliases alias ≡ ((not (opens note.now) && contains nat_cmp self.old.aliases alias) || is_id alias (sets note.now))) }
        ensures as_many { OnOk result (btree_set_len self.new.aliases ≡ cond (is_another (λ alias. not (opens note.now) && contains nat_cmp self.old.aliases alias) (sets note.now)) 1 0 + cond (opens note.now) 0 (btree_set_len self.old.aliases)) }
    {
        self.clear_aliases_if(note.is_open());
        self.set_alias(alias_set_by(note))?;
        self.state.consume(self.role, note);
        Ok(())
    }

    // Forgets all Topic Aliases at a CLOSE: they end with their connection.
    fn end_aliases(&mut self, note: &Note)
        ensures role { self.new.role ≡ self.old.role }
        ensures state { self.new.state ≡ self.old.state }
        ensures aliases { (alias : ℕ) → contains nat_cmp self.new.aliases alias ≡ (not (closes note.now) && contains nat_cmp self.old.aliases alias) }
        ensures as_many { btree_set_len self.new.aliases ≡ cond (closes note.now) 0 (btree_set_len self.old.aliases) }
    {
        self.clear_aliases_if(note.is_close());
    }

    // Forgets all Topic Aliases.
    fn clear_aliases_if(&mut self, ends: bool)
        ensures role { self.new.role ≡ self.old.role }
        ensures state { self.new.state ≡ self.old.state }
        ensures aliases { (alias : ℕ) → contains nat_cmp self.new.aliases alias ≡ (not ends && contains nat_cmp self.old.aliases alias) }
        ensures as_many { btree_set_len self.new.aliases ≡ cond ends 0 (btree_set_len self.old.aliases) }
    {
        if ends {
            self.aliases.clear();
        }
    }

    // Adds a Topic Alias, if there is one.
    fn set_alias(&mut self, set: Option<u16>) -> Result<(), Memory>
        ensures role { OnOk result (self.new.role ≡ self.old.role) }
        ensures state { OnOk result (self.new.state ≡ self.old.state) }
        ensures aliases { OnOk result ((alias : ℕ) → contains nat_cmp self.new.aliases alias ≡ (contains nat_cmp self.old.aliases alias || is_id alias set)) }
        ensures as_many { OnOk result (btree_set_len self.new.aliases ≡ cond (is_another (contains nat_cmp self.old.aliases) set) 1 0 + btree_set_len self.old.aliases) }
    {
        if let Some(alias) = set {
            self.aliases.insert(alias)?;
        }
        Ok(())
    }
}

impl Watch for Conn {
    ghost agrees = { IsConn };

    ghost takes = { λ tested taken e past. IsOnConnection e past };

    ghost adds = { λ tested e past k r. is_on_past tested r && turns tested e past k r };

    ghost weighs = { conn_weighs };

    ghost bound = { λ tested taken past. aliases_sent past };

    fn step(&mut self, at: Place3, note: &Note, faults: &mut Faults) -> Result<(), Memory> {
        if is_harmless(self.bounds, note) {
            return Ok(());
        }
        self.judge(at, note, faults)?;
        self.consume(note)?;
        self.end_aliases(note);
        self.bounds = self.send_bounds();
        Ok(())
    }

    fn weight(&self) -> usize {
        self.aliases.len()
    }
}

impl Brisk for Conn {
    #[inline(always)]
    fn step_bare(&mut self, at: Place3, bare: Bare<'_>, faults: &mut Faults) -> Result<(), Memory> {
        if is_bare_harmless(self.bounds, bare) {
            return Ok(());
        }
        step_apart(self, at, bare, faults)?;
        Ok(())
    }
}

// The Topic Alias that the event sets: a PUBLISH is sent with it and a Topic Name.
#[inline]
fn alias_set_by(note: &Note) -> Option<u16>
    ensures { result ≡ sets note.now }
{
    match note.sent_publish() {
        Some(publish) => named_alias(publish),
        None => None,
    }
}

// The Topic Alias that comes with a Topic Name, for which it stands from then on (MQTT 5.0, section
// 3.3.2.3.4).
#[inline]
fn named_alias(publish: &PublishNote) -> Option<u16>
    ensures { result ≡ only (not (length publish.now.topic == 0)) publish.now.topic_alias }
{
    if publish.topic.is_empty() {
        None
    } else {
        publish.topic_alias
    }
}

/// Judging an event by what is kept.
impl Conn {
    // Judges each statement that binds the end.
    fn judge(&self, place: Place3, note: &Note, faults: &mut Faults) -> Result<(), Memory>
        ensures ok { OnOk result (Judges (finding.is_found self.now.role self.now.state (contains nat_cmp self.now.aliases) note.now) place faults.old faults.new) }
        ensures memory { OnErr result (JudgesWithin (finding.is_found self.now.role self.now.state (contains nat_cmp self.now.aliases) note.now) place faults.old faults.new) }
    {
        self.judge_item(place, note.sent_item(), faults)?;
        self.judge_packet(place, note.sent_packet(), faults)?;
        self.judge_publish(place, note.sent_publish(), faults)?;
        self.judge_connack(place, note.sent_connack(), faults)?;
        self.judge_disconnect(place, note.sent_disconnect(), faults)?;
        self.judge_rest(place, note.is_rest(), faults)?;
        Ok(())
    }

    // Judges a packet that is sent, or bytes that break a rule.
    #[inline]
    fn judge_item(
        &self,
        place: Place3,
        item: Option<&ItemNote>,
        faults: &mut Faults,
    ) -> Result<(), Memory>
        ensures ok { OnOk result (Judges (is_among (finding.item_verdicts self.now.role self.now.state (finding.dereferenced item.entry))) place faults.old faults.new) }
        ensures memory { OnErr result (JudgesWithin (is_among (finding.item_verdicts self.now.role self.now.state (finding.dereferenced item.entry))) place faults.old faults.new) }
    {
        let Some(item) = item else {
            return Ok(());
        };
        match self.role {
            Role::Client => judge_each(place, &client_item(&self.state, item), faults),
            Role::Server => judge_each(place, &server_item(&self.state, item), faults),
        }
    }

    // Judges a packet that is sent.
    #[inline]
    fn judge_packet(
        &self,
        place: Place3,
        packet: Option<&PacketNote>,
        faults: &mut Faults,
    ) -> Result<(), Memory>
        ensures ok { OnOk result (Judges (is_among (finding.packet_verdicts self.now.role self.now.state (finding.dereferenced packet.entry))) place faults.old faults.new) }
        ensures memory { OnErr result (JudgesWithin (is_among (finding.packet_verdicts self.now.role self.now.state (finding.dereferenced packet.entry))) place faults.old faults.new) }
    {
        let Some(packet) = packet else {
            return Ok(());
        };
        match self.role {
            Role::Client => judge_each(place, &client_packet(&self.state, packet), faults),
            Role::Server => judge_each(place, &server_packet(&self.state, packet), faults),
        }
    }

    // Judges a PUBLISH that is sent.
    #[inline]
    fn judge_publish(
        &self,
        place: Place3,
        publish: Option<&PublishNote>,
        faults: &mut Faults,
    ) -> Result<(), Memory>
        ensures ok { OnOk result (Judges (is_among (finding.publish_verdicts self.now.role self.now.state (contains nat_cmp self.now.aliases) (finding.dereferenced publish.entry))) place faults.old faults.new) }
        ensures memory { OnErr result (JudgesWithin (is_among (finding.publish_verdicts self.now.role self.now.state (contains nat_cmp self.now.aliases) (finding.dereferenced publish.entry))) place faults.old faults.new) }
    {
        let Some(publish) = publish else {
            return Ok(());
        };
        match self.role {
            Role::Client => judge_each(place, &self.client_publish(publish), faults),
            Role::Server => judge_each(place, &self.server_publish(publish), faults),
        }
    }

    // The statements on a PUBLISH that a client sends. For C18 nothing needs to be kept.
    #[inline]
    fn client_publish(&self, publish: &PublishNote) -> [Verdict; 4]
        ensures { result ≡ finding.publish_verdicts roles.Client self.now.state (contains nat_cmp self.now.aliases) (Some publish.now) }
    {
        [
            (Rule::C15, breaks_c15(&self.state, Role::Client, publish)),
            (Rule::C16, self.breaks_c16(publish)),
            (Rule::C17, breaks_c17(&self.state, publish)),
            (Rule::C18, publish.has_subscription_identifier),
        ]
    }

    // The statements on a PUBLISH that a server sends: C17 and C18 don't bind it.
    #[inline]
    fn server_publish(&self, publish: &PublishNote) -> [Verdict; 2]
        ensures { result ≡ finding.publish_verdicts roles.Server self.now.state (contains nat_cmp self.now.aliases) (Some publish.now) }
    {
        [
            (Rule::C15, breaks_c15(&self.state, Role::Server, publish)),
            (Rule::C16, self.breaks_c16(publish)),
        ]
    }

    // C16: a Topic Alias stands for a Topic Name, and wasn't set on the connection.
    #[inline]
    fn breaks_c16(&self, publish: &PublishNote) -> bool
        ensures { result ≡ finding.finds_C16 (contains nat_cmp self.now.aliases) (Some publish.now) }
    {
        match used_alias(publish) {
            Some(alias) => !self.aliases.contains(&alias),
            None => false,
        }
    }

    // Judges a CONNACK that is sent.
    #[inline]
    fn judge_connack(
        &self,
        place: Place3,
        connack: Option<&ConnackNote>,
        faults: &mut Faults,
    ) -> Result<(), Memory>
        ensures ok { OnOk result (Judges (is_among (finding.connack_verdicts self.now.role self.now.state (finding.dereferenced connack.entry))) place faults.old faults.new) }
        ensures memory { OnErr result (JudgesWithin (is_among (finding.connack_verdicts self.now.role self.now.state (finding.dereferenced connack.entry))) place faults.old faults.new) }
    {
        let Some(connack) = connack else {
            return Ok(());
        };
        match self.role {
            Role::Client => Ok(()),
            Role::Server => judge_each(place, &server_connack(&self.state, connack), faults),
        }
    }

    // Judges a DISCONNECT that is sent.
    #[inline]
    fn judge_disconnect(
        &self,
        place: Place3,
        disconnect: Option<DisconnectNote>,
        faults: &mut Faults,
    ) -> Result<(), Memory>
        ensures ok { OnOk result (Judges (is_among (finding.disconnect_verdicts self.now.role self.now.state disconnect)) place faults.old faults.new) }
        ensures memory { OnErr result (JudgesWithin (is_among (finding.disconnect_verdicts self.now.role self.now.state disconnect)) place faults.old faults.new) }
    {
        let Some(disconnect) = disconnect else {
            return Ok(());
        };
        match self.role {
            Role::Client => {
                let broken = breaks_c20(&self.state, disconnect);
                judge_each(place, &[(Rule::C20, broken)], faults)
            }
            Role::Server => judge_each(place, &[(Rule::C19, breaks_c19(disconnect))], faults),
        }
    }

    // Judges C23; the flag says whether the event is a REST.
    #[inline]
    fn judge_rest(&self, place: Place3, is_rest: bool, faults: &mut Faults) -> Result<(), Memory>
        ensures ok { OnOk result (Judges (is_among (finding.rest_verdicts self.now.role self.now.state is_rest)) place faults.old faults.new) }
        ensures memory { OnErr result (JudgesWithin (is_among (finding.rest_verdicts self.now.role self.now.state is_rest)) place faults.old faults.new) }
    {
        judge_each(
            place,
            &[(Rule::C23, breaks_c23(&self.state, self.role, is_rest))],
            faults,
        )
    }
}

// The Topic Alias that a PUBLISH without a Topic Name uses.
#[inline]
fn used_alias(publish: &PublishNote) -> Option<u16>
    ensures { result ≡ only (length publish.now.topic == 0) publish.now.topic_alias }
{
    if publish.topic.is_empty() {
        publish.topic_alias
    } else {
        None
    }
}

// Adds a fault for each of these statements that is false. At most events none is.
#[inline(always)]
pub(crate) fn judge_each(
    place: Place3,
    verdicts: &[Verdict],
    faults: &mut Faults,
) -> Result<(), Memory>
    ensures ok { OnOk result (Judges (is_among verdicts.now) place faults.old faults.new) }
    ensures memory { OnErr result (JudgesWithin (is_among verdicts.now) place faults.old faults.new) }
{
    if is_any_broken(verdicts) {
        judge_broken(place, verdicts, faults)
    } else {
        Ok(())
    }
}

// Whether any of these statements is false.
#[inline(always)]
fn is_any_broken(verdicts: &[Verdict]) -> bool
    ensures { result ≡ finding.is_any_broken verdicts.now }
{
    verdicts.iter().any(|(_, broken)| *broken)
}

// Judges these statements one after another.
#[inline(always)]
fn judge_broken(place: Place3, verdicts: &[Verdict], faults: &mut Faults) -> Result<(), Memory>
    ensures ok { OnOk result (Judges (is_among verdicts.now) place faults.old faults.new) }
    ensures memory { OnErr result (JudgesWithin (is_among verdicts.now) place faults.old faults.new) }
{
    for (rule, broken) in verdicts {
        faults.judge(*rule, place, *broken)?;
    }
    Ok(())
}
