//! What the statements on a packet's bytes say.
ghost use Rattle.std.specs.Prelude.{◌≡◌};
ghost use Rattle.mq_display.specs.Sentences.{packet_rule_sentence};

use mq_packet::PacketRule;
use mq_rules::Rule;

/// What the statement on this rule says of the tested end, in one sentence.
pub fn rule_sentence(rule: PacketRule) -> &'static str
    ensures { result.now ≡ packet_rule_sentence rule }
{
    Rule::of(rule).sentence()
}
