//! What each statement says, in a sentence, and the statement that a code names.
ghost use Rattle.std.specs.Prelude.{◌≡◌, Some, bytes_eq, map, option_map};
ghost use Rattle.std.specs.Char.{to_ascii_lowercase};
ghost use Rattle.std.specs.Str.{str_eq_ignore_ascii_case};
ghost use Rattle.std.specs.List.{IsDistinct, find};
ghost use Rattle.mq_rules.specs.declared.rule.Rule.{Rule};
ghost use Rattle.mq_rules.specs.Naming.{coded_line, coded_rule, sentence_of};
ghost use Rattle.mq_rules.specs.Rules.{StatementLine, all_rules, code_of, line_view, lines_of};

use crate::rule::Rule;
use crate::table::{Row, TABLE};

// The first row with this code, in capitals or not.
fn row_with_code(table: &[Row], code: &str) -> Option<Row>
    ensures { result ≡ find (λ row. str_eq_ignore_ascii_case row.1.now code.now) table.now }
{
    table.iter().copied().find(|(_, written, _, _, _, _)| written.eq_ignore_ascii_case(code))
}

// The first row with this code, as contracts see it: its texts are lists of bytes.
fn row_with_code_in(table: &[Row], code: &str) -> Option<Row>
    ensures { option_map line_view result
        ≡ find (λ line. str_eq_ignore_ascii_case line.code code.now) (lines_of table.now) }
{
    row_with_code(table, code)
}

// The row with this code, if there is one.
#[tactic(auto, unfolding(crate::specs::Naming::coded_line, crate::specs::Rules::lines))]
fn find_coded(code: &str) -> Option<Row>
    ensures { option_map line_view result ≡ coded_line code.now }
{
    row_with_code_in(&TABLE, code)
}

impl Rule {
    /// What the statement says of the tested end, in one sentence.
    #[tactic(auto, unfolding(crate::specs::Naming::sentence_of))]
    pub fn sentence(self) -> &'static str
        ensures { result.now ≡ sentence_of self }
    {
        match self {
            Rule::W01 => "The flags of a packet other than PUBLISH are those of its type.",
            Rule::W02 => "The type isn't 0.",
            Rule::W03 =>
                "A Variable Byte Integer has at most four bytes, and no more than it needs.",
            Rule::W04 => "A text is well-formed UTF-8.",
            Rule::W05 => "A text doesn't contain U+0000.",
            Rule::W06 => "Each field ends within its packet or list, and no bytes are left over.",
            Rule::W07 => "The QoS of a PUBLISH isn't 3.",
            Rule::W08 => "DUP is 0 in a PUBLISH of QoS 0.",
            Rule::W09 => "A Packet Identifier isn't 0.",
            Rule::W10 => "A property is known, and allowed in its list.",
            Rule::W11 => "No property is repeated in a list, except those that may be.",
            Rule::W12 => "The value of a property is in its range.",
            Rule::W13 => "A Reason Code is one that its packet may have.",
            Rule::W14 => "A Topic Name, and the Response Topic of a PUBLISH, has no wildcard.",
            Rule::W15 => "A Topic Filter is valid.",
            Rule::W16 => "A SUBSCRIBE or UNSUBSCRIBE has at least one filter.",
            Rule::W17 =>
                "The Subscription Options have neither Maximum QoS 3 nor Retain Handling 3, and no reserved bit is set.",
            Rule::W18 => "The Protocol Name is `MQTT`.",
            Rule::W19 =>
                "The Connect Flags have no reserved bit set, no Will QoS 3, and no Will QoS or Will Retain without a Will.",
            Rule::W20 => "The Connect Acknowledge Flags have no reserved bit set.",
            Rule::W21 => "A PUBLISH has a Topic Name or a Topic Alias.",
            Rule::C01 => "A packet has a type that this end may send.",
            Rule::C02 => "The first packet that a client sends on a connection is a CONNECT.",
            Rule::C03 => "A client sends only one CONNECT on a connection.",
            Rule::C04 => "A server sends a CONNACK only after a CONNECT was received.",
            Rule::C05 => "Before its CONNACK a server sends no packet other than AUTH.",
            Rule::C06 => "A server sends only one CONNACK on a connection.",
            Rule::C07 => "Session Present is 0 if Clean Start was 1.",
            Rule::C08 => "Session Present is 1 only if the server has a session.",
            Rule::C09 => "Session Present is 0 in a CONNACK that refuses.",
            Rule::C10 => "A client whose Client Identifier was empty is assigned one.",
            Rule::C11 => "After a DISCONNECT no packet is sent, and no bytes that break a rule.",
            Rule::C12 =>
                "After a CONNACK that refuses a server sends no packet, and no bytes that break a rule.",
            Rule::C13 =>
                "A client without a session doesn't resume one: after Session Present 1 it sends only a DISCONNECT.",
            Rule::C14 => "A packet isn't larger than the peer's Maximum Packet Size.",
            Rule::C15 => "A Topic Alias isn't above the peer's Topic Alias Maximum.",
            Rule::C16 => "A Topic Alias that stands for a Topic Name was set on this connection.",
            Rule::C17 => "A PUBLISH isn't sent at a QoS above the server's Maximum QoS.",
            Rule::C18 => "A client sends no Subscription Identifier in a PUBLISH.",
            Rule::C19 => "A server sends no Session Expiry Interval in a DISCONNECT.",
            Rule::C20 => "A DISCONNECT doesn't change a Session Expiry Interval of 0.",
            Rule::C21 =>
                "A client that asked for none gets a Reason String or User Property only in a PUBLISH, CONNACK or DISCONNECT.",
            Rule::C22 => "Response Information is sent only if the client asked for it.",
            Rule::C23 =>
                "An end that sent a DISCONNECT, or a CONNACK that refuses, closes the connection.",
            Rule::S01 =>
                "A new PUBLISH, SUBSCRIBE or UNSUBSCRIBE takes no Packet Identifier that is in use.",
            Rule::S02 =>
                "A PUBLISH with DUP 1 was sent before, and isn't acknowledged in its session.",
            Rule::S03 => "A PUBLISH isn't sent again on the same connection.",
            Rule::S04 => "A PUBLISH isn't sent again once its PUBREL was sent.",
            Rule::S05 => "A client sends PUBLISHes again in their original order.",
            Rule::S06 => "Unacknowledged packets are sent again when a session is resumed.",
            Rule::S07 => "No more PUBLISHes are in flight than the peer's Receive Maximum.",
            Rule::E1A => "A PUBACK answers a PUBLISH of QoS 1.",
            Rule::E1R => "A PUBLISH of QoS 1 is answered by a PUBACK.",
            Rule::E1O => "A client sends PUBACKs in the order of the PUBLISHes.",
            Rule::E2A => "A PUBREC answers a PUBLISH of QoS 2.",
            Rule::E2R => "A PUBLISH of QoS 2 is answered by a PUBREC.",
            Rule::E2O => "A client sends PUBRECs in the order of the PUBLISHes.",
            Rule::E3A => "A PUBREL answers a PUBREC that accepts.",
            Rule::E3R => "A PUBREC that accepts is answered by a PUBREL.",
            Rule::E3O => "A client sends PUBRELs in the order of the PUBRECs.",
            Rule::E4A => "A PUBCOMP answers a PUBREL.",
            Rule::E4R => "A PUBREL is answered by a PUBCOMP.",
            Rule::E5A => "A SUBACK answers a SUBSCRIBE.",
            Rule::E5R => "A SUBSCRIBE is answered by a SUBACK.",
            Rule::E6A => "An UNSUBACK answers an UNSUBSCRIBE.",
            Rule::E6R => "An UNSUBSCRIBE is answered by an UNSUBACK.",
            Rule::E7R => "A PINGREQ is answered by a PINGRESP.",
            Rule::L1 =>
                "Only a QoS 2 message that was received, and whose exchange isn't over, is released.",
            Rule::L2 => "A QoS 2 message is released once.",
            Rule::L3 => "A QoS 2 message is released before its PUBCOMP.",
            Rule::B01 => "A PUBLISH from the server matches a subscription.",
            Rule::B02 => "A PUBLISH from the server isn't at a QoS above what was granted.",
            Rule::B03 => "A SUBACK has a Reason Code for each filter.",
            Rule::B04 => "An UNSUBACK has a Reason Code for each filter.",
            Rule::B05 => "A SUBACK grants no more than was asked for.",
            Rule::B06 => "No UNSUBACK says of a subscription that it doesn't exist.",
            Rule::B07 => "No UNSUBACK says that a filter was deleted which was never subscribed.",
            Rule::B08 => "A PUBLISH from the server matches a subscription, where some are shared.",
            Rule::B09 => "A PUBLISH isn't at a QoS above what was granted, where some are shared.",
            Rule::P01 =>
                "A Subscription Identifier of a PUBLISH is that of a matching subscription.",
            Rule::P02 =>
                "A PUBLISH has a Subscription Identifier, if each matching subscription has.",
            Rule::R01 => "RETAIN is 0 where no matching subscription asks for anything else.",
            Rule::R02 => "No retained message is sent for a shared subscription.",
            Rule::F01 => "A new PUBLISH has RETAIN 0 where Retain Available is 0.",
            Rule::F02 => "No filter has a wildcard where the server takes none.",
            Rule::F03 => "No SUBSCRIBE has a Subscription Identifier where the server takes none.",
            Rule::F04 => "No SUBSCRIBE has a shared filter where the server takes none.",
            Rule::F05 => "A Will QoS above the announced Maximum QoS is refused.",
            Rule::F06 => "A Will with Will Retain 1 is refused where Retain Available is 0.",
            Rule::V03 => "A shared filter has a name without wildcards, and a filter after it.",
            Rule::V04 => "No Local is 0 for a shared filter.",
            Rule::V06 => "A Reason Code is one that this end may send.",
            Rule::C24 => "A CONNECT is answered by a CONNACK, if the connection stays open.",
            Rule::D01 => "After a Malformed Packet the server closes the connection.",
            Rule::D02 => "After a second CONNECT the server closes the connection.",
            Rule::D03 => "After a Protocol Error the server closes the connection.",
            Rule::D05 => "After more QoS 2 PUBLISHes than its Receive Maximum the server closes.",
            Rule::A01 =>
                "A client that uses an Authentication Method sends only AUTH and DISCONNECT before a CONNACK was received.",
            Rule::A02 =>
                "Without an Authentication Method in CONNECT there is no enhanced authentication.",
            Rule::A03 =>
                "AUTH and an accepting CONNACK have the Authentication Method of the CONNECT.",
            Rule::K01 => "A client isn't silent for longer than the Keep Alive.",
            Rule::K02 => "A server closes the connection of a client that is silent.",
        }
    }

    /// The statement that has this code, in capital or small letters. `None` if no statement has
    /// it.
    #[tactic(auto, unfolding(crate::specs::Naming::coded_rule))]
    pub fn of_code(code: &str) -> Option<Rule>
        ensures { result ≡ coded_rule code.now }
    {
        find_coded(code).map(|(rule, _, _, _, _, _)| rule)
    }
}

/// No two statements have the same sentence, and the code of each, in capitals or not, names it.
pub fn each_statement_is_named()
    ensures differ { IsDistinct bytes_eq (map sentence_of all_rules) }
    ensures named { (rule : Rule) → coded_rule (code_of rule) ≡ Some rule }
    ensures small { (rule : Rule) → coded_rule (map to_ascii_lowercase (code_of rule)) ≡ Some rule }
{}
