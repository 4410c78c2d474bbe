//! Statements on the identifiers of requests, on what is sent again, and on the send quota (S01 to
//! S07).

// Identifiers of requests.
pub const REQUESTS: &str = "\
S01, client: SUBSCRIBE under an identifier of one without SUBACK | client OPEN >CONNECT <CONNACK >SUBSCRIBE:1 >SUBSCRIBE:1 | fault 5 S01 MQTT-2.2.1-3 decided 5 record 5 offset -; fail 1 faults 5 events
S01, client: after its SUBACK | client OPEN >CONNECT <CONNACK >SUBSCRIBE:1 <SUBACK:1 >SUBSCRIBE:1 | pass 6 events
S01, client: UNSUBSCRIBE under an identifier of one without UNSUBACK | client OPEN >CONNECT <CONNACK >UNSUBSCRIBE:1 >UNSUBSCRIBE:1 | fault 5 S01 MQTT-2.2.1-3 decided 5 record 5 offset -; fail 1 faults 5 events
S01, client: after its UNSUBACK | client OPEN >CONNECT <CONNACK >UNSUBSCRIBE:1 <UNSUBACK:1 >UNSUBSCRIBE:1 | pass 6 events
S01, client: PUBLISH under an identifier of a SUBSCRIBE | client OPEN >CONNECT <CONNACK >SUBSCRIBE:1 >PUBLISH1:1 | fault 5 S01 MQTT-2.2.1-3 decided 5 record 5 offset -; fail 1 faults 5 events
S01, client: SUBSCRIBE under an identifier of a PUBLISH | client OPEN >CONNECT <CONNACK >PUBLISH1:1 >SUBSCRIBE:1 | fault 5 S01 MQTT-2.2.1-3 decided 5 record 5 offset -; fail 1 faults 5 events
S01, client: a pending SUBSCRIBE lapses with its connection | client OPEN >CONNECT-KEPT <CONNACK >SUBSCRIBE:1 CLOSE OPEN >RECONNECT <CONNACK-RESUMED >PUBLISH1:1 | pass 9 events
does a SUBACK settle an UNSUBSCRIBE? no | client OPEN >CONNECT <CONNACK >UNSUBSCRIBE:1 <SUBACK:1 >PUBLISH1:1 | fault 6 S01 MQTT-2.2.1-3 decided 6 record 6 offset -; fail 1 faults 6 events
does an UNSUBACK settle a SUBSCRIBE? no | client OPEN >CONNECT <CONNACK >SUBSCRIBE:1 <UNSUBACK:1 >PUBLISH1:1 | fault 6 S01 MQTT-2.2.1-3 decided 6 record 6 offset -; fail 1 faults 6 events
does a server's own SUBSCRIBE take an identifier? yes | server OPEN <CONNECT-NAMED >CONNACK <SUBSCRIBE-ALL:1 >SUBSCRIBE:1 >PUBLISH1:1 | fault 5 C01 sec-2.1.2 decided 5 record 5 offset -; fault 6 S01 MQTT-2.2.1-4 decided 6 record 6 offset -; fail 2 faults 6 events
is a server's own SUBSCRIBE judged? no | server OPEN <CONNECT-NAMED >CONNACK <SUBSCRIBE-ALL:1 >PUBLISH1:1 >SUBSCRIBE:1 | fault 6 C01 sec-2.1.2 decided 6 record 6 offset -; fail 1 faults 6 events";

// What is sent again.
pub const RESENDS: &str = "\
S02, client: sent again in a session that has no such message | client OPEN >CONNECT-KEPT <CONNACK >PUBLISH1:1 CLOSE OPEN >RECONNECT <CONNACK >RESEND1:1 | fault 9 S02 MQTT-4.3.2-2,MQTT-4.3.3-2 decided 9 record 9 offset -; fail 1 faults 9 events
S02, client: in the one that has it | client OPEN >CONNECT-KEPT <CONNACK >PUBLISH1:1 CLOSE OPEN >RECONNECT <CONNACK-RESUMED >RESEND1:1 | pass 9 events
S02, client: it was never sent | client OPEN >CONNECT <CONNACK >RESEND1:1 | fault 4 S02 MQTT-4.3.2-2,MQTT-4.3.3-2 decided 4 record 4 offset -; fail 1 faults 4 events
S02, client: it was acknowledged | client OPEN >CONNECT-KEPT <CONNACK >PUBLISH1:1 <PUBACK:1 CLOSE OPEN >RECONNECT <CONNACK-RESUMED >RESEND1:1 | fault 10 S02 MQTT-4.3.2-2,MQTT-4.3.3-2 decided 10 record 10 offset -; fail 1 faults 10 events
S02, client: it was sent on a connection that the server refused | client OPEN >CONNECT-KEPT <CONNACK-REFUSED >PUBLISH1:1 CLOSE OPEN >RECONNECT <CONNACK >RESEND1:1 | pass 9 events
S02, server: sent again in a session that has no such message | server OPEN <CONNECT-KEPT >CONNACK <SUBSCRIBE-ALL:1 >PUBLISH1:1 CLOSE OPEN <RECONNECT >CONNACK >RESEND1:1 | fault 10 S02 MQTT-4.3.2-2,MQTT-4.3.3-2 decided 10 record 10 offset -; fail 1 faults 10 events
S02, server: in the one that has it | server OPEN <CONNECT-KEPT >CONNACK <SUBSCRIBE-ALL:1 >PUBLISH1:1 CLOSE OPEN <RECONNECT >CONNACK-RESUMED >RESEND1:1 | pass 10 events
S03, client: sent again on its own connection | client OPEN >CONNECT-KEPT <CONNACK >PUBLISH1:1 >RESEND1:1 | fault 5 S03 MQTT-4.4.0-1 decided 5 record 5 offset -; fail 1 faults 5 events
S03, client: on the next one | client OPEN >CONNECT-KEPT <CONNACK >PUBLISH1:1 CLOSE OPEN >RECONNECT <CONNACK-RESUMED >RESEND1:1 | pass 9 events
S03, client: twice on the next one | client OPEN >CONNECT-KEPT <CONNACK >PUBLISH1:1 CLOSE OPEN >RECONNECT <CONNACK-RESUMED >RESEND1:1 >RESEND1:1 | fault 10 S03 MQTT-4.4.0-1 decided 10 record 10 offset -; fail 1 faults 10 events
S03, client: after a PUBACK there is nothing to send again | client OPEN >CONNECT-KEPT <CONNACK >PUBLISH1:1 <PUBACK:1 >RESEND1:1 | fault 6 S02 MQTT-4.3.2-2,MQTT-4.3.3-2 decided 6 record 6 offset -; fail 1 faults 6 events
S03, server: sent again on its own connection | server OPEN <CONNECT-KEPT >CONNACK <SUBSCRIBE-ALL:1 >PUBLISH1:1 >RESEND1:1 | fault 6 S03 MQTT-4.4.0-1 decided 6 record 6 offset -; fail 1 faults 6 events
S03, server: on the next one | server OPEN <CONNECT-KEPT >CONNACK <SUBSCRIBE-ALL:1 >PUBLISH1:1 CLOSE OPEN <RECONNECT >CONNACK-RESUMED >RESEND1:1 | pass 10 events
S04, client: a QoS 2 PUBLISH sent again after its PUBREL | client OPEN >CONNECT-KEPT <CONNACK >PUBLISH2:1 <PUBREC:1 >PUBREL:1 CLOSE OPEN >RECONNECT <CONNACK-RESUMED >RESEND2:1 | fault 11 S04 MQTT-4.3.3-6 decided 11 record 11 offset -; fail 1 faults 11 events
S04, client: its PUBREL wasn't sent | client OPEN >CONNECT-KEPT <CONNACK >PUBLISH2:1 <PUBREC:1 CLOSE OPEN >RECONNECT <CONNACK-RESUMED >RESEND2:1 | pass 10 events
S04, client: the PUBREL was for a message before it | client OPEN >CONNECT-KEPT <CONNACK >PUBLISH2:1 <PUBREC:1 >PUBREL:1 <PUBCOMP:1 >PUBLISH2:1 CLOSE OPEN >RECONNECT <CONNACK-RESUMED >RESEND2:1 | pass 13 events
S04, server: a QoS 2 PUBLISH sent again after its PUBREL | server OPEN <CONNECT-KEPT >CONNACK <SUBSCRIBE-ALL:1 >PUBLISH2:1 <PUBREC:1 >PUBREL:1 CLOSE OPEN <RECONNECT >CONNACK-RESUMED >RESEND2:1 | fault 12 S04 MQTT-4.3.3-6 decided 12 record 12 offset -; fail 1 faults 12 events
S04, server: its PUBREL wasn't sent | server OPEN <CONNECT-KEPT >CONNACK <SUBSCRIBE-ALL:1 >PUBLISH2:1 <PUBREC:1 CLOSE OPEN <RECONNECT >CONNACK-RESUMED >RESEND2:1 | pass 11 events
S05, client: sent again in another order | client OPEN >CONNECT-KEPT <CONNACK >PUBLISH1:1 >PUBLISH1:2 CLOSE OPEN >RECONNECT <CONNACK-RESUMED >RESEND1:2 >RESEND1:1 | fault 11 S05 MQTT-4.6.0-1 decided 11 record 11 offset -; fail 1 faults 11 events
S05, client: in their order | client OPEN >CONNECT-KEPT <CONNACK >PUBLISH1:1 >PUBLISH1:2 CLOSE OPEN >RECONNECT <CONNACK-RESUMED >RESEND1:1 >RESEND1:2 | pass 11 events
S05, client: on different connections | client OPEN >CONNECT-KEPT <CONNACK >PUBLISH1:1 >PUBLISH1:2 CLOSE OPEN >RECONNECT <CONNACK-RESUMED >RESEND1:2 CLOSE OPEN >RECONNECT <CONNACK-RESUMED >RESEND1:1 | pass 15 events
S05, a server isn't bound | server OPEN <CONNECT-KEPT >CONNACK <SUBSCRIBE-ALL:1 >PUBLISH1:1 >PUBLISH1:2 CLOSE OPEN <RECONNECT >CONNACK-RESUMED >RESEND1:2 >RESEND1:1 | pass 12 events
which sending of a message was sent again before? the latest one before that, and not a later one | client OPEN >CONNECT-KEPT <CONNACK >PUBLISH1:2 >PUBLISH1:1 CLOSE OPEN >RECONNECT <CONNACK-RESUMED >RESEND1:2 <PUBACK:2 >PUBLISH1:2 >RESEND1:1 | pass 13 events
does the order count what wasn't open when it was sent again? no | client OPEN >CONNECT-KEPT <CONNACK >PUBLISH1:1 CLOSE OPEN >RECONNECT <CONNACK-RESUMED >RESEND1:3 >PUBLISH1:3 >RESEND1:1 | fault 9 S02 MQTT-4.3.2-2,MQTT-4.3.3-2 decided 9 record 9 offset -; fail 1 faults 11 events";

// What a resumed session owes, and the send quota.
pub const REDELIVERY: &str = "\
S06, client: a message that isn't sent again on a resumed session | client OPEN >CONNECT-KEPT <CONNACK >PUBLISH1:1 CLOSE OPEN >RECONNECT <CONNACK-RESUMED REST | fault 4 S06 MQTT-4.4.0-1 decided 9 record 4 offset -; fail 1 faults 9 events
S06, client: it is sent again | client OPEN >CONNECT-KEPT <CONNACK >PUBLISH1:1 CLOSE OPEN >RECONNECT <CONNACK-RESUMED >RESEND1:1 REST | pass 10 events
S06, client: in a new session | client OPEN >CONNECT-KEPT <CONNACK >PUBLISH1:1 CLOSE OPEN >RECONNECT <CONNACK REST | pass 9 events
S06, client: a PUBREL is sent for it | client OPEN >CONNECT-KEPT <CONNACK >PUBLISH2:1 <PUBREC:1 CLOSE OPEN >RECONNECT <CONNACK-RESUMED >PUBREL:1 REST | pass 11 events
S06, client: no PUBREL is sent for it | client OPEN >CONNECT-KEPT <CONNACK >PUBLISH2:1 <PUBREC:1 CLOSE OPEN >RECONNECT <CONNACK-RESUMED REST | fault 4 S06 MQTT-4.4.0-1 decided 10 record 4 offset -; fail 1 faults 10 events
S06, client: the send quota is used up | client OPEN >CONNECT-KEPT <CONNACK >PUBLISH1:1 >PUBLISH1:2 CLOSE OPEN >RECONNECT <RESUMED-RECEIVES-1 >RESEND1:1 REST | pass 11 events
S06, client: it isn't, and what was sent again is acknowledged | client OPEN >CONNECT-KEPT <CONNACK >PUBLISH1:1 >PUBLISH1:2 CLOSE OPEN >RECONNECT <RESUMED-RECEIVES-2 >RESEND1:1 <PUBACK:1 REST | fault 5 S06 MQTT-4.4.0-1 decided 12 record 5 offset -; fail 1 faults 12 events
S06, client: it isn't, but what was sent again waits for its answer | client OPEN >CONNECT-KEPT <CONNACK >PUBLISH1:1 >PUBLISH1:2 CLOSE OPEN >RECONNECT <RESUMED-RECEIVES-2 >RESEND1:1 REST | pass 11 events
S06, client: a used up quota is no excuse after a PUBREC | client OPEN >CONNECT-KEPT <CONNACK >PUBLISH1:1 >PUBLISH2:2 <PUBREC:2 CLOSE OPEN >RECONNECT <RESUMED-RECEIVES-1 >RESEND1:1 >RESEND1:1 <PUBACK:1 REST | fault 5 S06 MQTT-4.4.0-1 decided 14 record 5 offset -; fault 12 S03 MQTT-4.4.0-1 decided 12 record 12 offset -; fault 12 S07 MQTT-4.9.0-2 decided 12 record 12 offset -; fail 3 faults 14 events
S06, client: nor is it shown then while an answer is awaited | client OPEN >CONNECT-KEPT <CONNACK >PUBLISH1:1 >PUBLISH2:2 <PUBREC:2 CLOSE OPEN >RECONNECT <RESUMED-RECEIVES-1 >RESEND1:1 REST | pass 12 events
S06, client: at rest after a DISCONNECT of the server nothing is owed | client OPEN >CONNECT-KEPT <CONNACK >PUBLISH1:1 CLOSE OPEN >RECONNECT <CONNACK-RESUMED <DISCONNECT REST | pass 10 events
S06, server: a message that isn't sent again on a resumed session | server OPEN <CONNECT-KEPT >CONNACK <SUBSCRIBE-ALL:1 >PUBLISH1:1 CLOSE OPEN <RECONNECT >CONNACK-RESUMED REST | fault 5 S06 MQTT-4.4.0-1 decided 10 record 5 offset -; fail 1 faults 10 events
S06, server: it is sent again | server OPEN <CONNECT-KEPT >CONNACK <SUBSCRIBE-ALL:1 >PUBLISH1:1 CLOSE OPEN <RECONNECT >CONNACK-RESUMED >RESEND1:1 REST | pass 11 events
does any Maximum Packet Size excuse a message that isn't sent again? yes | client OPEN >CONNECT-KEPT <CONNACK >PUBLISH1:1 CLOSE OPEN >RECONNECT <RESUMED-SIZED REST | pass 9 events
and any Maximum QoS? | client OPEN >CONNECT-KEPT <CONNACK >PUBLISH1:1 CLOSE OPEN >RECONNECT <RESUMED-QOS-1 REST | pass 9 events
and for a server? | server OPEN <CONNECT-KEPT >CONNACK <SUBSCRIBE-ALL:1 >PUBLISH1:1 CLOSE OPEN <RECONNECT-SIZED >CONNACK-RESUMED REST | pass 10 events
is a message that is owed at two RESTs reported twice? no, and it is decided at the first | client OPEN >CONNECT-KEPT <CONNACK >PUBLISH1:1 CLOSE OPEN >RECONNECT <CONNACK-RESUMED REST REST | fault 4 S06 MQTT-4.4.0-1 decided 9 record 4 offset -; fail 1 faults 10 events
S07, client: a second PUBLISH, where one may be received | client OPEN >CONNECT <CONNACK-RECEIVES-1 >PUBLISH1:1 >PUBLISH1:2 | fault 5 S07 MQTT-4.9.0-2 decided 5 record 5 offset -; fail 1 faults 5 events
S07, client: after the first was acknowledged | client OPEN >CONNECT <CONNACK-RECEIVES-1 >PUBLISH1:1 <PUBACK:1 >PUBLISH1:2 | pass 6 events
S07, client: a PUBLISH of QoS 0 needs no quota | client OPEN >CONNECT <CONNACK-RECEIVES-1 >PUBLISH1:1 >PUBLISH0 | pass 5 events
S07, client: messages of the connection before don't count, and their PUBCOMPs give no more than there was | client OPEN >CONNECT-KEPT <CONNACK >PUBLISH2:1 <PUBREC:1 >PUBREL:1 CLOSE OPEN >RECONNECT <RESUMED-RECEIVES-1 >PUBREL:1 >PUBLISH1:2 <PUBCOMP:1 >PUBLISH1:3 | pass 14 events
S07, client: and one more | client OPEN >CONNECT-KEPT <CONNACK >PUBLISH2:1 <PUBREC:1 >PUBREL:1 CLOSE OPEN >RECONNECT <RESUMED-RECEIVES-1 >PUBREL:1 >PUBLISH1:2 <PUBCOMP:1 >PUBLISH1:3 >PUBLISH1:4 | fault 15 S07 MQTT-4.9.0-2 decided 15 record 15 offset -; fail 1 faults 15 events
S07, client: a PUBCOMP before the first PUBLISH gives nothing | client OPEN >CONNECT-KEPT <CONNACK >PUBLISH2:1 <PUBREC:1 >PUBREL:1 CLOSE OPEN >RECONNECT <RESUMED-RECEIVES-1 >PUBREL:1 <PUBCOMP:1 >PUBLISH1:2 >PUBLISH1:3 | fault 14 S07 MQTT-4.9.0-2 decided 14 record 14 offset -; fail 1 faults 14 events
S07, client: what is sent again counts | client OPEN >CONNECT-KEPT <CONNACK >PUBLISH1:1 >PUBLISH1:2 CLOSE OPEN >RECONNECT <RESUMED-RECEIVES-1 >RESEND1:1 >RESEND1:2 | fault 11 S07 MQTT-4.9.0-2 decided 11 record 11 offset -; fail 1 faults 11 events
S07, client: a PUBREC of 0x80 gives quota | client OPEN >CONNECT <CONNACK-RECEIVES-1 >PUBLISH2:1 <PUBREC-80:1 >PUBLISH1:2 | pass 6 events
S07, client: a PUBREC below it doesn't | client OPEN >CONNECT <CONNACK-RECEIVES-1 >PUBLISH2:1 <PUBREC:1 >PUBLISH1:2 | fault 6 S07 MQTT-4.9.0-2 decided 6 record 6 offset -; fail 1 faults 6 events
S07, server: a second PUBLISH, where one may be received | server OPEN <CONNECT-RECEIVES-1 >CONNACK <SUBSCRIBE-ALL:1 >PUBLISH1:1 >PUBLISH1:2 | fault 6 S07 MQTT-4.9.0-2 decided 6 record 6 offset -; fail 1 faults 6 events
S07, server: after the first was acknowledged | server OPEN <CONNECT-RECEIVES-1 >CONNACK <SUBSCRIBE-ALL:1 >PUBLISH1:1 <PUBACK:1 >PUBLISH1:2 | pass 7 events";
