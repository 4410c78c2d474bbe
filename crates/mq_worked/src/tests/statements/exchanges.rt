//! Statements on what is acknowledged (E1A to E7R).

// Each exchange in turn.
pub const EXCHANGES: &str = "\
E1A, client: PUBACK without PUBLISH | client OPEN >CONNECT <CONNACK >PUBACK:1 | fault 4 E1A MQTT-2.2.1-5 decided 4 record 4 offset -; fail 1 faults 4 events
E1A, client: after it | client OPEN >CONNECT <CONNACK <PUBLISH1:1 >PUBACK:1 | pass 5 events
E1R, client: no PUBACK at rest | client OPEN >CONNECT <CONNACK <PUBLISH1:1 REST | fault 4 E1R MQTT-4.3.2-4 decided 5 record 4 offset -; fail 1 faults 5 events
E1R, client: it was sent | client OPEN >CONNECT <CONNACK <PUBLISH1:1 >PUBACK:1 REST | pass 6 events
E1A, server: PUBACK without PUBLISH | server OPEN <CONNECT-NAMED >CONNACK >PUBACK:1 | fault 4 E1A MQTT-2.2.1-5 decided 4 record 4 offset -; fail 1 faults 4 events
E1A, server: after it | server OPEN <CONNECT-NAMED >CONNACK <PUBLISH1:1 >PUBACK:1 | pass 5 events
E1R, server: no PUBACK at rest | server OPEN <CONNECT-NAMED >CONNACK <PUBLISH1:1 REST | fault 4 E1R MQTT-4.3.2-4 decided 5 record 4 offset -; fail 1 faults 5 events
E1R, server: it was sent | server OPEN <CONNECT-NAMED >CONNACK <PUBLISH1:1 >PUBACK:1 REST | pass 6 events
E1O, client: PUBACK in another order | client OPEN >CONNECT <CONNACK <PUBLISH1:1 <PUBLISH1:2 >PUBACK:2 >PUBACK:1 | fault 6 E1O MQTT-4.6.0-2 decided 6 record 6 offset -; fail 1 faults 7 events
E1O, client: in the order of what is acknowledged | client OPEN >CONNECT <CONNACK <PUBLISH1:1 <PUBLISH1:2 >PUBACK:1 >PUBACK:2 | pass 7 events
E1O, a server isn't bound | server OPEN <CONNECT-NAMED >CONNACK <PUBLISH1:1 <PUBLISH1:2 >PUBACK:2 >PUBACK:1 | pass 7 events
E2A, client: PUBREC without PUBLISH | client OPEN >CONNECT <CONNACK >PUBREC:1 | fault 4 E2A MQTT-2.2.1-5 decided 4 record 4 offset -; fail 1 faults 4 events
E2A, client: after it | client OPEN >CONNECT <CONNACK <PUBLISH2:1 >PUBREC:1 | pass 5 events
E2R, client: no PUBREC at rest | client OPEN >CONNECT <CONNACK <PUBLISH2:1 REST | fault 4 E2R MQTT-4.3.3-8 decided 5 record 4 offset -; fail 1 faults 5 events
E2R, client: it was sent | client OPEN >CONNECT <CONNACK <PUBLISH2:1 >PUBREC:1 REST | pass 6 events
E2A, server: PUBREC without PUBLISH | server OPEN <CONNECT-NAMED >CONNACK >PUBREC:1 | fault 4 E2A MQTT-2.2.1-5 decided 4 record 4 offset -; fail 1 faults 4 events
E2A, server: after it | server OPEN <CONNECT-NAMED >CONNACK <PUBLISH2:1 >PUBREC:1 | pass 5 events
E2R, server: no PUBREC at rest | server OPEN <CONNECT-NAMED >CONNACK <PUBLISH2:1 REST | fault 4 E2R MQTT-4.3.3-8 decided 5 record 4 offset -; fail 1 faults 5 events
E2R, server: it was sent | server OPEN <CONNECT-NAMED >CONNACK <PUBLISH2:1 >PUBREC:1 REST | pass 6 events
E2O, client: PUBREC in another order | client OPEN >CONNECT <CONNACK <PUBLISH2:1 <PUBLISH2:2 >PUBREC:2 >PUBREC:1 | fault 6 E2O MQTT-4.6.0-3 decided 6 record 6 offset -; fail 1 faults 7 events
E2O, client: in the order of what is acknowledged | client OPEN >CONNECT <CONNACK <PUBLISH2:1 <PUBLISH2:2 >PUBREC:1 >PUBREC:2 | pass 7 events
E2O, a server isn't bound | server OPEN <CONNECT-NAMED >CONNACK <PUBLISH2:1 <PUBLISH2:2 >PUBREC:2 >PUBREC:1 | pass 7 events
E3A, client: PUBREL without PUBREC | client OPEN >CONNECT <CONNACK >PUBREL:1 | fault 4 E3A MQTT-2.2.1-5 decided 4 record 4 offset -; fail 1 faults 4 events
E3A, client: after it | client OPEN >CONNECT <CONNACK <PUBREC:1 >PUBREL:1 | pass 5 events
E3R, client: no PUBREL at rest | client OPEN >CONNECT <CONNACK <PUBREC:1 REST | fault 4 E3R MQTT-4.3.3-4 decided 5 record 4 offset -; fail 1 faults 5 events
E3R, client: it was sent | client OPEN >CONNECT <CONNACK <PUBREC:1 >PUBREL:1 REST | pass 6 events
E3A, server: PUBREL without PUBREC | server OPEN <CONNECT-NAMED >CONNACK >PUBREL:1 | fault 4 E3A MQTT-2.2.1-5 decided 4 record 4 offset -; fail 1 faults 4 events
E3A, server: after it | server OPEN <CONNECT-NAMED >CONNACK <PUBREC:1 >PUBREL:1 | pass 5 events
E3R, server: no PUBREL at rest | server OPEN <CONNECT-NAMED >CONNACK <PUBREC:1 REST | fault 4 E3R MQTT-4.3.3-4 decided 5 record 4 offset -; fail 1 faults 5 events
E3R, server: it was sent | server OPEN <CONNECT-NAMED >CONNACK <PUBREC:1 >PUBREL:1 REST | pass 6 events
E3O, client: PUBREL in another order | client OPEN >CONNECT <CONNACK <PUBREC:1 <PUBREC:2 >PUBREL:2 >PUBREL:1 | fault 6 E3O MQTT-4.6.0-4 decided 6 record 6 offset -; fail 1 faults 7 events
E3O, client: in the order of what is acknowledged | client OPEN >CONNECT <CONNACK <PUBREC:1 <PUBREC:2 >PUBREL:1 >PUBREL:2 | pass 7 events
E3O, a server isn't bound | server OPEN <CONNECT-NAMED >CONNACK <PUBREC:1 <PUBREC:2 >PUBREL:2 >PUBREL:1 | pass 7 events
E4A, client: PUBCOMP without PUBREL | client OPEN >CONNECT <CONNACK >PUBCOMP:1 | fault 4 E4A MQTT-2.2.1-5 decided 4 record 4 offset -; fail 1 faults 4 events
E4A, client: after it | client OPEN >CONNECT <CONNACK <PUBREL:1 >PUBCOMP:1 | pass 5 events
E4R, client: no PUBCOMP at rest | client OPEN >CONNECT <CONNACK <PUBREL:1 REST | fault 4 E4R MQTT-4.3.3-11 decided 5 record 4 offset -; fail 1 faults 5 events
E4R, client: it was sent | client OPEN >CONNECT <CONNACK <PUBREL:1 >PUBCOMP:1 REST | pass 6 events
E4A, server: PUBCOMP without PUBREL | server OPEN <CONNECT-NAMED >CONNACK >PUBCOMP:1 | fault 4 E4A MQTT-2.2.1-5 decided 4 record 4 offset -; fail 1 faults 4 events
E4A, server: after it | server OPEN <CONNECT-NAMED >CONNACK <PUBREL:1 >PUBCOMP:1 | pass 5 events
E4R, server: no PUBCOMP at rest | server OPEN <CONNECT-NAMED >CONNACK <PUBREL:1 REST | fault 4 E4R MQTT-4.3.3-11 decided 5 record 4 offset -; fail 1 faults 5 events
E4R, server: it was sent | server OPEN <CONNECT-NAMED >CONNACK <PUBREL:1 >PUBCOMP:1 REST | pass 6 events
E5A, server: SUBACK without SUBSCRIBE | server OPEN <CONNECT-NAMED >CONNACK >SUBACK:1 | fault 4 E5A MQTT-2.2.1-6 decided 4 record 4 offset -; fail 1 faults 4 events
E5A, server: after it | server OPEN <CONNECT-NAMED >CONNACK <SUBSCRIBE:1 >SUBACK:1 | pass 5 events
E5R, server: no SUBACK at rest | server OPEN <CONNECT-NAMED >CONNACK <SUBSCRIBE:1 REST | fault 4 E5R MQTT-3.8.4-1 decided 5 record 4 offset -; fail 1 faults 5 events
E5R, server: it was sent | server OPEN <CONNECT-NAMED >CONNACK <SUBSCRIBE:1 >SUBACK:1 REST | pass 6 events
E6A, server: UNSUBACK without UNSUBSCRIBE | server OPEN <CONNECT-NAMED >CONNACK >UNSUBACK:1 | fault 4 E6A MQTT-2.2.1-6 decided 4 record 4 offset -; fail 1 faults 4 events
E6A, server: after it | server OPEN <CONNECT-NAMED >CONNACK <UNSUBSCRIBE:1 >UNSUBACK:1 | pass 5 events
E6R, server: no UNSUBACK at rest | server OPEN <CONNECT-NAMED >CONNACK <UNSUBSCRIBE:1 REST | fault 4 E6R MQTT-3.10.4-4 decided 5 record 4 offset -; fail 1 faults 5 events
E6R, server: it was sent | server OPEN <CONNECT-NAMED >CONNACK <UNSUBSCRIBE:1 >UNSUBACK:1 REST | pass 6 events";

// PINGREQ, and what one exchange may look like.
pub const CASES: &str = "\
E7R, server: no PINGRESP at rest | server OPEN <CONNECT-NAMED >CONNACK <PINGREQ REST | fault 5 E7R MQTT-3.12.4-1 decided 5 record 5 offset -; fail 1 faults 5 events
E7R, server: it was sent | server OPEN <CONNECT-NAMED >CONNACK <PINGREQ >PINGRESP REST | pass 6 events
E7R, server: one for two, and at the next REST still | server OPEN <CONNECT-NAMED >CONNACK <PINGREQ <PINGREQ >PINGRESP REST REST | fault 7 E7R MQTT-3.12.4-1 decided 7 record 7 offset -; fault 8 E7R MQTT-3.12.4-1 decided 8 record 8 offset -; fail 2 faults 8 events
E7R, server: a PINGRESP before its PINGREQ counts | server OPEN <CONNECT-NAMED >CONNACK >PINGRESP <PINGREQ REST | pass 6 events
E7R, a client isn't bound | client OPEN >CONNECT <CONNACK <PINGREQ REST | pass 5 events
E3A, client: a PUBREC of 0x80 asks for no PUBREL | client OPEN >CONNECT <CONNACK >PUBLISH2:1 <PUBREC-80:1 >PUBREL:1 | fault 6 E3A MQTT-2.2.1-5 decided 6 record 6 offset -; fail 1 faults 6 events
E3R, client: nor is one owed | client OPEN >CONNECT <CONNACK >PUBLISH2:1 <PUBREC-80:1 REST | pass 6 events
E1A, client: one PUBACK for one PUBLISH | client OPEN >CONNECT <CONNACK <PUBLISH1:1 >PUBACK:1 >PUBACK:1 | fault 6 E1A MQTT-2.2.1-5 decided 6 record 6 offset -; fail 1 faults 6 events
E1A, client: again on the next connection | client OPEN >CONNECT-KEPT <CONNACK <PUBLISH1:1 >PUBACK:1 CLOSE OPEN >RECONNECT <CONNACK-RESUMED >PUBACK:1 | pass 10 events
E1A, client: but not in a new session | client OPEN >CONNECT-KEPT <CONNACK <PUBLISH1:1 >PUBACK:1 CLOSE OPEN >RECONNECT <CONNACK >PUBACK:1 | fault 10 E1A MQTT-2.2.1-5 decided 10 record 10 offset -; fail 1 faults 10 events
E1A, client: a PUBLISH of QoS 2 asks for no PUBACK | client OPEN >CONNECT <CONNACK <PUBLISH2:1 >PUBACK:1 | fault 5 E1A MQTT-2.2.1-5 decided 5 record 5 offset -; fail 1 faults 5 events
E1O, client: the order is that of the first PUBLISH under each identifier | client OPEN >CONNECT <CONNACK <PUBLISH1:1 <PUBLISH1:2 <RESEND1:1 >PUBACK:1 | pass 7 events
E1O, client: an answer without a cause is in no order | client OPEN >CONNECT <CONNACK <PUBLISH1:1 >PUBACK:2 | fault 5 E1A MQTT-2.2.1-5 decided 5 record 5 offset -; fail 1 faults 5 events
E1R, client: owed for the first of two under one identifier | client OPEN >CONNECT <CONNACK <PUBLISH1:1 <RESEND1:1 REST | fault 4 E1R MQTT-4.3.2-4 decided 6 record 4 offset -; fail 1 faults 6 events
E1R, client: a PUBACK before a second PUBLISH | client OPEN >CONNECT <CONNACK <PUBLISH1:1 >PUBACK:1 <PUBLISH1:1 REST | fault 6 E1R MQTT-4.3.2-4 decided 7 record 6 offset -; fail 1 faults 7 events
E1R, client: a second REST shows nothing more | client OPEN >CONNECT <CONNACK <PUBLISH1:1 REST REST | fault 4 E1R MQTT-4.3.2-4 decided 5 record 4 offset -; fail 1 faults 6 events
E1R, client: a PUBACK after the REST comes too late | client OPEN >CONNECT <CONNACK <PUBLISH1:1 REST >PUBACK:1 | fault 4 E1R MQTT-4.3.2-4 decided 5 record 4 offset -; fail 1 faults 6 events
E1R, client: at rest on the next connection nothing is owed | client OPEN >CONNECT-KEPT <CONNACK <PUBLISH1:1 CLOSE OPEN >RECONNECT <CONNACK-RESUMED REST | pass 9 events
E1R, client: not owed after its own DISCONNECT | client OPEN >CONNECT <CONNACK <PUBLISH1:1 >DISCONNECT REST | fault 6 C23 MQTT-3.14.4-2 decided 6 record 6 offset -; fail 1 faults 6 events
E1R, client: not owed after a DISCONNECT of the server | client OPEN >CONNECT <CONNACK <PUBLISH1:1 <DISCONNECT REST | pass 6 events
E1R, client: not owed after bytes that break a rule | client OPEN >CONNECT <CONNACK <PUBLISH1:1 <300400012300 REST | pass 6 events
E1R, client: not owed after its own bytes that break one | client OPEN >CONNECT <CONNACK <PUBLISH1:1 >300400012300 REST | fault 5 W14 sec-3.3.2 decided 5 record 5 offset 2; fail 1 faults 6 events
E1R, client: not owed after a lost packet | client OPEN >CONNECT <CONNACK <PUBLISH1:1 <LOST REST | pass 6 events
E1R, client: not owed where the server refuses | client OPEN >CONNECT <CONNACK-REFUSED <PUBLISH1:1 REST | pass 5 events
E1R, client: not owed at a REST before the PUBLISH | client OPEN >CONNECT <CONNACK REST <PUBLISH1:1 | pass 5 events
E2R, client: any PUBREC answers | client OPEN >CONNECT <CONNACK <PUBLISH2:1 >PUBREC-80:1 REST | pass 6 events
E5R, server: under identifiers of its own | server OPEN <CONNECT-NAMED >CONNACK <SUBSCRIBE:1 <UNSUBSCRIBE:2 >SUBACK:1 REST | fault 5 E6R MQTT-3.10.4-4 decided 7 record 5 offset -; fail 1 faults 7 events
each exchange has its own order | client OPEN >CONNECT <CONNACK <PUBLISH1:1 <PUBLISH2:2 >PUBREC:2 >PUBACK:1 | pass 7 events
an answer to another end's packet is none here | client OPEN >CONNECT <CONNACK >PUBLISH1:1 >PUBACK:1 | fault 5 E1A MQTT-2.2.1-5 decided 5 record 5 offset -; fail 1 faults 5 events";
