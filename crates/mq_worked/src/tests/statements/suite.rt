//! The conformance suite: for each statement, for one end that it binds, a log that breaks it and
//! one that keeps it, which differ in one record. `bench/suite.py` makes the files of
//! `examples/suite` of these rows.

// Statements on a packet's bytes: flags, integers, texts, identifiers and properties.
pub const SHAPES: &str = "\
W01 broken, server: a PINGRESP has a reserved flag set | server OPEN <CONNECT-NAMED >CONNACK <PINGREQ >D100 CLOSE | fault 5 W01 MQTT-2.1.3-1 decided 5 record 5 offset 0; fail 1 faults 6 events
W01 kept, server: its flags are 0 | server OPEN <CONNECT-NAMED >CONNACK <PINGREQ >PINGRESP CLOSE | pass 6 events
W02 broken, client: a packet has the type 0 | client OPEN >CONNECT-NAMED <CONNACK >0000 CLOSE | fault 4 W02 sec-2.1.2 decided 4 record 4 offset 0; fail 1 faults 5 events
W02 kept, client: it has the type 12 | client OPEN >CONNECT-NAMED <CONNACK >PINGREQ CLOSE | pass 5 events
W03 broken, client: the property length 0 is in two bytes | client OPEN >CONNECT-NAMED <CONNACK >3006000161800078 CLOSE | fault 4 W03 MQTT-1.5.5-1 decided 4 record 4 offset 5; fail 1 faults 5 events
W03 kept, client: it is in one | client OPEN >CONNECT-NAMED <CONNACK >PUBLISH0 CLOSE | pass 5 events
W04 broken, client: the Topic Name isn't UTF-8 | client OPEN >CONNECT-NAMED <CONNACK >30050001FF0078 CLOSE | fault 4 W04 MQTT-1.5.4-1 decided 4 record 4 offset 2; fail 1 faults 5 events
W04 kept, client: it is | client OPEN >CONNECT-NAMED <CONNACK >PUBLISH0 CLOSE | pass 5 events
W05 broken, client: the Topic Name has U+0000 | client OPEN >CONNECT-NAMED <CONNACK >30050001000078 CLOSE | fault 4 W05 MQTT-1.5.4-2 decided 4 record 4 offset 2; fail 1 faults 5 events
W05 kept, client: it has the letter a | client OPEN >CONNECT-NAMED <CONNACK >PUBLISH0 CLOSE | pass 5 events
W06 broken, client: a PINGREQ has a byte after its last field | client OPEN >CONNECT-NAMED <CONNACK >C00100 CLOSE | fault 4 W06 sec-2.1.4 decided 4 record 4 offset 2; fail 1 faults 5 events
W06 kept, client: it has none | client OPEN >CONNECT-NAMED <CONNACK >PINGREQ CLOSE | pass 5 events
W07 broken, client: a PUBLISH has QoS 3 | client OPEN >CONNECT-NAMED <CONNACK >360700016100010078 CLOSE | fault 4 W07 MQTT-3.3.1-4 decided 4 record 4 offset 0; fail 1 faults 5 events
W07 kept, client: it has QoS 2 | client OPEN >CONNECT-NAMED <CONNACK >PUBLISH2:1 CLOSE | pass 5 events
W08 broken, client: a PUBLISH of QoS 0 has DUP 1 | client OPEN >CONNECT-NAMED <CONNACK >38050001610078 CLOSE | fault 4 W08 MQTT-3.3.1-2 decided 4 record 4 offset 0; fail 1 faults 5 events
W08 kept, client: it has DUP 0 | client OPEN >CONNECT-NAMED <CONNACK >PUBLISH0 CLOSE | pass 5 events
W09 broken, client: a PUBLISH of QoS 1 has the Packet Identifier 0 | client OPEN >CONNECT-NAMED <CONNACK >320700016100000078 CLOSE | fault 4 W09 sec-2.2.1 decided 4 record 4 offset 5; fail 1 faults 5 events
W09 kept, client: it has 1 | client OPEN >CONNECT-NAMED <CONNACK >PUBLISH1:1 CLOSE | pass 5 events
W10 broken, client: a PUBLISH has the property Request Problem Information | client OPEN >CONNECT-NAMED <CONNACK >300700016102170078 CLOSE | fault 4 W10 sec-2.2.2.2 decided 4 record 4 offset 6; fail 1 faults 5 events
W10 kept, client: it has Payload Format Indicator | client OPEN >CONNECT-NAMED <CONNACK >300700016102010078 CLOSE | pass 5 events
W11 broken, client: a PUBLISH has Payload Format Indicator twice | client OPEN >CONNECT-NAMED <CONNACK >3009000161040100010078 CLOSE | fault 4 W11 sec-2.2.2.2 decided 4 record 4 offset 8; fail 1 faults 5 events
W11 kept, client: it has it once | client OPEN >CONNECT-NAMED <CONNACK >300700016102010078 CLOSE | pass 5 events
W12 broken, server: a PUBLISH has the Subscription Identifier 0 | server OPEN <CONNECT-NAMED >CONNACK <82090001020B0100016102 >SUBACK:1 >3007000161020B0078 CLOSE | fault 6 W12 sec-2.2.2.2 decided 6 record 6 offset 7; fail 1 faults 7 events
W12 kept, server: it has 1 | server OPEN <CONNECT-NAMED >CONNACK <82090001020B0100016102 >SUBACK:1 >3007000161020B0178 CLOSE | pass 7 events
W13 broken, server: a DISCONNECT has the Reason Code 0x8A, which only a CONNACK may have | server OPEN <CONNECT-NAMED >CONNACK >E0018A CLOSE | fault 4 W13 sec-2.4 decided 4 record 4 offset 2; fail 1 faults 5 events
W13 kept, server: it has 0x8B | server OPEN <CONNECT-NAMED >CONNACK >E0018B CLOSE | pass 5 events";

// The same: topics, filters, and what opens a connection.
pub const TOPICS: &str = "\
W14 broken, client: the Topic Name is a wildcard | client OPEN >CONNECT-NAMED <CONNACK >30050001230078 CLOSE | fault 4 W14 sec-3.3.2 decided 4 record 4 offset 2; fail 1 faults 5 events
W14 kept, client: it is the letter a | client OPEN >CONNECT-NAMED <CONNACK >PUBLISH0 CLOSE | pass 5 events
W15 broken, client: in a Topic Filter a wildcard isn't a level of its own | client OPEN >CONNECT-NAMED <CONNACK >82080001000002612302 CLOSE | fault 4 W15 sec-4.7 decided 4 record 4 offset 5; fail 1 faults 5 events
W15 kept, client: it is | client OPEN >CONNECT-NAMED <CONNACK >82090001000003612F2302 CLOSE | pass 5 events
W16 broken, client: a SUBSCRIBE has no filter | client OPEN >CONNECT-NAMED <CONNACK >8203000100 CLOSE | fault 4 W16 MQTT-3.8.3-2,MQTT-3.10.3-2 decided 4 record 4 offset 5; fail 1 faults 5 events
W16 kept, client: it has one | client OPEN >CONNECT-NAMED <CONNACK >SUBSCRIBE:1 CLOSE | pass 5 events
W17 broken, client: the Subscription Options ask for QoS 3 | client OPEN >CONNECT-NAMED <CONNACK >820700010000016103 CLOSE | fault 4 W17 sec-3.8.3 decided 4 record 4 offset 8; fail 1 faults 5 events
W17 kept, client: they ask for QoS 2 | client OPEN >CONNECT-NAMED <CONNACK >SUBSCRIBE:1 CLOSE | pass 5 events
W18 broken, client: the Protocol Name is MQTX | client OPEN >100E00044D5154580502003C00000163 CLOSE | fault 2 W18 sec-3.1.2 decided 2 record 2 offset 2; fail 1 faults 3 events
W18 kept, client: it is MQTT | client OPEN >CONNECT-NAMED CLOSE | pass 3 events
W19 broken, client: the reserved bit of the Connect Flags is set | client OPEN >100E00044D5154540503003C00000163 CLOSE | fault 2 W19 sec-3.1.2 decided 2 record 2 offset 9; fail 1 faults 3 events
W19 kept, client: it isn't | client OPEN >CONNECT-NAMED CLOSE | pass 3 events
W20 broken, server: a reserved bit of the Connect Acknowledge Flags is set | server OPEN <CONNECT-NAMED >BAD-CONNACK CLOSE | fault 3 W20 MQTT-3.2.2-1 decided 3 record 3 offset 2; fail 1 faults 4 events
W20 kept, server: none is | server OPEN <CONNECT-NAMED >CONNACK CLOSE | pass 4 events
W21 broken, client: a PUBLISH has neither a Topic Name nor a Topic Alias | client OPEN >CONNECT-NAMED <CONNACK-ALIASES-5 >ALIAS-SET-1 >300400000078 CLOSE | fault 5 W21 sec-3.3.2 decided 5 record 5 offset 4; fail 1 faults 6 events
W21 kept, client: it has a Topic Alias | client OPEN >CONNECT-NAMED <CONNACK-ALIASES-5 >ALIAS-SET-1 >ALIAS-1 CLOSE | pass 6 events";

// Statements on the past of a connection: how it begins and ends.
pub const BEGINNINGS: &str = "\
C01 broken, client: it sends a PINGRESP | client OPEN >CONNECT-NAMED <CONNACK >PINGRESP CLOSE | fault 4 C01 sec-2.1.2 decided 4 record 4 offset -; fail 1 faults 5 events
C01 kept, client: it sends a PINGREQ | client OPEN >CONNECT-NAMED <CONNACK >PINGREQ CLOSE | pass 5 events
C02 broken, client: it sends a PINGREQ before its CONNECT | client OPEN >PINGREQ >CONNECT-NAMED <CONNACK CLOSE | fault 2 C02 MQTT-3.1.0-1 decided 2 record 2 offset -; fail 1 faults 5 events
C02 kept, client: it sends nothing before it | client OPEN >CONNECT-NAMED <CONNACK CLOSE | pass 4 events
C03 broken, client: it sends a second CONNECT | client OPEN >CONNECT-NAMED <CONNACK >CONNECT-NAMED CLOSE | fault 4 C03 sec-3.1 decided 4 record 4 offset -; fail 1 faults 5 events
C03 kept, client: it sends only one | client OPEN >CONNECT-NAMED <CONNACK CLOSE | pass 4 events
C04 broken, server: it sends a CONNACK, and no CONNECT came | server OPEN >CONNACK CLOSE | fault 2 C04 sec-3.2 decided 2 record 2 offset -; fail 1 faults 3 events
C04 kept, server: a CONNECT came before it | server OPEN <CONNECT-NAMED >CONNACK CLOSE | pass 4 events
C05 broken, server: it sends a PINGRESP before its CONNACK | server OPEN <CONNECT-NAMED <PINGREQ >PINGRESP >CONNACK CLOSE | fault 4 C05 MQTT-3.2.0-1 decided 4 record 4 offset -; fail 1 faults 6 events
C05 kept, server: it sends nothing before it | server OPEN <CONNECT-NAMED <PINGREQ >CONNACK CLOSE | pass 5 events
C06 broken, server: it sends a second CONNACK | server OPEN <CONNECT-NAMED >CONNACK >CONNACK CLOSE | fault 4 C06 MQTT-3.2.0-2 decided 4 record 4 offset -; fail 1 faults 5 events
C06 kept, server: it sends only one | server OPEN <CONNECT-NAMED >CONNACK CLOSE | pass 4 events
C07 broken, server: the client asks for a Clean Start, and gets Session Present 1 | server OPEN <CONNECT-KEPT >CONNACK CLOSE OPEN <CONNECT-KEPT >CONNACK-RESUMED CLOSE | fault 7 C07 MQTT-3.2.2-2 decided 7 record 7 offset -; fail 1 faults 8 events
C07 kept, server: it gets Session Present 0 | server OPEN <CONNECT-KEPT >CONNACK CLOSE OPEN <CONNECT-KEPT >CONNACK CLOSE | pass 8 events
C08 broken, server: the CONNACK has Session Present 1, and the server has no session | server OPEN <RECONNECT >CONNACK-RESUMED CLOSE | fault 3 C08 MQTT-3.2.2-3 decided 3 record 3 offset -; fail 1 faults 4 events
C08 kept, server: it has Session Present 0 | server OPEN <RECONNECT >CONNACK CLOSE | pass 4 events
C09 broken, server: a CONNACK that refuses has Session Present 1 | server OPEN <RECONNECT >2003018700 CLOSE | fault 3 C09 MQTT-3.2.2-6 decided 3 record 3 offset -; fail 1 faults 4 events
C09 kept, server: it has Session Present 0 | server OPEN <RECONNECT >CONNACK-REFUSED CLOSE | pass 4 events
C10 broken, server: a client without a Client Identifier is assigned none | server OPEN <CONNECT >CONNACK CLOSE | fault 3 C10 MQTT-3.2.2-16 decided 3 record 3 offset -; fail 1 faults 4 events
C10 kept, server: it is assigned one | server OPEN <CONNECT >CONNACK-NAMING CLOSE | pass 4 events
C11 broken, client: it sends a PINGREQ after its DISCONNECT | client OPEN >CONNECT-NAMED <CONNACK >DISCONNECT >PINGREQ CLOSE | fault 5 C11 MQTT-3.14.4-1 decided 5 record 5 offset -; fail 1 faults 6 events
C11 kept, client: it sends nothing after it | client OPEN >CONNECT-NAMED <CONNACK >DISCONNECT CLOSE | pass 5 events
C12 broken, server: it sends a DISCONNECT after a CONNACK that refuses | server OPEN <CONNECT-NAMED >CONNACK-REFUSED >DISCONNECT CLOSE | fault 4 C12 MQTT-3.2.2-7 decided 4 record 4 offset -; fail 1 faults 5 events
C12 kept, server: it sends nothing after it | server OPEN <CONNECT-NAMED >CONNACK-REFUSED CLOSE | pass 4 events
C13 broken, client: it has no session, gets Session Present 1, and sends a PINGREQ | client OPEN >CONNECT-NAMED <CONNACK-RESUMED >PINGREQ CLOSE | fault 4 C13 MQTT-3.2.2-4 decided 4 record 4 offset -; fail 1 faults 5 events
C13 kept, client: it sends a DISCONNECT | client OPEN >CONNECT-NAMED <CONNACK-RESUMED >DISCONNECT CLOSE | pass 5 events";

// The same: what the peer announced, and rest.
pub const LIMITS: &str = "\
C14 broken, client: it sends a packet of 11 bytes, and the server's Maximum Packet Size is 10 | client OPEN >CONNECT-NAMED <CONNACK-SIZE-10 >3009000161007878787878 CLOSE | fault 4 C14 MQTT-3.2.2-15 decided 4 record 4 offset -; fail 1 faults 5 events
C14 kept, client: it sends one of 10 | client OPEN >CONNECT-NAMED <CONNACK-SIZE-10 >30080001610078787878 CLOSE | pass 5 events
C15 broken, server: it sends the Topic Alias 6, and the client's Topic Alias Maximum is 5 | server OPEN <CONNECT-ALIASES-5 >CONNACK <SUBSCRIBE:1 >SUBACK:1 >30080001610323000678 CLOSE | fault 6 C15 MQTT-3.1.2-26 decided 6 record 6 offset -; fail 1 faults 7 events
C15 kept, server: it sends 5 | server OPEN <CONNECT-ALIASES-5 >CONNACK <SUBSCRIBE:1 >SUBACK:1 >30080001610323000578 CLOSE | pass 7 events
C16 broken, client: it sends the Topic Alias 1 without a Topic Name, and never set it | client OPEN >CONNECT-NAMED <CONNACK-ALIASES-5 >ALIAS-1 CLOSE | fault 4 C16 sec-3.3.2 decided 4 record 4 offset -; fail 1 faults 5 events
C16 kept, client: it set it before | client OPEN >CONNECT-NAMED <CONNACK-ALIASES-5 >ALIAS-SET-1 >ALIAS-1 CLOSE | pass 6 events
C17 broken, client: it sends a PUBLISH of QoS 2, and the server's Maximum QoS is 1 | client OPEN >CONNECT-NAMED <CONNACK-QOS-1 >PUBLISH2:1 CLOSE | fault 4 C17 MQTT-3.2.2-11 decided 4 record 4 offset -; fail 1 faults 5 events
C17 kept, client: it sends one of QoS 1 | client OPEN >CONNECT-NAMED <CONNACK-QOS-1 >PUBLISH1:1 CLOSE | pass 5 events
C18 broken, client: its PUBLISH has a Subscription Identifier | client OPEN >CONNECT-NAMED <CONNACK >3007000161020B0178 CLOSE | fault 4 C18 MQTT-3.3.4-6 decided 4 record 4 offset -; fail 1 faults 5 events
C18 kept, client: it has none | client OPEN >CONNECT-NAMED <CONNACK >PUBLISH0 CLOSE | pass 5 events
C19 broken, server: its DISCONNECT has a Session Expiry Interval | server OPEN <CONNECT-KEPT >CONNACK >DISCONNECT-60 CLOSE | fault 4 C19 MQTT-3.14.2-2 decided 4 record 4 offset -; fail 1 faults 5 events
C19 kept, server: it has none | server OPEN <CONNECT-KEPT >CONNACK >DISCONNECT CLOSE | pass 5 events
C20 broken, client: its DISCONNECT has a Session Expiry Interval of 60, and its CONNECT had none | client OPEN >CONNECT-NAMED <CONNACK >DISCONNECT-60 CLOSE | fault 4 C20 sec-3.14.2 decided 4 record 4 offset -; fail 1 faults 5 events
C20 kept, client: its CONNECT had one of 60 | client OPEN >CONNECT-KEPT <CONNACK >DISCONNECT-60 CLOSE | pass 5 events
C21 broken, server: its SUBACK has a Reason String, and the client asked for none | server OPEN <CONNECT-TERSE >CONNACK <SUBSCRIBE:1 >90080001041F00017802 CLOSE | fault 5 C21 MQTT-3.1.2-29 decided 5 record 5 offset -; fail 1 faults 6 events
C21 kept, server: it has none | server OPEN <CONNECT-TERSE >CONNACK <SUBSCRIBE:1 >SUBACK:1 CLOSE | pass 6 events
C22 broken, server: its CONNACK has Response Information, and the client didn't ask for it | server OPEN <CONNECT-NAMED >CONNACK-INFORMING CLOSE | fault 3 C22 MQTT-3.1.2-28 decided 3 record 3 offset -; fail 1 faults 4 events
C22 kept, server: the client asked for it | server OPEN <CONNECT-ASKING >CONNACK-INFORMING CLOSE | pass 4 events
C23 broken, client: it is at rest after its DISCONNECT, and the connection is open | client OPEN >CONNECT-NAMED <CONNACK >DISCONNECT REST CLOSE | fault 5 C23 MQTT-3.14.4-2 decided 5 record 5 offset -; fail 1 faults 6 events
C23 kept, client: the connection is closed after it | client OPEN >CONNECT-NAMED <CONNACK >DISCONNECT CLOSE | pass 5 events";

// Statements on Packet Identifiers, on what is sent again, and on the send quota.
pub const IDENTIFIERS: &str = "\
S01 broken, client: a PUBLISH takes the Packet Identifier of one that isn't acknowledged | client OPEN >CONNECT-NAMED <CONNACK >PUBLISH1:1 >PUBLISH1:2 >PUBLISH1:1 CLOSE | fault 6 S01 MQTT-2.2.1-3 decided 6 record 6 offset -; fail 1 faults 7 events
S01 kept, client: a PUBACK came between | client OPEN >CONNECT-NAMED <CONNACK >PUBLISH1:1 >PUBLISH1:2 <PUBACK:1 >PUBLISH1:1 CLOSE | pass 8 events
S02 broken, client: a PUBLISH that was never sent before has DUP 1 | client OPEN >CONNECT-KEPT <CONNACK CLOSE OPEN >RECONNECT <CONNACK-RESUMED >RESEND1:1 CLOSE | fault 8 S02 MQTT-4.3.2-2,MQTT-4.3.3-2 decided 8 record 8 offset -; fail 1 faults 9 events
S02 kept, client: it was sent on the connection before | client OPEN >CONNECT-KEPT <CONNACK >PUBLISH1:1 CLOSE OPEN >RECONNECT <CONNACK-RESUMED >RESEND1:1 CLOSE | pass 10 events
S03 broken, server: it sends a PUBLISH again twice on the same connection | server OPEN <CONNECT-KEPT >CONNACK <SUBSCRIBE:1 >SUBACK:1 >PUBLISH1:1 CLOSE OPEN <RECONNECT >CONNACK-RESUMED >RESEND1:1 >RESEND1:1 <PUBACK:1 CLOSE | fault 12 S03 MQTT-4.4.0-1 decided 12 record 12 offset -; fail 1 faults 14 events
S03 kept, server: it sends it again once | server OPEN <CONNECT-KEPT >CONNACK <SUBSCRIBE:1 >SUBACK:1 >PUBLISH1:1 CLOSE OPEN <RECONNECT >CONNACK-RESUMED >RESEND1:1 <PUBACK:1 CLOSE | pass 13 events
S04 broken, client: on the next connection it sends a PUBLISH again, whose PUBREL it had sent | client OPEN >CONNECT-KEPT <CONNACK >PUBLISH2:1 <PUBREC:1 >PUBREL:1 CLOSE OPEN >RECONNECT <CONNACK-RESUMED >RESEND2:1 CLOSE | fault 11 S04 MQTT-4.3.3-6 decided 11 record 11 offset -; fail 1 faults 12 events
S04 kept, client: it sends the PUBREL again | client OPEN >CONNECT-KEPT <CONNACK >PUBLISH2:1 <PUBREC:1 >PUBREL:1 CLOSE OPEN >RECONNECT <CONNACK-RESUMED >PUBREL:1 CLOSE | pass 12 events
S05 broken, client: it sends the third of three PUBLISHes again before the second | client OPEN >CONNECT-KEPT <CONNACK >PUBLISH1:1 >PUBLISH1:2 >PUBLISH1:3 CLOSE OPEN >RECONNECT <CONNACK-RESUMED >RESEND1:3 >RESEND1:2 CLOSE | fault 12 S05 MQTT-4.6.0-1 decided 12 record 12 offset -; fail 1 faults 13 events
S05 kept, client: it sends the first again before the second | client OPEN >CONNECT-KEPT <CONNACK >PUBLISH1:1 >PUBLISH1:2 >PUBLISH1:3 CLOSE OPEN >RECONNECT <CONNACK-RESUMED >RESEND1:1 >RESEND1:2 CLOSE | pass 13 events
S06 broken, client: its session is resumed, and it comes to rest before it sends its PUBLISH again | client OPEN >CONNECT-KEPT <CONNACK >PUBLISH1:1 CLOSE OPEN >RECONNECT <CONNACK-RESUMED REST >RESEND1:1 <PUBACK:1 REST CLOSE | fault 4 S06 MQTT-4.4.0-1 decided 9 record 4 offset -; fail 1 faults 13 events
S06 kept, client: it comes to rest when that is sent again and acknowledged | client OPEN >CONNECT-KEPT <CONNACK >PUBLISH1:1 CLOSE OPEN >RECONNECT <CONNACK-RESUMED >RESEND1:1 <PUBACK:1 REST CLOSE | pass 12 events
S07 broken, client: it has two PUBLISHes in flight, and the server's Receive Maximum is 1 | client OPEN >CONNECT-NAMED <CONNACK-RECEIVES-1 >PUBLISH1:1 >PUBLISH1:2 CLOSE | fault 5 S07 MQTT-4.9.0-2 decided 5 record 5 offset -; fail 1 faults 6 events
S07 kept, client: a PUBACK for the first came between | client OPEN >CONNECT-NAMED <CONNACK-RECEIVES-1 >PUBLISH1:1 <PUBACK:1 >PUBLISH1:2 CLOSE | pass 7 events";

// Statements on exchanges of PUBLISH, PUBREC and PUBREL.
pub const EXCHANGES: &str = "\
E1A broken, client: it sends a PUBACK, and no PUBLISH came | client OPEN >CONNECT-NAMED <CONNACK >PUBACK:1 CLOSE | fault 4 E1A MQTT-2.2.1-5 decided 4 record 4 offset -; fail 1 faults 5 events
E1A kept, client: a PUBLISH of QoS 1 came before it | client OPEN >CONNECT-NAMED <CONNACK <PUBLISH1:1 >PUBACK:1 CLOSE | pass 6 events
E1R broken, client: it comes to rest without a PUBACK for a PUBLISH of QoS 1 | client OPEN >CONNECT-NAMED <CONNACK <PUBLISH1:1 REST CLOSE | fault 4 E1R MQTT-4.3.2-4 decided 5 record 4 offset -; fail 1 faults 6 events
E1R kept, client: it sent the PUBACK | client OPEN >CONNECT-NAMED <CONNACK <PUBLISH1:1 >PUBACK:1 REST CLOSE | pass 7 events
E1O broken, client: two PUBLISHes of QoS 1 came, and it acknowledges the second first | client OPEN >CONNECT-NAMED <CONNACK <PUBLISH1:1 <PUBLISH1:2 >PUBACK:2 CLOSE | fault 6 E1O MQTT-4.6.0-2 decided 6 record 6 offset -; fail 1 faults 7 events
E1O kept, client: it acknowledges the first | client OPEN >CONNECT-NAMED <CONNACK <PUBLISH1:1 <PUBLISH1:2 >PUBACK:1 CLOSE | pass 7 events
E2A broken, server: it sends a PUBREC, and no PUBLISH came | server OPEN <CONNECT-NAMED >CONNACK >PUBREC:1 CLOSE | fault 4 E2A MQTT-2.2.1-5 decided 4 record 4 offset -; fail 1 faults 5 events
E2A kept, server: a PUBLISH of QoS 2 came before it | server OPEN <CONNECT-NAMED >CONNACK <PUBLISH2:1 >PUBREC:1 CLOSE | pass 6 events
E2R broken, server: it comes to rest without a PUBREC for a PUBLISH of QoS 2 | server OPEN <CONNECT-NAMED >CONNACK <PUBLISH2:1 REST CLOSE | fault 4 E2R MQTT-4.3.3-8 decided 5 record 4 offset -; fail 1 faults 6 events
E2R kept, server: it sent the PUBREC | server OPEN <CONNECT-NAMED >CONNACK <PUBLISH2:1 >PUBREC:1 REST CLOSE | pass 7 events
E2O broken, client: two PUBLISHes of QoS 2 came, and it sends the PUBREC for the second first | client OPEN >CONNECT-NAMED <CONNACK <PUBLISH2:1 <PUBLISH2:2 >PUBREC:2 CLOSE | fault 6 E2O MQTT-4.6.0-3 decided 6 record 6 offset -; fail 1 faults 7 events
E2O kept, client: it sends that for the first | client OPEN >CONNECT-NAMED <CONNACK <PUBLISH2:1 <PUBLISH2:2 >PUBREC:1 CLOSE | pass 7 events
E3A broken, client: it sends a PUBREL, and no PUBREC came | client OPEN >CONNECT-NAMED <CONNACK >PUBLISH2:1 >PUBREL:1 CLOSE | fault 5 E3A MQTT-2.2.1-5 decided 5 record 5 offset -; fail 1 faults 6 events
E3A kept, client: a PUBREC came before it | client OPEN >CONNECT-NAMED <CONNACK >PUBLISH2:1 <PUBREC:1 >PUBREL:1 CLOSE | pass 7 events
E3R broken, client: it comes to rest without a PUBREL for a PUBREC | client OPEN >CONNECT-NAMED <CONNACK >PUBLISH2:1 <PUBREC:1 REST CLOSE | fault 5 E3R MQTT-4.3.3-4 decided 6 record 5 offset -; fail 1 faults 7 events
E3R kept, client: it sent the PUBREL | client OPEN >CONNECT-NAMED <CONNACK >PUBLISH2:1 <PUBREC:1 >PUBREL:1 REST CLOSE | pass 8 events
E3O broken, client: two PUBRECs came, and it sends the PUBREL for the second first | client OPEN >CONNECT-NAMED <CONNACK >PUBLISH2:1 >PUBLISH2:2 <PUBREC:1 <PUBREC:2 >PUBREL:2 CLOSE | fault 8 E3O MQTT-4.6.0-4 decided 8 record 8 offset -; fail 1 faults 9 events
E3O kept, client: it sends that for the first | client OPEN >CONNECT-NAMED <CONNACK >PUBLISH2:1 >PUBLISH2:2 <PUBREC:1 <PUBREC:2 >PUBREL:1 CLOSE | pass 9 events";

// The same: PUBCOMP and the answers to requests.
pub const ANSWERS: &str = "\
E4A broken, server: it sends a PUBCOMP, and no PUBREL came | server OPEN <CONNECT-NAMED >CONNACK <PUBLISH2:1 RELEASE:1 >PUBREC:1 >PUBCOMP:1 CLOSE | fault 7 E4A MQTT-2.2.1-5 decided 7 record 7 offset -; fail 1 faults 8 events
E4A kept, server: a PUBREL came before it | server OPEN <CONNECT-NAMED >CONNACK <PUBLISH2:1 RELEASE:1 >PUBREC:1 <PUBREL:1 >PUBCOMP:1 CLOSE | pass 9 events
E4R broken, server: it comes to rest without a PUBCOMP for a PUBREL | server OPEN <CONNECT-NAMED >CONNACK <PUBLISH2:1 RELEASE:1 >PUBREC:1 <PUBREL:1 REST CLOSE | fault 7 E4R MQTT-4.3.3-11 decided 8 record 7 offset -; fail 1 faults 9 events
E4R kept, server: it sent the PUBCOMP | server OPEN <CONNECT-NAMED >CONNACK <PUBLISH2:1 RELEASE:1 >PUBREC:1 <PUBREL:1 >PUBCOMP:1 REST CLOSE | pass 10 events
E5A broken, server: it sends a SUBACK, and no SUBSCRIBE came | server OPEN <CONNECT-NAMED >CONNACK >SUBACK:1 CLOSE | fault 4 E5A MQTT-2.2.1-6 decided 4 record 4 offset -; fail 1 faults 5 events
E5A kept, server: a SUBSCRIBE came before it | server OPEN <CONNECT-NAMED >CONNACK <SUBSCRIBE:1 >SUBACK:1 CLOSE | pass 6 events
E5R broken, server: it comes to rest without a SUBACK for a SUBSCRIBE | server OPEN <CONNECT-NAMED >CONNACK <SUBSCRIBE:1 REST CLOSE | fault 4 E5R MQTT-3.8.4-1 decided 5 record 4 offset -; fail 1 faults 6 events
E5R kept, server: it sent the SUBACK | server OPEN <CONNECT-NAMED >CONNACK <SUBSCRIBE:1 >SUBACK:1 REST CLOSE | pass 7 events
E6A broken, server: it sends an UNSUBACK, and no UNSUBSCRIBE came | server OPEN <CONNECT-NAMED >CONNACK >UNSUBACK:1 CLOSE | fault 4 E6A MQTT-2.2.1-6 decided 4 record 4 offset -; fail 1 faults 5 events
E6A kept, server: an UNSUBSCRIBE came before it | server OPEN <CONNECT-NAMED >CONNACK <UNSUBSCRIBE:1 >UNSUBACK:1 CLOSE | pass 6 events
E6R broken, server: it comes to rest without an UNSUBACK for an UNSUBSCRIBE | server OPEN <CONNECT-NAMED >CONNACK <UNSUBSCRIBE:1 REST CLOSE | fault 4 E6R MQTT-3.10.4-4 decided 5 record 4 offset -; fail 1 faults 6 events
E6R kept, server: it sent the UNSUBACK | server OPEN <CONNECT-NAMED >CONNACK <UNSUBSCRIBE:1 >UNSUBACK:1 REST CLOSE | pass 7 events
E7R broken, server: it comes to rest without a PINGRESP for a PINGREQ | server OPEN <CONNECT-NAMED >CONNACK <PINGREQ REST CLOSE | fault 5 E7R MQTT-3.12.4-1 decided 5 record 5 offset -; fail 1 faults 6 events
E7R kept, server: it sent the PINGRESP | server OPEN <CONNECT-NAMED >CONNACK <PINGREQ >PINGRESP REST CLOSE | pass 7 events";

// Statements on releases and subscriptions.
pub const MESSAGES: &str = "\
L1 broken, client: it releases a message that it didn't receive | client OPEN >CONNECT-NAMED <CONNACK RELEASE:1 CLOSE | fault 4 L1 sec-4.3.3 decided 4 record 4 offset -; fail 1 faults 5 events
L1 kept, client: the message came before | client OPEN >CONNECT-NAMED <CONNACK <PUBLISH2:1 RELEASE:1 CLOSE | pass 6 events
L2 broken, server: it releases a message twice | server OPEN <CONNECT-NAMED >CONNACK <PUBLISH2:1 RELEASE:1 RELEASE:1 CLOSE | fault 6 L2 MQTT-4.3.3-10 decided 6 record 6 offset -; fail 1 faults 7 events
L2 kept, server: it releases it once | server OPEN <CONNECT-NAMED >CONNACK <PUBLISH2:1 RELEASE:1 CLOSE | pass 6 events
L3 broken, client: it sends the PUBCOMP for a message that it didn't release | client OPEN >CONNECT-NAMED <CONNACK <PUBLISH2:1 >PUBREC:1 <PUBREL:1 >PUBCOMP:1 CLOSE | fault 7 L3 sec-4.3.3 decided 7 record 7 offset -; fail 1 faults 8 events
L3 kept, client: it released it before | client OPEN >CONNECT-NAMED <CONNACK <PUBLISH2:1 >PUBREC:1 <PUBREL:1 RELEASE:1 >PUBCOMP:1 CLOSE | pass 9 events
B01 broken, server: it sends a PUBLISH on the topic b to a client that subscribed to a | server OPEN <CONNECT-NAMED >CONNACK <SUBSCRIBE:1 >SUBACK:1 >PUBLISH0-B CLOSE | fault 6 B01 MQTT-3.3.2-3 decided 6 record 6 offset -; fail 1 faults 7 events
B01 kept, server: the topic is a | server OPEN <CONNECT-NAMED >CONNACK <SUBSCRIBE:1 >SUBACK:1 >PUBLISH0 CLOSE | pass 7 events
B02 broken, server: it granted QoS 1, and sends a PUBLISH of QoS 2 | server OPEN <CONNECT-NAMED >CONNACK <SUBSCRIBE:1 >SUBACK-1:1 >PUBLISH2:1 CLOSE | fault 6 B02 MQTT-3.8.4-8 decided 6 record 6 offset -; fail 1 faults 7 events
B02 kept, server: it sends one of QoS 1 | server OPEN <CONNECT-NAMED >CONNACK <SUBSCRIBE:1 >SUBACK-1:1 >PUBLISH1:1 CLOSE | pass 7 events
B03 broken, server: its SUBACK has two Reason Codes for one filter | server OPEN <CONNECT-NAMED >CONNACK <SUBSCRIBE:1 >90050001000202 CLOSE | fault 5 B03 MQTT-3.8.4-6 decided 5 record 5 offset -; fail 1 faults 6 events
B03 kept, server: it has one | server OPEN <CONNECT-NAMED >CONNACK <SUBSCRIBE:1 >SUBACK:1 CLOSE | pass 6 events
B04 broken, server: its UNSUBACK has two Reason Codes for one filter | server OPEN <CONNECT-NAMED >CONNACK <UNSUBSCRIBE:1 >B0050001000000 CLOSE | fault 5 B04 sec-3.11.3 decided 5 record 5 offset -; fail 1 faults 6 events
B04 kept, server: it has one | server OPEN <CONNECT-NAMED >CONNACK <UNSUBSCRIBE:1 >UNSUBACK:1 CLOSE | pass 6 events";
