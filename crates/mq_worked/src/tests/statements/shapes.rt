//! Statements on a packet's bytes (W01 to W21).

// Fixed headers and the spelling of fields.
pub const FRAMING: &str = "\
W01, client: a reserved flag of PINGREQ | client OPEN >CONNECT <CONNACK >C100 | fault 4 W01 MQTT-2.1.3-1 decided 4 record 4 offset 0; fail 1 faults 4 events
W01, client: its flags are 0 | client OPEN >CONNECT <CONNACK >PINGREQ | pass 4 events
W01, server: a reserved flag of PINGRESP | server OPEN <CONNECT-NAMED >CONNACK >D100 | fault 4 W01 MQTT-2.1.3-1 decided 4 record 4 offset 0; fail 1 faults 4 events
W01, server: its flags are 0 | server OPEN <CONNECT-NAMED >CONNACK >PINGRESP | pass 4 events
W02, client: a packet of type 0 | client OPEN >CONNECT <CONNACK >0000 | fault 4 W02 sec-2.1.2 decided 4 record 4 offset 0; fail 1 faults 4 events
W02, client: one of type 12 | client OPEN >CONNECT <CONNACK >C000 | pass 4 events
W02, server: a packet of type 0 | server OPEN <CONNECT-NAMED >CONNACK >0000 | fault 4 W02 sec-2.1.2 decided 4 record 4 offset 0; fail 1 faults 4 events
W02, server: one of type 13 | server OPEN <CONNECT-NAMED >CONNACK >D000 | pass 4 events
W03, client: a property length of 0 in two bytes | client OPEN >CONNECT <CONNACK >3006000161800078 | fault 4 W03 MQTT-1.5.5-1 decided 4 record 4 offset 5; fail 1 faults 4 events
W03, client: the same in one | client OPEN >CONNECT <CONNACK >PUBLISH0 | pass 4 events
W03, client: a Remaining Length of more than four bytes, after which no packet follows | client OPEN >CONNECT <CONNACK >LOST >C100 | fault 4 W03 MQTT-1.5.5-1 decided 4 record 4 offset 1; fail 1 faults 4 events
W03, client: a Remaining Length of 2,097,151, whose packet is cut off | client OPEN >CONNECT <CONNACK >30FFFF7F | pass 3 events
W03, server: a property length of 0 in two bytes | server OPEN <CONNECT-NAMED >CONNACK <SUBSCRIBE-ALL:1 >3006000161800078 | fault 5 W03 MQTT-1.5.5-1 decided 5 record 5 offset 5; fail 1 faults 5 events
W03, server: the same in one | server OPEN <CONNECT-NAMED >CONNACK <SUBSCRIBE-ALL:1 >PUBLISH0 | pass 5 events
W03, server: a Remaining Length of 0 in two bytes | server OPEN <CONNECT-NAMED >CONNACK >D08000 | fault 4 W03 MQTT-1.5.5-1 decided 4 record 4 offset 1; fail 1 faults 4 events
W04, client: a Topic Name that isn't UTF-8 | client OPEN >CONNECT <CONNACK >30040001FF00 | fault 4 W04 MQTT-1.5.4-1 decided 4 record 4 offset 2; fail 1 faults 4 events
W04, client: one of a control character | client OPEN >CONNECT <CONNACK >300400017F00 | pass 4 events
W04, server: a Topic Name that isn't UTF-8 | server OPEN <CONNECT-NAMED >CONNACK <SUBSCRIBE-ALL:1 >30040001FF00 | fault 5 W04 MQTT-1.5.4-1 decided 5 record 5 offset 2; fail 1 faults 5 events
W04, server: one of a control character | server OPEN <CONNECT-NAMED >CONNACK <SUBSCRIBE-ALL:1 >300400017F00 | pass 5 events
W05, client: U+0000 in a Topic Name | client OPEN >CONNECT <CONNACK >300400010000 | fault 4 W05 MQTT-1.5.4-2 decided 4 record 4 offset 2; fail 1 faults 4 events
W05, client: U+0001 in it | client OPEN >CONNECT <CONNACK >300400010100 | pass 4 events
W05, server: U+0000 in a Topic Name | server OPEN <CONNECT-NAMED >CONNACK <SUBSCRIBE-ALL:1 >300400010000 | fault 5 W05 MQTT-1.5.4-2 decided 5 record 5 offset 2; fail 1 faults 5 events
W05, server: U+0001 in it | server OPEN <CONNECT-NAMED >CONNACK <SUBSCRIBE-ALL:1 >300400010100 | pass 5 events
W06, client: a byte after the last field | client OPEN >CONNECT <CONNACK >C00100 | fault 4 W06 sec-2.1.4 decided 4 record 4 offset 2; fail 1 faults 4 events
W06, client: none | client OPEN >CONNECT <CONNACK >C000 | pass 4 events
W06, client: a property list that passes the body's end | client OPEN >CONNECT <CONNACK >3006000161030078 | fault 4 W06 sec-2.1.4 decided 4 record 4 offset 5; fail 1 faults 4 events
W06, server: a byte after the last field | server OPEN <CONNECT-NAMED >CONNACK >D00100 | fault 4 W06 sec-2.1.4 decided 4 record 4 offset 2; fail 1 faults 4 events
W06, server: none | server OPEN <CONNECT-NAMED >CONNACK >D000 | pass 4 events
W07, client: QoS 3 | client OPEN >CONNECT <CONNACK >360700016100010078 | fault 4 W07 MQTT-3.3.1-4 decided 4 record 4 offset 0; fail 1 faults 4 events
W07, client: QoS 2 | client OPEN >CONNECT <CONNACK >340700016100010078 | pass 4 events
W07, server: QoS 3 | server OPEN <CONNECT-NAMED >CONNACK <SUBSCRIBE-ALL:1 >360700016100010078 | fault 5 W07 MQTT-3.3.1-4 decided 5 record 5 offset 0; fail 1 faults 5 events
W07, server: QoS 2 | server OPEN <CONNECT-NAMED >CONNACK <SUBSCRIBE-ALL:1 >340700016100010078 | pass 5 events";

// Flags, identifiers and properties.
pub const FIELDS: &str = "\
W08, client: DUP at QoS 0 | client OPEN >CONNECT <CONNACK >38050001610078 | fault 4 W08 MQTT-3.3.1-2 decided 4 record 4 offset 0; fail 1 faults 4 events
W08, client: no DUP | client OPEN >CONNECT <CONNACK >30050001610078 | pass 4 events
W08, server: DUP at QoS 0 | server OPEN <CONNECT-NAMED >CONNACK <SUBSCRIBE-ALL:1 >38050001610078 | fault 5 W08 MQTT-3.3.1-2 decided 5 record 5 offset 0; fail 1 faults 5 events
W08, server: no DUP | server OPEN <CONNECT-NAMED >CONNACK <SUBSCRIBE-ALL:1 >30050001610078 | pass 5 events
W09, client: identifier 0 | client OPEN >CONNECT <CONNACK >320700016100000078 | fault 4 W09 sec-2.2.1 decided 4 record 4 offset 5; fail 1 faults 4 events
W09, client: identifier 1 | client OPEN >CONNECT <CONNACK >320700016100010078 | pass 4 events
W09, server: identifier 0 | server OPEN <CONNECT-NAMED >CONNACK <SUBSCRIBE-ALL:1 >320700016100000078 | fault 5 W09 sec-2.2.1 decided 5 record 5 offset 5; fail 1 faults 5 events
W09, server: identifier 1 | server OPEN <CONNECT-NAMED >CONNACK <SUBSCRIBE-ALL:1 >320700016100010078 | pass 5 events
W10, client: Request Problem Information in a PUBLISH | client OPEN >CONNECT <CONNACK >300700016102170078 | fault 4 W10 sec-2.2.2.2 decided 4 record 4 offset 6; fail 1 faults 4 events
W10, client: Payload Format Indicator in it | client OPEN >CONNECT <CONNACK >300700016102010078 | pass 4 events
W10, server: Request Problem Information in a PUBLISH | server OPEN <CONNECT-NAMED >CONNACK <SUBSCRIBE-ALL:1 >300700016102170078 | fault 5 W10 sec-2.2.2.2 decided 5 record 5 offset 6; fail 1 faults 5 events
W10, server: Payload Format Indicator in it | server OPEN <CONNECT-NAMED >CONNACK <SUBSCRIBE-ALL:1 >300700016102010078 | pass 5 events
W11, client: Payload Format Indicator twice | client OPEN >CONNECT <CONNACK >3009000161040100010078 | fault 4 W11 sec-2.2.2.2 decided 4 record 4 offset 8; fail 1 faults 4 events
W11, client: once | client OPEN >CONNECT <CONNACK >300700016102010078 | pass 4 events
W11, server: Payload Format Indicator twice | server OPEN <CONNECT-NAMED >CONNACK <SUBSCRIBE-ALL:1 >3009000161040100010078 | fault 5 W11 sec-2.2.2.2 decided 5 record 5 offset 8; fail 1 faults 5 events
W11, server: once | server OPEN <CONNECT-NAMED >CONNACK <SUBSCRIBE-ALL:1 >300700016102010078 | pass 5 events
W12, client: Subscription Identifier 0 | client OPEN >CONNECT <CONNACK >82090001020B0000016100 | fault 4 W12 sec-2.2.2.2 decided 4 record 4 offset 6; fail 1 faults 4 events
W12, client: Subscription Identifier 1 | client OPEN >CONNECT <CONNACK >82090001020B0100016100 | pass 4 events
W12, server: Subscription Identifier 0 | server OPEN <CONNECT-NAMED >CONNACK <SUBSCRIBE-ALL:1 >3007000161020B0078 | fault 5 W12 sec-2.2.2.2 decided 5 record 5 offset 7; fail 1 faults 5 events
W12, server: Subscription Identifier 1 | server OPEN <CONNECT-NAMED >CONNACK <SUBSCRIBE-ALL:1 >3007000161020B0178 | pass 5 events
W13, client: DISCONNECT of code 0x01 | client OPEN >CONNECT <CONNACK >E00101 | fault 4 W13 sec-2.4 decided 4 record 4 offset 2; fail 1 faults 4 events
W13, client: of code 0x04 | client OPEN >CONNECT <CONNACK >E00104 | pass 4 events
W13, server: DISCONNECT of code 0x8A | server OPEN <CONNECT-NAMED >CONNACK >E0018A | fault 4 W13 sec-2.4 decided 4 record 4 offset 2; fail 1 faults 4 events
W13, server: of code 0x8B | server OPEN <CONNECT-NAMED >CONNACK >E0018B | pass 4 events";

// Topics, filters, and what opens a connection.
pub const TEXTS: &str = "\
W14, client: a wildcard in a Topic Name | client OPEN >CONNECT <CONNACK >300400012300 | fault 4 W14 sec-3.3.2 decided 4 record 4 offset 2; fail 1 faults 4 events
W14, client: none | client OPEN >CONNECT <CONNACK >300400012200 | pass 4 events
W14, server: a wildcard in a Topic Name | server OPEN <CONNECT-NAMED >CONNACK <SUBSCRIBE-ALL:1 >300400012300 | fault 5 W14 sec-3.3.2 decided 5 record 5 offset 2; fail 1 faults 5 events
W14, server: none | server OPEN <CONNECT-NAMED >CONNACK <SUBSCRIBE-ALL:1 >300400012200 | pass 5 events
W15, client: a wildcard that isn't a level of its own | client OPEN >CONNECT <CONNACK >82080001000002612300 | fault 4 W15 sec-4.7 decided 4 record 4 offset 5; fail 1 faults 4 events
W15, client: one that is | client OPEN >CONNECT <CONNACK >820800010000022F2300 | pass 4 events
W15, server: it subscribes, with a wildcard that isn't a level of its own | server OPEN <CONNECT-NAMED >CONNACK >82080001000002612300 | fault 4 W15 sec-4.7 decided 4 record 4 offset 5; fault 4 C01 sec-2.1.2 decided 4 record 4 offset -; fail 2 faults 4 events
W15, server: it subscribes, with one that is | server OPEN <CONNECT-NAMED >CONNACK >820800010000022F2300 | fault 4 C01 sec-2.1.2 decided 4 record 4 offset -; fail 1 faults 4 events
W16, client: SUBSCRIBE of no filter | client OPEN >CONNECT <CONNACK >8203000100 | fault 4 W16 MQTT-3.8.3-2,MQTT-3.10.3-2 decided 4 record 4 offset 5; fail 1 faults 4 events
W16, client: of one | client OPEN >CONNECT <CONNACK >820700010000016100 | pass 4 events
W16, server: it unsubscribes from nothing | server OPEN <CONNECT-NAMED >CONNACK >A203000100 | fault 4 W16 MQTT-3.8.3-2,MQTT-3.10.3-2 decided 4 record 4 offset 5; fault 4 C01 sec-2.1.2 decided 4 record 4 offset -; fail 2 faults 4 events
W16, server: it unsubscribes | server OPEN <CONNECT-NAMED >CONNACK >A206000100000161 | fault 4 C01 sec-2.1.2 decided 4 record 4 offset -; fail 1 faults 4 events
W17, client: a filter asks for QoS 3 | client OPEN >CONNECT <CONNACK >820700010000016103 | fault 4 W17 sec-3.8.3 decided 4 record 4 offset 8; fail 1 faults 4 events
W17, client: a filter asks for QoS 2 | client OPEN >CONNECT <CONNACK >820700010000016102 | pass 4 events
W17, server: it subscribes, with a reserved bit | server OPEN <CONNECT-NAMED >CONNACK >820700010000016140 | fault 4 W17 sec-3.8.3 decided 4 record 4 offset 8; fault 4 C01 sec-2.1.2 decided 4 record 4 offset -; fail 2 faults 4 events
W17, server: it subscribes, with Retain Handling 2 | server OPEN <CONNECT-NAMED >CONNACK >820700010000016120 | fault 4 C01 sec-2.1.2 decided 4 record 4 offset -; fail 1 faults 4 events
W18, client: a protocol of another name | client OPEN >BAD-CONNECT | fault 2 W18 sec-3.1.2 decided 2 record 2 offset 2; fail 1 faults 2 events
W18, client: MQTT | client OPEN >CONNECT | pass 2 events
W18, server: it sends a CONNECT, of another name | server OPEN <CONNECT-NAMED >CONNACK >BAD-CONNECT | fault 4 W18 sec-3.1.2 decided 4 record 4 offset 2; fault 4 C01 sec-2.1.2 decided 4 record 4 offset -; fail 2 faults 4 events
W18, server: it sends a CONNECT | server OPEN <CONNECT-NAMED >CONNACK >CONNECT | fault 4 C01 sec-2.1.2 decided 4 record 4 offset -; fail 1 faults 4 events
W19, client: the reserved bit of the Connect Flags | client OPEN >100D00044D5154540503003C000000 | fault 2 W19 sec-3.1.2 decided 2 record 2 offset 9; fail 1 faults 2 events
W19, client: it is 0 | client OPEN >100D00044D5154540502003C000000 | pass 2 events
W19, server: it sends a CONNECT with Will QoS and no Will | server OPEN <CONNECT-NAMED >CONNACK >100D00044D515454050A003C000000 | fault 4 W19 sec-3.1.2 decided 4 record 4 offset 9; fault 4 C01 sec-2.1.2 decided 4 record 4 offset -; fail 2 faults 4 events
W19, server: it sends a CONNECT without either | server OPEN <CONNECT-NAMED >CONNACK >100D00044D5154540502003C000000 | fault 4 C01 sec-2.1.2 decided 4 record 4 offset -; fail 1 faults 4 events
W20, client: it sends a CONNACK, with a reserved flag | client OPEN >CONNECT <CONNACK >BAD-CONNACK | fault 4 W20 MQTT-3.2.2-1 decided 4 record 4 offset 2; fault 4 C01 sec-2.1.2 decided 4 record 4 offset -; fail 2 faults 4 events
W20, client: it sends a CONNACK | client OPEN >CONNECT <CONNACK >CONNACK | fault 4 C01 sec-2.1.2 decided 4 record 4 offset -; fail 1 faults 4 events
W20, server: a reserved flag of CONNACK | server OPEN <CONNECT-NAMED >BAD-CONNACK | fault 3 W20 MQTT-3.2.2-1 decided 3 record 3 offset 2; fail 1 faults 3 events
W20, server: its flags are 0 | server OPEN <CONNECT-NAMED >CONNACK | pass 3 events
W21, client: neither Topic Name nor Topic Alias | client OPEN >CONNECT <CONNACK >300400000078 | fault 4 W21 sec-3.3.2 decided 4 record 4 offset 4; fail 1 faults 4 events
W21, client: a Topic Name | client OPEN >CONNECT <CONNACK >300400016100 | pass 4 events
W21, server: neither Topic Name nor Topic Alias | server OPEN <CONNECT-NAMED >CONNACK <SUBSCRIBE-ALL:1 >300400000078 | fault 5 W21 sec-3.3.2 decided 5 record 5 offset 4; fail 1 faults 5 events
W21, server: a Topic Name | server OPEN <CONNECT-NAMED >CONNACK <SUBSCRIBE-ALL:1 >300400016100 | pass 5 events
a packet in nine records, between which another comes | client OPEN >CONNECT <CONNACK >32 >07 >00 >01 >61 >00 >00 >00 <PINGRESP >78 | fault 5 W09 sec-2.2.1 decided 5 record 13 offset 5; fail 1 faults 5 events
after a Remaining Length that is too long no packet of that direction is known, and REST doesn't bind | client OPEN >CONNECT <CONNACK >LOST >PUBLISH1:1 <PUBLISH1:1 REST | fault 4 W03 MQTT-1.5.5-1 decided 4 record 4 offset 1; fail 1 faults 6 events
what an end receives isn't judged | client OPEN >CONNECT <CONNACK <D100 <300400012300 | pass 5 events";
