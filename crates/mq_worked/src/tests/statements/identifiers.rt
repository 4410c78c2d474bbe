//! The statement on the identifiers of messages that are sent (S01).

pub const ROWS: &str = "\
S01, client: an identifier that is in use | client OPEN >CONNECT <CONNACK >PUBLISH1:1 >PUBLISH1:1 <PUBACK:1 | fault 5 S01 MQTT-2.2.1-3 decided 5 record 5 offset -; fail 1 faults 6 events
S01, client: it is free again | client OPEN >CONNECT <CONNACK >PUBLISH1:1 <PUBACK:1 >PUBLISH1:1 | pass 6 events
S01, client: another identifier | client OPEN >CONNECT <CONNACK >PUBLISH1:1 >PUBLISH1:2 <PUBACK:1 | pass 6 events
S01, client: a PUBACK for another | client OPEN >CONNECT <CONNACK >PUBLISH1:1 >PUBLISH1:2 <PUBACK:2 >PUBLISH1:1 | fault 7 S01 MQTT-2.2.1-3 decided 7 record 7 offset -; fail 1 faults 7 events
S01, client: a PUBREC below 0x80 doesn't free it | client OPEN >CONNECT <CONNACK >PUBLISH2:1 <PUBREC:1 >PUBLISH2:1 | fault 6 S01 MQTT-2.2.1-3 decided 6 record 6 offset -; fail 1 faults 6 events
S01, client: a PUBREC of 0x80 does | client OPEN >CONNECT <CONNACK >PUBLISH2:1 <PUBREC-80:1 >PUBLISH2:1 | pass 6 events
S01, client: a PUBCOMP does | client OPEN >CONNECT <CONNACK >PUBLISH2:1 <PUBREC:1 >PUBREL:1 <PUBCOMP:1 >PUBLISH2:1 | pass 8 events
S01, client: a QoS 0 PUBLISH has none | client OPEN >CONNECT <CONNACK >PUBLISH1:1 >PUBLISH0 | pass 5 events
S01, client: the server's identifiers are others | client OPEN >CONNECT <CONNACK <PUBLISH1:1 >PUBLISH1:1 >PUBACK:1 | pass 6 events
S01, client: in use on a session that is resumed | client OPEN >CONNECT-KEPT <CONNACK >PUBLISH1:1 CLOSE OPEN >RECONNECT <CONNACK-RESUMED >PUBLISH1:1 | fault 9 S01 MQTT-2.2.1-3 decided 9 record 9 offset -; fail 1 faults 9 events
S01, client: in a new session it is free | client OPEN >CONNECT-KEPT <CONNACK >PUBLISH1:1 CLOSE OPEN >RECONNECT <CONNACK >PUBLISH1:1 | pass 9 events
S01, server: an identifier that is in use | server OPEN <CONNECT-NAMED >CONNACK <SUBSCRIBE-ALL:1 >PUBLISH1:1 >PUBLISH1:1 <PUBACK:1 | fault 6 S01 MQTT-2.2.1-4 decided 6 record 6 offset -; fail 1 faults 7 events
S01, server: it is free again | server OPEN <CONNECT-NAMED >CONNACK <SUBSCRIBE-ALL:1 >PUBLISH1:1 <PUBACK:1 >PUBLISH1:1 | pass 7 events
S01, server: in use on a session that is resumed | server OPEN <CONNECT-KEPT >CONNACK <SUBSCRIBE-ALL:1 >PUBLISH1:1 CLOSE OPEN <RECONNECT >CONNACK-RESUMED >PUBLISH1:1 | fault 10 S01 MQTT-2.2.1-4 decided 10 record 10 offset -; fail 1 faults 10 events
does a closer on a connection that the server refuses free an identifier? no, it is in no session | client OPEN >CONNECT-KEPT <CONNACK >PUBLISH1:1 CLOSE OPEN >RECONNECT <CONNACK-REFUSED <PUBACK:1 CLOSE OPEN >RECONNECT <CONNACK-RESUMED >PUBLISH1:1 | fault 14 S01 MQTT-2.2.1-3 decided 14 record 14 offset -; fail 1 faults 14 events
is a PUBLISH on a connection that the server refuses judged? no | client OPEN >CONNECT-KEPT <CONNACK-REFUSED >PUBLISH1:1 >PUBLISH1:1 | pass 5 events
is a session packet taken before the CONNACK? yes, and one that the client sends isn't it | client OPEN >CONNECT >CONNACK >PUBLISH1:1 | fault 3 C01 sec-2.1.2 decided 3 record 3 offset -; fail 1 faults 4 events";
