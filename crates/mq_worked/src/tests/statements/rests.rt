//! What a REST shows to be owed (S06), and what isn't: retained messages where the server takes
//! none, and the rest while an answer is awaited.

pub const ROWS: &str = "\
retained, a retained PUBLISH that a server with Retain Available 0 must not get | client OPEN >CONNECT-KEPT <CONNACK >330700016100010078 CLOSE OPEN >RECONNECT <20050100022500 REST | pass 9 events
retained, the PUBLISH has RETAIN 0 | client OPEN >CONNECT-KEPT <CONNACK >PUBLISH1:1 CLOSE OPEN >RECONNECT <20050100022500 REST | fault 4 S06 MQTT-4.4.0-1 decided 9 record 4 offset -; fail 1 faults 9 events
retained, Retain Available is 1 | client OPEN >CONNECT-KEPT <CONNACK >330700016100010078 CLOSE OPEN >RECONNECT <20050100022501 REST | fault 4 S06 MQTT-4.4.0-1 decided 9 record 4 offset -; fail 1 faults 9 events
retained, no excuse after a PUBREC: the PUBREL is owed | client OPEN >CONNECT-KEPT <CONNACK >350700016100010078 <PUBREC:1 CLOSE OPEN >RECONNECT <20050100022500 REST | fault 4 S06 MQTT-4.4.0-1 decided 10 record 4 offset -; fail 1 faults 10 events
retained, the next connection without it shows it | client OPEN >CONNECT-KEPT <CONNACK >330700016100010078 CLOSE OPEN >RECONNECT <20050100022500 REST CLOSE OPEN >RECONNECT <CONNACK-RESUMED REST | fault 4 S06 MQTT-4.4.0-1 decided 14 record 4 offset -; fail 1 faults 14 events
waiting, one is sent again and has no answer yet | client OPEN >CONNECT-KEPT <CONNACK >PUBLISH1:1 >PUBLISH1:2 CLOSE OPEN >RECONNECT <CONNACK-RESUMED >RESEND1:1 REST | pass 11 events
waiting, it has its answer | client OPEN >CONNECT-KEPT <CONNACK >PUBLISH1:1 >PUBLISH1:2 CLOSE OPEN >RECONNECT <CONNACK-RESUMED >RESEND1:1 <PUBACK:1 REST | fault 5 S06 MQTT-4.4.0-1 decided 12 record 5 offset -; fail 1 faults 12 events
waiting, a later REST shows it | client OPEN >CONNECT-KEPT <CONNACK >PUBLISH1:1 >PUBLISH1:2 CLOSE OPEN >RECONNECT <CONNACK-RESUMED >RESEND1:1 REST <PUBACK:1 REST | fault 5 S06 MQTT-4.4.0-1 decided 13 record 5 offset -; fail 1 faults 13 events
waiting, the one that waits is a PUBREL | client OPEN >CONNECT-KEPT <CONNACK >PUBLISH2:1 <PUBREC:1 >PUBLISH1:2 CLOSE OPEN >RECONNECT <CONNACK-RESUMED >PUBREL:1 REST | pass 12 events
waiting, it has its PUBCOMP | client OPEN >CONNECT-KEPT <CONNACK >PUBLISH2:1 <PUBREC:1 >PUBLISH1:2 CLOSE OPEN >RECONNECT <CONNACK-RESUMED >PUBREL:1 <PUBCOMP:1 REST | fault 6 S06 MQTT-4.4.0-1 decided 13 record 6 offset -; fail 1 faults 13 events
waiting, it is sent before the CONNACK | client OPEN >CONNECT-KEPT <CONNACK >PUBLISH1:1 >PUBLISH1:2 CLOSE OPEN >RECONNECT >RESEND1:1 <CONNACK-RESUMED REST | pass 11 events
waiting, an answer before it isn't its own | client OPEN >CONNECT-KEPT <CONNACK >PUBLISH1:1 >PUBLISH1:2 CLOSE OPEN >RECONNECT <CONNACK-RESUMED <PUBACK:1 >PUBLISH1:1 REST | pass 12 events
waiting, a PUBLISH of QoS 0 waits for nothing | client OPEN >CONNECT-KEPT <CONNACK >PUBLISH1:1 CLOSE OPEN >RECONNECT <CONNACK-RESUMED >PUBLISH0 REST | fault 4 S06 MQTT-4.4.0-1 decided 10 record 4 offset -; fail 1 faults 10 events
waiting, also where a PUBREC came for the other | client OPEN >CONNECT-KEPT <CONNACK >PUBLISH1:1 >PUBLISH2:2 <PUBREC:2 CLOSE OPEN >RECONNECT <CONNACK-RESUMED >RESEND1:1 REST | pass 12 events";
