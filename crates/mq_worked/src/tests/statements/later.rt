//! Worked logs of statements on sessions.

pub const ROWS: &str = "\
sent again on the next connection | client OPEN >CONNECT-KEPT <CONNACK >PUBLISH1:1 CLOSE OPEN >RECONNECT <CONNACK-RESUMED >RESEND1:1 | pass 9 events
sent again on the same one | client OPEN >CONNECT-KEPT <CONNACK >PUBLISH1:1 >RESEND1:1 | fault 5 S03 MQTT-4.4.0-1 decided 5 record 5 offset -; fail 1 faults 5 events
no PUBACK at rest | client OPEN >CONNECT <CONNACK <PUBLISH1:1 REST | fault 4 E1R MQTT-4.3.2-4 decided 5 record 4 offset -; fail 1 faults 5 events
a quota of one, over two connections | client OPEN >CONNECT-KEPT <CONNACK >PUBLISH2:1 <PUBREC:1 >PUBREL:1 CLOSE OPEN >RECONNECT <RESUMED-RECEIVES-1 >PUBREL:1 >PUBLISH1:2 <PUBCOMP:1 >PUBLISH1:3 | pass 14 events
and one message more | client OPEN >CONNECT-KEPT <CONNACK >PUBLISH2:1 <PUBREC:1 >PUBREL:1 CLOSE OPEN >RECONNECT <RESUMED-RECEIVES-1 >PUBREL:1 >PUBLISH1:2 <PUBCOMP:1 >PUBLISH1:3 >PUBLISH1:4 | fault 15 S07 MQTT-4.9.0-2 decided 15 record 15 offset -; fail 1 faults 15 events
a message that came twice and is released twice | client OPEN >CONNECT <CONNACK <PUBLISH2:1 RELEASE:1 <RESEND2:1 RELEASE:1 | fault 7 L2 MQTT-4.3.3-10 decided 7 record 7 offset -; fail 1 faults 7 events
a message completed without a release | client OPEN >CONNECT <CONNACK <PUBLISH2:1 >PUBREC:1 <PUBREL:1 >PUBCOMP:1 | fault 7 L3 sec-4.3.3 decided 7 record 7 offset -; fail 1 faults 7 events
one that may expire | client OPEN >CONNECT <CONNACK <PUBLISH2-EXPIRING:1 >PUBREC:1 <PUBREL:1 >PUBCOMP:1 | pass 7 events
two PUBACKs in another order | client OPEN >CONNECT <CONNACK <PUBLISH1:1 <PUBLISH1:2 >PUBACK:2 >PUBACK:1 | fault 6 E1O MQTT-4.6.0-2 decided 6 record 6 offset -; fail 1 faults 7 events
a message that a client subscribes to, before the SUBACK | server OPEN <CONNECT-NAMED >CONNACK <SUBSCRIBE-1:1 >PUBLISH1:1 >SUBACK-1:1 | pass 6 events
and one that it doesn't | server OPEN <CONNECT-NAMED >CONNACK <SUBSCRIBE-1:1 >PUBLISH1:1 >SUBACK-1:1 >PUBLISH0-B | fault 7 B01 MQTT-3.3.2-3 decided 7 record 7 offset -; fail 1 faults 7 events
and one to which it was refused | server OPEN <CONNECT-NAMED >CONNACK <SUBSCRIBE-1:1 >PUBLISH1:1 >SUBACK-REFUSED:1 >PUBLISH0 | fault 7 B01 MQTT-3.3.2-3 decided 7 record 7 offset -; fail 1 faults 7 events
sent again, and never sent before | client OPEN >CONNECT <CONNACK >RESEND1:1 | fault 4 S02 MQTT-4.3.2-2,MQTT-4.3.3-2 decided 4 record 4 offset -; fail 1 faults 4 events
sent again after its PUBREL | client OPEN >CONNECT-KEPT <CONNACK >PUBLISH2:1 <PUBREC:1 >PUBREL:1 CLOSE OPEN >RECONNECT <CONNACK-RESUMED >RESEND2:1 | fault 11 S04 MQTT-4.3.3-6 decided 11 record 11 offset -; fail 1 faults 11 events
sent again in another order | client OPEN >CONNECT-KEPT <CONNACK >PUBLISH1:1 >PUBLISH1:2 CLOSE OPEN >RECONNECT <CONNACK-RESUMED >RESEND1:2 >RESEND1:1 | fault 11 S05 MQTT-4.6.0-1 decided 11 record 11 offset -; fail 1 faults 11 events
not sent again | client OPEN >CONNECT-KEPT <CONNACK >PUBLISH1:1 CLOSE OPEN >RECONNECT <CONNACK-RESUMED REST | fault 4 S06 MQTT-4.4.0-1 decided 9 record 4 offset -; fail 1 faults 9 events
a quota that a PUBCOMP of the connection before doesn't raise | client OPEN >CONNECT-KEPT <CONNACK >PUBLISH2:1 <PUBREC:1 >PUBREL:1 CLOSE OPEN >RECONNECT <RESUMED-RECEIVES-1 >PUBREL:1 <PUBCOMP:1 >PUBLISH1:2 >PUBLISH1:3 | fault 14 S07 MQTT-4.9.0-2 decided 14 record 14 offset -; fail 1 faults 14 events
a PUBACK in the order of the first PUBLISHes | client OPEN >CONNECT <CONNACK <PUBLISH1:1 <PUBLISH1:2 <RESEND1:1 >PUBACK:1 | pass 7 events
no PINGRESP at rest | server OPEN <CONNECT-NAMED >CONNACK <PINGREQ REST | fault 5 E7R MQTT-3.12.4-1 decided 5 record 5 offset -; fail 1 faults 5 events
a SUBACK without a SUBSCRIBE | server OPEN <CONNECT-NAMED >CONNACK >SUBACK-1:1 | fault 4 E5A MQTT-2.2.1-6 decided 4 record 4 offset -; fail 1 faults 4 events
a release of nothing | client OPEN >CONNECT <CONNACK RELEASE:1 | fault 4 L1 sec-4.3.3 decided 4 record 4 offset -; fail 1 faults 4 events
a QoS that wasn't asked for | server OPEN <CONNECT-NAMED >CONNACK <SUBSCRIBE-0:1 >PUBLISH1:1 | fault 5 B02 MQTT-3.8.4-8 decided 5 record 5 offset -; fail 1 faults 5 events
two codes for one filter | server OPEN <CONNECT-NAMED >CONNACK <SUBSCRIBE-0:1 >90050001000101 | fault 5 B03 MQTT-3.8.4-6 decided 5 record 5 offset -; fail 1 faults 5 events";
