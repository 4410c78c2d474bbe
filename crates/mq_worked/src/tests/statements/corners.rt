//! Corner cases of the statements on sessions, which are easily misread.

pub const ROWS: &str = "\
does a PUBACK end a message of QoS 2? yes | client OPEN >CONNECT <CONNACK >PUBLISH2:1 <PUBACK:1 >PUBLISH1:1 | pass 6 events
and a PUBCOMP without a PUBREC? | client OPEN >CONNECT <CONNACK >PUBLISH2:1 <PUBCOMP:1 >PUBLISH1:1 | pass 6 events
S06, client: owed by a PUBREC that comes after another message was sent again and acknowledged | client OPEN >CONNECT-KEPT <CONNACK >PUBLISH2:1 >PUBLISH1:2 CLOSE OPEN >RECONNECT <CONNACK-RESUMED >RESEND1:2 <PUBACK:2 <PUBREC:1 REST | fault 4 S06 MQTT-4.4.0-1 decided 13 record 4 offset -; fault 12 E3R MQTT-4.3.3-4 decided 13 record 12 offset -; fail 2 faults 13 events
S06, client: while that waits for its answer nothing is owed | client OPEN >CONNECT-KEPT <CONNACK >PUBLISH2:1 >PUBLISH1:2 CLOSE OPEN >RECONNECT <CONNACK-RESUMED >RESEND1:2 <PUBREC:1 REST | fault 11 E3R MQTT-4.3.3-4 decided 12 record 11 offset -; fail 1 faults 12 events
E7R, server: at rest before the CONNACK nothing is owed | server OPEN <CONNECT-NAMED <PINGREQ REST >CONNACK >PINGRESP | pass 6 events
does a SUBACK answer an UNSUBSCRIBE? no | server OPEN <CONNECT-NAMED >CONNACK <UNSUBSCRIBE:1 >SUBACK:1 REST | fault 4 E6R MQTT-3.10.4-4 decided 6 record 4 offset -; fault 5 E5A MQTT-2.2.1-6 decided 5 record 5 offset -; fail 2 faults 6 events
B04, server: of two UNSUBSCRIBEs under one identifier the first is counted | server OPEN <CONNECT-NAMED >CONNACK <UNSUBSCRIBE:1 <A209000100000161000162 >B00400010000 | pass 6 events
B04, server: and not the second | server OPEN <CONNECT-NAMED >CONNACK <UNSUBSCRIBE:1 <A209000100000161000162 >B0050001000000 | fault 6 B04 sec-3.11.3 decided 6 record 6 offset -; fail 1 faults 6 events
B02, server: a SUBSCRIBE that waits allows what it asks for, beside one that was granted less | server OPEN <CONNECT-NAMED >CONNACK <SUBSCRIBE-1:1 >SUBACK-0:1 <820700020000016101 >PUBLISH1:1 | pass 7 events
B02, server: both were granted less | server OPEN <CONNECT-NAMED >CONNACK <SUBSCRIBE-1:1 >SUBACK-0:1 <820700020000016101 >900400020000 >PUBLISH1:1 | fault 8 B02 MQTT-3.8.4-8 decided 8 record 8 offset -; fail 1 faults 8 events
B02, server: one filter twice, and the second time for more | server OPEN <CONNECT-NAMED >CONNACK <820B0001000001610000016101 >PUBLISH1:1 | pass 5 events
B01, server: a shared subscription of the session before switches nothing off | server OPEN <CONNECT-NAMED >CONNACK <8210000100000A2473686172652F672F6101 CLOSE OPEN <CONNECT-NAMED >CONNACK >PUBLISH0-B | fault 9 B01 MQTT-3.3.2-3 decided 9 record 9 offset -; fail 1 faults 9 events";
