//! Statements on subscriptions (B01 to B04).

pub const ROWS: &str = "\
B01, server: a topic that nobody subscribed to | server OPEN <CONNECT-NAMED >CONNACK <SUBSCRIBE:1 >PUBLISH0-B | fault 5 B01 MQTT-3.3.2-3 decided 5 record 5 offset -; fail 1 faults 5 events
B01, server: one that a client did | server OPEN <CONNECT-NAMED >CONNACK <SUBSCRIBE:1 >PUBLISH0 | pass 5 events
B01, server: the SUBSCRIBE was refused | server OPEN <CONNECT-NAMED >CONNACK <SUBSCRIBE:1 >SUBACK-REFUSED:1 >PUBLISH0 | fault 6 B01 MQTT-3.3.2-3 decided 6 record 6 offset -; fail 1 faults 6 events
B01, server: refused only after the PUBLISH | server OPEN <CONNECT-NAMED >CONNACK <SUBSCRIBE:1 >PUBLISH0 >SUBACK-REFUSED:1 | pass 6 events
B01, server: the SUBSCRIBE comes after it | server OPEN <CONNECT-NAMED >CONNACK >PUBLISH0 <SUBSCRIBE:1 | fault 4 B01 MQTT-3.3.2-3 decided 4 record 4 offset -; fail 1 faults 5 events
B01, server: an UNSUBSCRIBE ends nothing here | server OPEN <CONNECT-NAMED >CONNACK <SUBSCRIBE:1 >SUBACK:1 <UNSUBSCRIBE:1 >UNSUBACK:1 >PUBLISH0 | pass 8 events
B01, server: in a resumed session the filter still stands | server OPEN <CONNECT-KEPT >CONNACK <SUBSCRIBE:1 CLOSE OPEN <RECONNECT >CONNACK-RESUMED >PUBLISH0 | pass 9 events
B01, server: in a new one it doesn't | server OPEN <CONNECT-KEPT >CONNACK <SUBSCRIBE:1 CLOSE OPEN <RECONNECT >CONNACK >PUBLISH0 | fault 9 B01 MQTT-3.3.2-3 decided 9 record 9 offset -; fail 1 faults 9 events
B01, server: the topic is the one that was set for the alias | server OPEN <CONNECT-ALIASES-5 >CONNACK <SUBSCRIBE:1 >ALIAS-SET-1 >30080001620323000178 >ALIAS-1 | fault 6 B01 MQTT-3.3.2-3 decided 6 record 6 offset -; fault 7 B01 MQTT-3.3.2-3 decided 7 record 7 offset -; fail 2 faults 7 events
B01, server: set last to one that is subscribed to | server OPEN <CONNECT-ALIASES-5 >CONNACK <SUBSCRIBE:1 >30080001620323000178 >ALIAS-SET-1 >ALIAS-1 | fault 5 B01 MQTT-3.3.2-3 decided 5 record 5 offset -; fail 1 faults 7 events
B01, server: nothing is said of an alias without a topic | server OPEN <CONNECT-ALIASES-5 >CONNACK <SUBSCRIBE:1 >ALIAS-1 | fault 5 C16 sec-3.3.2 decided 5 record 5 offset -; fail 1 faults 5 events
B01, server: nothing is said of what is sent again | server OPEN <CONNECT-KEPT >CONNACK >PUBLISH1:1 CLOSE OPEN <RECONNECT >CONNACK-RESUMED >RESEND1:1 | fault 4 B01 MQTT-3.3.2-3 decided 4 record 4 offset -; fail 1 faults 9 events
B01, a client isn't bound | client OPEN >CONNECT <CONNACK >PUBLISH0 | pass 4 events
B02, server: QoS 1, where 0 was asked for | server OPEN <CONNECT-NAMED >CONNACK <SUBSCRIBE-0:1 >PUBLISH1:1 | fault 5 B02 MQTT-3.8.4-8 decided 5 record 5 offset -; fail 1 faults 5 events
B02, server: where 1 was | server OPEN <CONNECT-NAMED >CONNACK <SUBSCRIBE-1:1 >PUBLISH1:1 | pass 5 events
B02, server: QoS 1, where 0 was granted | server OPEN <CONNECT-NAMED >CONNACK <SUBSCRIBE-1:1 >SUBACK-0:1 >PUBLISH1:1 | fault 6 B02 MQTT-3.8.4-8 decided 6 record 6 offset -; fail 1 faults 6 events
B02, server: granted only after it | server OPEN <CONNECT-NAMED >CONNACK <SUBSCRIBE-1:1 >PUBLISH1:1 >SUBACK-0:1 | pass 6 events
B02, server: another filter allows it | server OPEN <CONNECT-NAMED >CONNACK <820B0001000001610000012302 >90050001000002 >PUBLISH1:1 | pass 6 events
B02, server: a code for a filter that wasn't asked for changes nothing | server OPEN <CONNECT-NAMED >CONNACK <SUBSCRIBE-1:1 >90050001000100 >PUBLISH1:1 | fault 5 B03 MQTT-3.8.4-6 decided 5 record 5 offset -; fail 1 faults 6 events
B02, server: the second filter has the second code | server OPEN <CONNECT-NAMED >CONNACK <820B0001000001620200016102 >90050001000200 >PUBLISH1:1 | fault 6 B02 MQTT-3.8.4-8 decided 6 record 6 offset -; fail 1 faults 6 events
B03, server: two codes for one filter | server OPEN <CONNECT-NAMED >CONNACK <SUBSCRIBE-0:1 >90050001000101 | fault 5 B03 MQTT-3.8.4-6 decided 5 record 5 offset -; fail 1 faults 5 events
B03, server: one for one | server OPEN <CONNECT-NAMED >CONNACK <SUBSCRIBE-0:1 >SUBACK-0:1 | pass 5 events
B03, server: no code | server OPEN <CONNECT-NAMED >CONNACK <SUBSCRIBE-0:1 >9003000100 | fault 5 B03 MQTT-3.8.4-6 decided 5 record 5 offset -; fail 1 faults 5 events
B03, server: an answer to nothing isn't counted | server OPEN <CONNECT-NAMED >CONNACK >90050001000101 | fault 4 E5A MQTT-2.2.1-6 decided 4 record 4 offset -; fail 1 faults 4 events
B03, server: counted by the first SUBSCRIBE that is unanswered | server OPEN <CONNECT-NAMED >CONNACK <SUBSCRIBE-0:1 <820B0001000001620200016102 >90050001000202 | fault 6 B03 MQTT-3.8.4-6 decided 6 record 6 offset -; fail 1 faults 6 events
B04, server: two codes for one filter | server OPEN <CONNECT-NAMED >CONNACK <UNSUBSCRIBE:1 >B0050001000000 | fault 5 B04 sec-3.11.3 decided 5 record 5 offset -; fail 1 faults 5 events
B04, server: one for one | server OPEN <CONNECT-NAMED >CONNACK <UNSUBSCRIBE:1 >UNSUBACK:1 | pass 5 events
whose SUBACK refuses? the server's, and not one that the client sends | server OPEN <CONNECT-NAMED >CONNACK <SUBSCRIBE-0:1 <SUBACK:1 >PUBLISH1:1 | fault 6 B02 MQTT-3.8.4-8 decided 6 record 6 offset -; fail 1 faults 6 events
and the first one, where two come | server OPEN <CONNECT-NAMED >CONNACK <SUBSCRIBE-1:1 >SUBACK-0:1 >SUBACK-1:1 >PUBLISH1:1 | fault 6 E5A MQTT-2.2.1-6 decided 6 record 6 offset -; fault 7 B02 MQTT-3.8.4-8 decided 7 record 7 offset -; fail 2 faults 7 events
do two SUBSCRIBEs under one identifier share a SUBACK? yes | server OPEN <CONNECT-NAMED >CONNACK <SUBSCRIBE-1:1 <SUBSCRIBE-B-1:1 >SUBACK-REFUSED:1 >PUBLISH0 >PUBLISH0-B | fault 7 B01 MQTT-3.3.2-3 decided 7 record 7 offset -; fault 8 B01 MQTT-3.3.2-3 decided 8 record 8 offset -; fail 2 faults 8 events
on which connection is a SUBACK looked for? on the SUBSCRIBE's | server OPEN <CONNECT-KEPT >CONNACK <SUBSCRIBE-1:1 CLOSE OPEN <RECONNECT >CONNACK-RESUMED >SUBACK-REFUSED:1 >PUBLISH1:1 | pass 10 events
is a session with a shared subscription judged? no | server OPEN <CONNECT-NAMED >CONNACK <8210000100000A2473686172652F672F6101 >PUBLISH0-B | pass 5 events
and before the SUBSCRIBE that shares? | server OPEN <CONNECT-NAMED >CONNACK >PUBLISH0-B <8210000100000A2473686172652F672F6101 | fault 4 B01 MQTT-3.3.2-3 decided 4 record 4 offset -; fail 1 faults 5 events
does an UNSUBSCRIBE of a shared filter switch it off? no | server OPEN <CONNECT-NAMED >CONNACK <A20F000100000A2473686172652F672F61 >PUBLISH0-B | fault 5 B01 MQTT-3.3.2-3 decided 5 record 5 offset -; fail 1 faults 5 events
a filter that begins with a wildcard matches no name that begins with $ | server OPEN <CONNECT-NAMED >CONNACK <SUBSCRIBE-ALL:1 >300400012400 | fault 5 B01 MQTT-3.3.2-3 decided 5 record 5 offset -; fail 1 faults 5 events
but one that names its first level does | server OPEN <CONNECT-NAMED >CONNACK <82090001000003242F2300 >300400012400 | pass 5 events
# matches the level above it | server OPEN <CONNECT-NAMED >CONNACK <82090001000003612F2300 >PUBLISH0 >PUBLISH0-B | fault 6 B01 MQTT-3.3.2-3 decided 6 record 6 offset -; fail 1 faults 6 events
+ matches one level, an empty one too | server OPEN <CONNECT-NAMED >CONNACK <82090001000003612F2B00 >30050002612F00 >PUBLISH0 | fault 6 B01 MQTT-3.3.2-3 decided 6 record 6 offset -; fail 1 faults 6 events
+ and + match a name that begins with a slash | server OPEN <CONNECT-NAMED >CONNACK <820900010000032B2F2B00 >300500022F6100 >PUBLISH0 | fault 6 B01 MQTT-3.3.2-3 decided 6 record 6 offset -; fail 1 faults 6 events";
