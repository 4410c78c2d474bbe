//! Packets before the CONNACK.

pub const ROWS: &str = "\
an identifier of the session before, in a new one | client OPEN >CONNECT-KEPT <CONNACK >PUBLISH1:1 CLOSE OPEN >RECONNECT >PUBLISH1:1 <CONNACK | pass 9 events
in a resumed one | client OPEN >CONNECT-KEPT <CONNACK >PUBLISH1:1 CLOSE OPEN >RECONNECT >PUBLISH1:1 <CONNACK-RESUMED | fault 8 S01 MQTT-2.2.1-3 decided 9 record 8 offset -; fail 1 faults 9 events
sent again after a connection that closed without a CONNACK | client OPEN >CONNECT-KEPT >PUBLISH1:1 CLOSE OPEN >RECONNECT <CONNACK >RESEND1:1 | pass 8 events
and in a resumed session | client OPEN >CONNECT-KEPT >PUBLISH1:1 CLOSE OPEN >RECONNECT <CONNACK-RESUMED >RESEND1:1 | pass 8 events
while a connection is undecided no statement on sessions fails there | client OPEN >CONNECT >PUBLISH1:1 >PUBLISH1:1 | pass 4 events
nor where it closes so | client OPEN >CONNECT >PUBLISH1:1 >PUBLISH1:1 CLOSE | pass 5 events
decided by its CONNACK | client OPEN >CONNECT >PUBLISH1:1 >PUBLISH1:1 <CONNACK | fault 4 S01 MQTT-2.2.1-3 decided 5 record 4 offset -; fail 1 faults 5 events
is a message sent again if it is before the CONNACK? yes | client OPEN >CONNECT-KEPT <CONNACK >PUBLISH1:1 CLOSE OPEN >RECONNECT >RESEND1:1 <CONNACK-RESUMED REST | pass 10 events
does a client's PUBLISH before the CONNACK take quota? no | client OPEN >CONNECT >PUBLISH1:1 <CONNACK-RECEIVES-1 >PUBLISH1:2 | pass 5 events
after it the next one does | client OPEN >CONNECT >PUBLISH1:1 <CONNACK-RECEIVES-1 >PUBLISH1:2 >PUBLISH1:3 | fault 6 S07 MQTT-4.9.0-2 decided 6 record 6 offset -; fail 1 faults 6 events
a server's PUBLISHes do | server OPEN <CONNECT-RECEIVES-1 <SUBSCRIBE-ALL:1 >PUBLISH1:1 >PUBLISH1:2 >CONNACK | fault 4 C05 MQTT-3.2.0-1 decided 4 record 4 offset -; fault 5 C05 MQTT-3.2.0-1 decided 5 record 5 offset -; fault 5 S07 MQTT-4.9.0-2 decided 6 record 5 offset -; fail 3 faults 6 events
a client isn't bound by a size before it is told | client OPEN >CONNECT >3009000161007878787878 <CONNACK-SIZE-10 | pass 4 events
nor by aliases | client OPEN >CONNECT >ALIAS-SET-1 <CONNACK | pass 4 events
nor by a QoS | client OPEN >CONNECT >PUBLISH2:1 <CONNACK-QOS-1 | pass 4 events
a PUBACK owed for a PUBLISH before the CONNACK | client OPEN >CONNECT <PUBLISH1:1 <CONNACK REST | fault 3 E1R MQTT-4.3.2-4 decided 5 record 3 offset -; fail 1 faults 5 events
a PUBACK for nothing | client OPEN >CONNECT >PUBACK:1 <CONNACK | fault 3 E1A MQTT-2.2.1-5 decided 4 record 3 offset -; fail 1 faults 4 events
two in another order | client OPEN >CONNECT <PUBLISH1:1 <PUBLISH1:2 >PUBACK:2 >PUBACK:1 <CONNACK | fault 5 E1O MQTT-4.6.0-2 decided 7 record 5 offset -; fail 1 faults 7 events
a REST before the CONNACK doesn't bind | client OPEN >CONNECT <PUBLISH1:1 REST <CONNACK | pass 5 events
a release of nothing, before the CONNACK of a new session | client OPEN >CONNECT RELEASE:1 <CONNACK | pass 4 events
on a connection that closes, with Clean Start 1 | client OPEN >CONNECT RELEASE:1 CLOSE | pass 4 events
with Clean Start 0 | client OPEN >RECONNECT RELEASE:1 CLOSE | fault 3 L1 sec-4.3.3 decided 4 record 3 offset -; fail 1 faults 4 events
while it is undecided | client OPEN >CONNECT RELEASE:1 | pass 3 events
a release of a message of the session before, on a connection that is refused | client OPEN >CONNECT-KEPT <CONNACK <PUBLISH2:1 CLOSE OPEN >RECONNECT RELEASE:1 <CONNACK-REFUSED | pass 9 events
and before the CONNACK of a new session | client OPEN >CONNECT-KEPT <CONNACK <PUBLISH2:1 CLOSE OPEN >RECONNECT RELEASE:1 <CONNACK | pass 9 events
a topic of the session before, in a new one | server OPEN <CONNECT-KEPT >CONNACK <SUBSCRIBE:1 CLOSE OPEN <RECONNECT >PUBLISH0 >CONNACK | fault 8 C05 MQTT-3.2.0-1 decided 8 record 8 offset -; fault 8 B01 MQTT-3.3.2-3 decided 9 record 8 offset -; fail 2 faults 9 events
in a resumed one | server OPEN <CONNECT-KEPT >CONNACK <SUBSCRIBE:1 CLOSE OPEN <RECONNECT >PUBLISH0 >CONNACK-RESUMED | fault 8 C05 MQTT-3.2.0-1 decided 8 record 8 offset -; fail 1 faults 9 events";
