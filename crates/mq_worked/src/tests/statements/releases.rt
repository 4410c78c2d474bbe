//! Statements on the release of QoS 2 messages (L1 to L3).

pub const ROWS: &str = "\
L1, client: a message that wasn't received | client OPEN >CONNECT <CONNACK RELEASE:1 | fault 4 L1 sec-4.3.3 decided 4 record 4 offset -; fail 1 faults 4 events
L1, client: it was | client OPEN >CONNECT <CONNACK <PUBLISH2:1 RELEASE:1 | pass 5 events
L1, client: it was ended | client OPEN >CONNECT <CONNACK <PUBLISH2:1 RELEASE:1 >PUBREC:1 <PUBREL:1 >PUBCOMP:1 RELEASE:1 | fault 9 L1 sec-4.3.3 decided 9 record 9 offset -; fail 1 faults 9 events
L1, client: it was refused | client OPEN >CONNECT <CONNACK <PUBLISH2:1 >PUBREC-80:1 RELEASE:1 | fault 6 L1 sec-4.3.3 decided 6 record 6 offset -; fail 1 faults 6 events
L1, client: a message of QoS 1 | client OPEN >CONNECT <CONNACK <PUBLISH1:1 RELEASE:1 | fault 5 L1 sec-4.3.3 decided 5 record 5 offset -; fail 1 faults 5 events
L1, client: in a new session it isn't there | client OPEN >CONNECT-KEPT <CONNACK <PUBLISH2:1 CLOSE OPEN >RECONNECT <CONNACK RELEASE:1 | fault 9 L1 sec-4.3.3 decided 9 record 9 offset -; fail 1 faults 9 events
L1, client: in the same session it is | client OPEN >CONNECT-KEPT <CONNACK <PUBLISH2:1 CLOSE OPEN >RECONNECT <CONNACK-RESUMED RELEASE:1 | pass 9 events
L1, client: between two connections | client OPEN >CONNECT-KEPT <CONNACK <PUBLISH2:1 CLOSE RELEASE:1 OPEN >RECONNECT <CONNACK | pass 9 events
L1, client: on a connection that the server refuses | client OPEN >CONNECT-KEPT <CONNACK <PUBLISH2:1 CLOSE OPEN >RECONNECT <CONNACK-REFUSED RELEASE:1 | pass 9 events
L1, client: not judged where releases aren't recorded | silent-client OPEN >CONNECT <CONNACK <PUBLISH2:1 >PUBREC:1 <PUBREL:1 >PUBCOMP:1 | pass 7 events
L1, server: a message that wasn't received | server OPEN <CONNECT-NAMED >CONNACK RELEASE:1 | fault 4 L1 sec-4.3.3 decided 4 record 4 offset -; fail 1 faults 4 events
L1, server: it was | server OPEN <CONNECT-NAMED >CONNACK <PUBLISH2:1 RELEASE:1 | pass 5 events
L2, client: a message released twice | client OPEN >CONNECT <CONNACK <PUBLISH2:1 RELEASE:1 RELEASE:1 | fault 6 L2 MQTT-4.3.3-10 decided 6 record 6 offset -; fail 1 faults 6 events
L2, client: two messages released once each | client OPEN >CONNECT <CONNACK <PUBLISH2:1 <PUBLISH2:2 RELEASE:1 RELEASE:2 | pass 7 events
L2, client: the message came twice | client OPEN >CONNECT <CONNACK <PUBLISH2:1 RELEASE:1 <RESEND2:1 RELEASE:1 | fault 7 L2 MQTT-4.3.3-10 decided 7 record 7 offset -; fail 1 faults 7 events
L2, client: the first was ended between | client OPEN >CONNECT <CONNACK <PUBLISH2:1 RELEASE:1 >PUBREC:1 <PUBREL:1 >PUBCOMP:1 <PUBLISH2:1 RELEASE:1 | pass 10 events
L2, client: on the next connection of the session | client OPEN >CONNECT-KEPT <CONNACK <PUBLISH2:1 RELEASE:1 CLOSE OPEN >RECONNECT <CONNACK-RESUMED RELEASE:1 | fault 10 L2 MQTT-4.3.3-10 decided 10 record 10 offset -; fail 1 faults 10 events
L2, server: a message released twice | server OPEN <CONNECT-NAMED >CONNACK <PUBLISH2:1 RELEASE:1 RELEASE:1 | fault 6 L2 MQTT-4.3.3-10 decided 6 record 6 offset -; fail 1 faults 6 events
L2, server: two messages released once each | server OPEN <CONNECT-NAMED >CONNACK <PUBLISH2:1 <PUBLISH2:2 RELEASE:1 RELEASE:2 | pass 7 events
L3, client: PUBCOMP for a message that wasn't released | client OPEN >CONNECT <CONNACK <PUBLISH2:1 >PUBREC:1 <PUBREL:1 >PUBCOMP:1 | fault 7 L3 sec-4.3.3 decided 7 record 7 offset -; fail 1 faults 7 events
L3, client: it was | client OPEN >CONNECT <CONNACK <PUBLISH2:1 >PUBREC:1 <PUBREL:1 RELEASE:1 >PUBCOMP:1 | pass 8 events
L3, client: it may expire | client OPEN >CONNECT <CONNACK <PUBLISH2-EXPIRING:1 >PUBREC:1 <PUBREL:1 >PUBCOMP:1 | pass 7 events
L3, client: nobody subscribes to it | client OPEN >CONNECT <CONNACK <PUBLISH2:1 >PUBREC-10:1 <PUBREL:1 >PUBCOMP:1 | pass 7 events
L3, client: a PUBCOMP of 0x92 completes nothing | client OPEN >CONNECT <CONNACK <PUBLISH2:1 >PUBREC:1 <PUBREL:1 >PUBCOMP-92:1 | pass 7 events
L3, client: no such message is there | client OPEN >CONNECT <CONNACK <PUBREL:1 >PUBCOMP:1 | pass 5 events
L3, client: not judged where releases aren't recorded | silent-client OPEN >CONNECT <CONNACK <PUBLISH2:1 >PUBREC:1 <PUBREL:1 >PUBCOMP:1 | pass 7 events
L3, server: PUBCOMP for a message that wasn't released | server OPEN <CONNECT-NAMED >CONNACK <PUBLISH2:1 >PUBREC:1 <PUBREL:1 >PUBCOMP:1 | fault 7 L3 sec-4.3.3 decided 7 record 7 offset -; fail 1 faults 7 events
L3, server: it was | server OPEN <CONNECT-NAMED >CONNACK <PUBLISH2:1 >PUBREC:1 <PUBREL:1 RELEASE:1 >PUBCOMP:1 | pass 8 events
which PUBLISH tells that a message may expire? the first | client OPEN >CONNECT <CONNACK <PUBLISH2-EXPIRING:1 <RESEND2:1 >PUBREC:1 <PUBREL:1 >PUBCOMP:1 | pass 8 events
and not a later one | client OPEN >CONNECT <CONNACK <PUBLISH2:1 <RESEND2-EXPIRING:1 >PUBREC:1 <PUBREL:1 >PUBCOMP:1 | fault 8 L3 sec-4.3.3 decided 8 record 8 offset -; fail 1 faults 8 events
since when does a PUBREC of 0x10 count? since the first | client OPEN >CONNECT <CONNACK <PUBLISH2:1 >PUBREC-10:1 <RESEND2:1 >PUBREC:1 <PUBREL:1 >PUBCOMP:1 | pass 9 events
and not before it | client OPEN >CONNECT <CONNACK <PUBLISH2:1 >PUBREC-10:1 <PUBREL:1 >PUBCOMP:1 <PUBLISH2:1 >PUBREC:1 <PUBREL:1 >PUBCOMP:1 | fault 11 L3 sec-4.3.3 decided 11 record 11 offset -; fail 1 faults 11 events
of which session is a RELEASE before any that is accepted? of none | client RELEASE:1 RELEASE:1 | fault 1 L1 sec-4.3.3 decided 1 record 1 offset -; fault 2 L1 sec-4.3.3 decided 2 record 2 offset -; fail 2 faults 2 events
and on a connection that is refused, with none before it? | client OPEN >CONNECT <CONNACK-REFUSED <PUBLISH2:1 RELEASE:1 RELEASE:1 | fault 5 L1 sec-4.3.3 decided 5 record 5 offset -; fault 6 L1 sec-4.3.3 decided 6 record 6 offset -; fail 2 faults 6 events
is a RELEASE under identifier 0 one? yes | client OPEN >CONNECT <CONNACK RELEASE:0 | fault 4 L1 sec-4.3.3 decided 4 record 4 offset -; fail 1 faults 4 events
does an ender on a refused connection end a message? no | client OPEN >CONNECT-KEPT <CONNACK <PUBLISH2:1 RELEASE:1 CLOSE OPEN >RECONNECT <CONNACK-REFUSED >PUBCOMP:1 CLOSE RELEASE:1 | fault 12 L2 MQTT-4.3.3-10 decided 12 record 12 offset -; fail 1 faults 12 events";
