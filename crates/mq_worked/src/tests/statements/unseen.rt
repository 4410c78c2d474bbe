//! What a log doesn't show of a message: first a log that keeps the statement so, and then its
//! neighbours.

// What a resumed connection passed over, on which the peer announced a bound: the end may have
// discarded it (S01, S06).
pub const PASSED_OVER: &str = "\
server: not sent under a Maximum Packet Size, nor on the next connection | server OPEN <CONNECT-KEPT >CONNACK <SUBSCRIBE-ALL:1 >PUBLISH1:1 CLOSE OPEN <RECONNECT-SIZED >CONNACK-RESUMED CLOSE OPEN <RECONNECT >CONNACK-RESUMED REST | pass 14 events
no bound was announced | server OPEN <CONNECT-KEPT >CONNACK <SUBSCRIBE-ALL:1 >PUBLISH1:1 CLOSE OPEN <RECONNECT >CONNACK-RESUMED CLOSE OPEN <RECONNECT >CONNACK-RESUMED REST | fault 5 S06 MQTT-4.4.0-1 decided 14 record 5 offset -; fail 1 faults 14 events
server: its identifier is taken anew | server OPEN <CONNECT-KEPT >CONNACK <SUBSCRIBE-ALL:1 >PUBLISH1:1 CLOSE OPEN <RECONNECT-SIZED >CONNACK-RESUMED CLOSE OPEN <RECONNECT >CONNACK-RESUMED >PUBLISH1:1 | pass 14 events
no bound was announced, and its identifier is taken anew | server OPEN <CONNECT-KEPT >CONNACK <SUBSCRIBE-ALL:1 >PUBLISH1:1 CLOSE OPEN <RECONNECT >CONNACK-RESUMED CLOSE OPEN <RECONNECT >CONNACK-RESUMED >PUBLISH1:1 | fault 14 S01 MQTT-2.2.1-4 decided 14 record 14 offset -; fail 1 faults 14 events
server: on that connection itself | server OPEN <CONNECT-KEPT >CONNACK <SUBSCRIBE-ALL:1 >PUBLISH1:1 CLOSE OPEN <RECONNECT-SIZED >CONNACK-RESUMED >PUBLISH1:1 | pass 10 events
taken anew twice | server OPEN <CONNECT-KEPT >CONNACK <SUBSCRIBE-ALL:1 >PUBLISH1:1 CLOSE OPEN <RECONNECT-SIZED >CONNACK-RESUMED >PUBLISH1:1 >PUBLISH1:1 | fault 11 S01 MQTT-2.2.1-4 decided 11 record 11 offset -; fail 1 faults 11 events
what was taken anew is owed itself | server OPEN <CONNECT-KEPT >CONNACK <SUBSCRIBE-ALL:1 >PUBLISH1:1 CLOSE OPEN <RECONNECT-SIZED >CONNACK-RESUMED >PUBLISH1:1 CLOSE OPEN <RECONNECT >CONNACK-RESUMED REST | fault 10 S06 MQTT-4.4.0-1 decided 15 record 10 offset -; fail 1 faults 15 events
it was sent again there | server OPEN <CONNECT-KEPT >CONNACK <SUBSCRIBE-ALL:1 >PUBLISH1:1 CLOSE OPEN <RECONNECT-SIZED >CONNACK-RESUMED >RESEND1:1 >PUBLISH1:1 | fault 11 S01 MQTT-2.2.1-4 decided 11 record 11 offset -; fail 1 faults 11 events
it was sent again there, and not on the next connection | server OPEN <CONNECT-KEPT >CONNACK <SUBSCRIBE-ALL:1 >PUBLISH1:1 CLOSE OPEN <RECONNECT-SIZED >CONNACK-RESUMED >RESEND1:1 CLOSE OPEN <RECONNECT >CONNACK-RESUMED REST | fault 5 S06 MQTT-4.4.0-1 decided 15 record 5 offset -; fail 1 faults 15 events
it is sent again on the next connection, so it was kept | server OPEN <CONNECT-KEPT >CONNACK <SUBSCRIBE-ALL:1 >PUBLISH1:1 CLOSE OPEN <RECONNECT-SIZED >CONNACK-RESUMED CLOSE OPEN <RECONNECT >CONNACK-RESUMED >RESEND1:1 | pass 14 events
and nothing is owed on the one after it | server OPEN <CONNECT-KEPT >CONNACK <SUBSCRIBE-ALL:1 >PUBLISH1:1 CLOSE OPEN <RECONNECT-SIZED >CONNACK-RESUMED CLOSE OPEN <RECONNECT >CONNACK-RESUMED >RESEND1:1 CLOSE OPEN <RECONNECT >CONNACK-RESUMED REST | pass 19 events
a PUBREC says that the peer has it | server OPEN <CONNECT-KEPT >CONNACK <SUBSCRIBE-ALL:1 >PUBLISH2:1 <PUBREC:1 CLOSE OPEN <RECONNECT-SIZED >CONNACK-RESUMED CLOSE OPEN <RECONNECT >CONNACK-RESUMED REST | fault 5 S06 MQTT-4.4.0-1 decided 15 record 5 offset -; fail 1 faults 15 events
a PUBREC that comes later says so too | server OPEN <CONNECT-KEPT >CONNACK <SUBSCRIBE-ALL:1 >PUBLISH2:1 CLOSE OPEN <RECONNECT-SIZED >CONNACK-RESUMED <PUBREC:1 >PUBLISH2:1 | fault 11 S01 MQTT-2.2.1-4 decided 11 record 11 offset -; fail 1 faults 11 events
without that PUBREC | server OPEN <CONNECT-KEPT >CONNACK <SUBSCRIBE-ALL:1 >PUBLISH2:1 CLOSE OPEN <RECONNECT-SIZED >CONNACK-RESUMED <PUBREC:2 >PUBLISH2:1 | pass 11 events
the bound is of the connection of the opener itself | server OPEN <CONNECT-SIZE-10 >CONNACK <SUBSCRIBE-ALL:1 >PUBLISH1:1 >PUBLISH1:1 | fault 6 S01 MQTT-2.2.1-4 decided 6 record 6 offset -; fail 1 faults 6 events
the bound is of a connection that is refused | client OPEN >CONNECT-KEPT <CONNACK >PUBLISH1:1 CLOSE OPEN >RECONNECT <20080087052700FFFFFF CLOSE OPEN >RECONNECT <CONNACK-RESUMED REST | fault 4 S06 MQTT-4.4.0-1 decided 13 record 4 offset -; fail 1 faults 13 events
another identifier was sent on the connection with the bound | client OPEN >CONNECT-KEPT <CONNACK >PUBLISH1:1 CLOSE OPEN >RECONNECT <RESUMED-SIZED >PUBLISH1:2 <PUBACK:2 CLOSE OPEN >RECONNECT <CONNACK-RESUMED REST | pass 15 events
client: under a Maximum QoS | client OPEN >CONNECT-KEPT <CONNACK >PUBLISH1:1 CLOSE OPEN >RECONNECT <RESUMED-QOS-1 CLOSE OPEN >RECONNECT <CONNACK-RESUMED REST | pass 13 events
client: without a Maximum QoS | client OPEN >CONNECT-KEPT <CONNACK >PUBLISH1:1 CLOSE OPEN >RECONNECT <CONNACK-RESUMED CLOSE OPEN >RECONNECT <CONNACK-RESUMED REST | fault 4 S06 MQTT-4.4.0-1 decided 13 record 4 offset -; fail 1 faults 13 events
with Retain Available alone | client OPEN >CONNECT-KEPT <CONNACK >PUBLISH1:1 CLOSE OPEN >RECONNECT <20050100022500 CLOSE OPEN >RECONNECT <CONNACK-RESUMED >PUBLISH1:1 | fault 13 S01 MQTT-2.2.1-3 decided 13 record 13 offset -; fail 1 faults 13 events
client: a SUBSCRIBE takes its identifier | client OPEN >CONNECT-KEPT <CONNACK >PUBLISH1:1 CLOSE OPEN >RECONNECT <RESUMED-SIZED >SUBSCRIBE:1 | pass 9 events
and an UNSUBSCRIBE does too, before the SUBACK | client OPEN >CONNECT-KEPT <CONNACK >PUBLISH1:1 CLOSE OPEN >RECONNECT <RESUMED-SIZED >SUBSCRIBE:1 >UNSUBSCRIBE:1 | fault 10 S01 MQTT-2.2.1-3 decided 10 record 10 offset -; fail 1 faults 10 events
client: before the bound is told the identifier is taken | client OPEN >CONNECT-KEPT <CONNACK >PUBLISH1:1 CLOSE OPEN >RECONNECT >PUBLISH1:1 <RESUMED-SIZED | fault 8 S01 MQTT-2.2.1-3 decided 9 record 8 offset -; fail 1 faults 9 events
a PUBREL before the bound is told | client OPEN >CONNECT-KEPT <CONNACK >PUBLISH2:1 CLOSE OPEN >RECONNECT >PUBREL:1 <RESUMED-SIZED >PUBLISH2:1 | fault 8 E3A MQTT-2.2.1-5 decided 9 record 8 offset -; fault 10 S01 MQTT-2.2.1-3 decided 10 record 10 offset -; fail 2 faults 10 events";

// A PUBLISH that the end of a connection cut off is no event, but was begun (S02).
pub const CUT_OFF: &str = "\
its first two bytes, then sent again | client OPEN >CONNECT-KEPT <CONNACK >3207 CLOSE OPEN >RECONNECT <CONNACK-RESUMED >RESEND1:1 | pass 8 events
where nothing was cut off | client OPEN >CONNECT-KEPT <CONNACK CLOSE OPEN >RECONNECT <CONNACK-RESUMED >RESEND1:1 | fault 8 S02 MQTT-4.3.2-2,MQTT-4.3.3-2 decided 8 record 8 offset -; fail 1 faults 8 events
one of QoS 0 | client OPEN >CONNECT-KEPT <CONNACK >3007 CLOSE OPEN >RECONNECT <CONNACK-RESUMED >RESEND1:1 | fault 8 S02 MQTT-4.3.2-2,MQTT-4.3.3-2 decided 8 record 9 offset -; fail 1 faults 8 events
one of both QoS bits | client OPEN >CONNECT-KEPT <CONNACK >3607 CLOSE OPEN >RECONNECT <CONNACK-RESUMED >RESEND1:1 | fault 8 S02 MQTT-4.3.2-2,MQTT-4.3.3-2 decided 8 record 9 offset -; fail 1 faults 8 events
a PUBREL | client OPEN >CONNECT-KEPT <CONNACK >6202 CLOSE OPEN >RECONNECT <CONNACK-RESUMED >RESEND1:1 | fault 8 S02 MQTT-4.3.2-2,MQTT-4.3.3-2 decided 8 record 9 offset -; fail 1 faults 8 events
it was received | client OPEN >CONNECT-KEPT <CONNACK <3207 CLOSE OPEN >RECONNECT <CONNACK-RESUMED >RESEND1:1 | fault 8 S02 MQTT-4.3.2-2,MQTT-4.3.3-2 decided 8 record 9 offset -; fail 1 faults 8 events
before a new session | client OPEN >CONNECT-KEPT <CONNACK >3207 CLOSE OPEN >RECONNECT <CONNACK >RESEND1:1 | fault 8 S02 MQTT-4.3.2-2,MQTT-4.3.3-2 decided 8 record 9 offset -; fail 1 faults 8 events
on a connection that was refused, before a new session | client OPEN >CONNECT-KEPT <CONNACK-REFUSED >3207 CLOSE OPEN >RECONNECT <CONNACK >RESEND1:1 | pass 8 events
on one that closed without a CONNACK | client OPEN >CONNECT-KEPT <CONNACK CLOSE OPEN >RECONNECT >3207 CLOSE OPEN >RECONNECT <CONNACK-RESUMED >RESEND1:1 | pass 11 events
before the session between began | client OPEN >RECONNECT >3207 CLOSE OPEN >CONNECT-KEPT <CONNACK CLOSE OPEN >RECONNECT <CONNACK-RESUMED >RESEND1:1 | pass 11 events
server: one byte of a resend, of QoS 2 with RETAIN 1 | server OPEN <CONNECT-KEPT >CONNACK >3D CLOSE OPEN <RECONNECT >CONNACK-RESUMED >RESEND2:1 | pass 8 events
two connections later | client OPEN >CONNECT-KEPT <CONNACK >3207 CLOSE OPEN >RECONNECT <CONNACK-RESUMED CLOSE OPEN >RECONNECT <CONNACK-RESUMED >RESEND1:1 | pass 12 events
in the record of a packet before it | client OPEN >CONNECT-KEPT <CONNACK >C00032070001 CLOSE OPEN >RECONNECT <CONNACK-RESUMED >RESEND1:1 | pass 9 events
after one that was cut into records and whole | client OPEN >CONNECT-KEPT <CONNACK >32070001 >6100020078 >34 CLOSE OPEN >RECONNECT <CONNACK-RESUMED >RESEND1:1 | pass 9 events
the packet is whole in the next record | client OPEN >CONNECT-KEPT <CONNACK >32070001 >6100020078 CLOSE OPEN >RECONNECT <CONNACK-RESUMED >RESEND1:1 | fault 9 S02 MQTT-4.3.2-2,MQTT-4.3.3-2 decided 9 record 10 offset -; fail 1 faults 9 events
a direction that is lost has no first byte | client OPEN >CONNECT-KEPT <CONNACK >32FFFFFFFF CLOSE OPEN >RECONNECT <CONNACK-RESUMED >RESEND1:1 | fault 4 W03 MQTT-1.5.5-1 decided 4 record 4 offset 1; fault 9 S02 MQTT-4.3.2-2,MQTT-4.3.3-2 decided 9 record 9 offset -; fail 2 faults 9 events
the log ends in it: no CLOSE says it | client OPEN >CONNECT-KEPT <CONNACK >3207 | pass 3 events
it excuses no second opener of what was sent whole | client OPEN >CONNECT-KEPT <CONNACK >PUBLISH1:1 >3207 CLOSE OPEN >RECONNECT <CONNACK-RESUMED >PUBLISH1:1 | fault 9 S01 MQTT-2.2.1-3 decided 9 record 10 offset -; fail 1 faults 9 events";

// What a client sent before the CONNACK with which its session began was sent before (S02).
pub const SENT_EARLY: &str = "\
again before the CONNACK of a new session, and on its next connection | client OPEN >CONNECT-KEPT <CONNACK >PUBLISH1:1 CLOSE OPEN >RECONNECT >RESEND1:1 <CONNACK >PINGREQ CLOSE OPEN >RECONNECT <CONNACK-RESUMED >RESEND1:1 | pass 15 events
another identifier was | client OPEN >CONNECT-KEPT <CONNACK >PUBLISH1:1 CLOSE OPEN >RECONNECT >RESEND1:2 <CONNACK >PINGREQ CLOSE OPEN >RECONNECT <CONNACK-RESUMED >RESEND1:1 | fault 15 S02 MQTT-4.3.2-2,MQTT-4.3.3-2 decided 15 record 15 offset -; fail 1 faults 15 events
it was sent again after that CONNACK | client OPEN >CONNECT-KEPT <CONNACK >PUBLISH1:1 CLOSE OPEN >RECONNECT <CONNACK >RESEND1:1 CLOSE OPEN >RECONNECT <CONNACK-RESUMED >RESEND1:1 | fault 9 S02 MQTT-4.3.2-2,MQTT-4.3.3-2 decided 9 record 9 offset -; fault 14 S02 MQTT-4.3.2-2,MQTT-4.3.3-2 decided 14 record 14 offset -; fail 2 faults 14 events
two connections later | client OPEN >CONNECT-KEPT <CONNACK >PUBLISH1:1 CLOSE OPEN >RECONNECT >RESEND1:1 <CONNACK >PINGREQ CLOSE OPEN >RECONNECT <CONNACK-RESUMED CLOSE OPEN >RECONNECT <CONNACK-RESUMED >RESEND1:1 | pass 19 events
the session after that is another one | client OPEN >CONNECT-KEPT <CONNACK >PUBLISH1:1 CLOSE OPEN >RECONNECT >RESEND1:1 <CONNACK >PINGREQ CLOSE OPEN >RECONNECT <CONNACK >RESEND1:1 | fault 15 S02 MQTT-4.3.2-2,MQTT-4.3.3-2 decided 15 record 15 offset -; fail 1 faults 15 events
before the CONNACK of the connection itself it doesn't count | client OPEN >CONNECT-KEPT >PUBLISH1:1 <CONNACK <PUBACK:1 >RESEND1:1 | fault 6 S02 MQTT-4.3.2-2,MQTT-4.3.3-2 decided 6 record 6 offset -; fail 1 faults 6 events
on its next connection it does, though it was acknowledged | client OPEN >CONNECT-KEPT >PUBLISH1:1 <CONNACK <PUBACK:1 CLOSE OPEN >RECONNECT <CONNACK-RESUMED >RESEND1:1 | pass 10 events
with Clean Start 1 the resend before the CONNACK is one, and not the next | client OPEN >CONNECT-KEPT <CONNACK >PUBLISH1:1 CLOSE OPEN >CONNECT-KEPT >RESEND1:1 <CONNACK CLOSE OPEN >RECONNECT <CONNACK-RESUMED >RESEND1:1 | fault 8 S02 MQTT-4.3.2-2,MQTT-4.3.3-2 decided 9 record 8 offset -; fail 1 faults 14 events
before the CONNACK of a later connection of the session | client OPEN >CONNECT-KEPT <CONNACK CLOSE OPEN >RECONNECT >RESEND1:1 <CONNACK-RESUMED CLOSE OPEN >RECONNECT <CONNACK-RESUMED >RESEND1:1 | fault 7 S02 MQTT-4.3.2-2,MQTT-4.3.3-2 decided 8 record 7 offset -; fault 13 S02 MQTT-4.3.2-2,MQTT-4.3.3-2 decided 13 record 13 offset -; fail 2 faults 13 events
the log begins with the session, which is resumed | client OPEN >RECONNECT >RESEND1:1 <CONNACK-RESUMED CLOSE OPEN >RECONNECT <CONNACK-RESUMED >RESEND1:1 | pass 9 events
server: what came before its CONNACK doesn't count | server OPEN <CONNECT-KEPT <SUBSCRIBE-ALL:1 >PUBLISH1:1 >CONNACK <PUBACK:1 CLOSE OPEN <RECONNECT >CONNACK-RESUMED >RESEND1:1 | fault 4 C05 MQTT-3.2.0-1 decided 4 record 4 offset -; fault 11 S02 MQTT-4.3.2-2,MQTT-4.3.3-2 decided 11 record 11 offset -; fail 2 faults 11 events";
