//! Questions that the words of MQTT 5.0 leave open, on packets and connections, and how they are
//! settled.

pub const ROWS: &str = "\
does a CONNACK that refuses limit packets? yes, whatever its code | client OPEN >CONNECT <2008008705270000000A >3009000161007878787878 | fault 4 C14 MQTT-3.2.2-15 decided 4 record 4 offset -; fail 1 faults 4 events
does a later CONNACK make a connection accepted? no, the first one decides | client OPEN >CONNECT-KEPT <CONNACK-REFUSED <CONNACK CLOSE OPEN >RECONNECT <CONNACK-RESUMED >PINGREQ | fault 9 C13 MQTT-3.2.2-4 decided 9 record 9 offset -; fail 1 faults 9 events
and for a server? | server OPEN <CONNECT-KEPT >CONNACK-REFUSED >CONNACK CLOSE OPEN <RECONNECT >CONNACK-RESUMED | fault 4 C06 MQTT-3.2.0-2 decided 4 record 4 offset -; fault 4 C12 MQTT-3.2.2-7 decided 4 record 4 offset -; fault 8 C08 MQTT-3.2.2-3 decided 8 record 8 offset -; fail 3 faults 8 events
which CONNECT names the client? the first | server OPEN <CONNECT-NAMED <CONNECT >CONNACK | pass 4 events
and where the second has a name? | server OPEN <CONNECT <CONNECT-NAMED >CONNACK | fault 4 C10 MQTT-3.2.2-16 decided 4 record 4 offset -; fail 1 faults 4 events
which CONNACK limits packets? the first | client OPEN >CONNECT <CONNACK <CONNACK-SIZE-10 >3009000161007878787878 | pass 5 events
does a client's own CONNACK limit its packets? no, it comes from the wrong end | client OPEN >CONNECT >CONNACK-SIZE-10 <CONNACK >3009000161007878787878 | fault 3 C01 sec-2.1.2 decided 3 record 3 offset -; fail 1 faults 5 events
does a server's own CONNECT count? no | server OPEN >CONNECT-NAMED >CONNACK | fault 2 C01 sec-2.1.2 decided 2 record 2 offset -; fault 2 C05 MQTT-3.2.0-1 decided 2 record 2 offset -; fault 3 C04 sec-3.2 decided 3 record 3 offset -; fail 3 faults 3 events
does a broken CONNECT begin a connection? yes, by its type | client OPEN >BAD-CONNECT >CONNECT | fault 2 W18 sec-3.1.2 decided 2 record 2 offset 2; fault 3 C03 sec-3.1 decided 3 record 3 offset -; fail 2 faults 3 events
and for the server? | server OPEN <BAD-CONNECT >CONNACK | pass 3 events
does a broken CONNACK count as sent? yes, by its type | server OPEN <CONNECT-NAMED >BAD-CONNACK >PINGRESP >CONNACK | fault 3 W20 MQTT-3.2.2-1 decided 3 record 3 offset 2; fault 5 C06 MQTT-3.2.0-2 decided 5 record 5 offset -; fail 2 faults 5 events
has a broken SUBACK of a client a type? yes | client OPEN >CONNECT <CONNACK >9003000000 | fault 4 W09 sec-2.2.1 decided 4 record 4 offset 2; fault 4 C01 sec-2.1.2 decided 4 record 4 offset -; fail 2 faults 4 events
may a session begin on a connection with a broken CONNECT alone? no, that is no CONNECT | client OPEN >BAD-CONNECT CLOSE OPEN >RECONNECT <CONNACK-RESUMED >PINGREQ | fault 2 W18 sec-3.1.2 decided 2 record 2 offset 2; fault 7 C13 MQTT-3.2.2-4 decided 7 record 7 offset -; fail 2 faults 7 events
does a broken CONNACK decide a connection? no | client OPEN >CONNECT-KEPT <BAD-CONNACK CLOSE OPEN >RECONNECT <CONNACK-RESUMED >PINGREQ | pass 8 events
does a broken CONNACK resume a session? no | client OPEN >CONNECT <2003030000 >PINGREQ | pass 4 events
does a broken CONNACK of 0x87 refuse? no | server OPEN <CONNECT-NAMED >2003028700 >PINGRESP REST | fault 3 W20 MQTT-3.2.2-1 decided 3 record 3 offset 2; fail 1 faults 5 events
does a broken DISCONNECT end what may be sent? no | client OPEN >CONNECT <CONNACK >BAD-DISCONNECT >PINGREQ REST | fault 4 W13 sec-2.4 decided 4 record 4 offset 2; fail 1 faults 6 events
does a broken PUBLISH need a CONNACK before it? no | client OPEN >CONNECT >300400012300 | fault 3 W14 sec-3.3.2 decided 3 record 3 offset 2; fail 1 faults 3 events
is a packet of type 0 one that the client may send? that isn't asked, but it comes before the CONNECT | client OPEN >0000 | fault 2 W02 sec-2.1.2 decided 2 record 2 offset 0; fault 2 C02 MQTT-3.1.0-1 decided 2 record 2 offset -; fail 2 faults 2 events
and after a DISCONNECT? | client OPEN >CONNECT <CONNACK >DISCONNECT >0000 | fault 5 W02 sec-2.1.2 decided 5 record 5 offset 0; fault 5 C11 MQTT-3.14.4-1 decided 5 record 5 offset -; fail 2 faults 5 events
and for a server, before its CONNACK? | server OPEN <CONNECT-NAMED >0000 | fault 3 W02 sec-2.1.2 decided 3 record 3 offset 0; fault 3 C05 MQTT-3.2.0-1 decided 3 record 3 offset -; fail 2 faults 3 events
and after a CONNACK that refuses? | server OPEN <CONNECT-NAMED >CONNACK-REFUSED >0000 | fault 4 W02 sec-2.1.2 decided 4 record 4 offset 0; fault 4 C12 MQTT-3.2.2-7 decided 4 record 4 offset -; fail 2 faults 4 events
has a lost packet a type? no, so it isn't the first item sent | client OPEN >LOST | fault 2 W03 MQTT-1.5.5-1 decided 2 record 2 offset 1; fail 1 faults 2 events
nor is it sent after a DISCONNECT | client OPEN >CONNECT <CONNACK >DISCONNECT >LOST | fault 5 W03 MQTT-1.5.5-1 decided 5 record 5 offset 1; fail 1 faults 5 events
nor before the CONNACK | server OPEN <CONNECT-NAMED >LOST | fault 3 W03 MQTT-1.5.5-1 decided 3 record 3 offset 1; fail 1 faults 3 events
nor after one that refuses | server OPEN <CONNECT-NAMED >CONNACK-REFUSED >LOST | fault 4 W03 MQTT-1.5.5-1 decided 4 record 4 offset 1; fail 1 faults 4 events
which of a client's DISCONNECTs tells the Session Expiry Interval? the first, which has none here | server OPEN <CONNECT-KEPT >CONNACK <DISCONNECT <DISCONNECT-0 CLOSE OPEN <RECONNECT >CONNACK-RESUMED | pass 9 events
and where the first has it? | server OPEN <CONNECT-KEPT >CONNACK <DISCONNECT-0 <DISCONNECT CLOSE OPEN <RECONNECT >CONNACK-RESUMED | fault 9 C08 MQTT-3.2.2-3 decided 9 record 9 offset -; fail 1 faults 9 events
does a server's DISCONNECT tell it? no | client OPEN >CONNECT-KEPT <CONNACK <DISCONNECT-0 CLOSE OPEN >RECONNECT <CONNACK-RESUMED >PINGREQ | pass 9 events
does a client's DISCONNECT replace it? | client OPEN >CONNECT-KEPT <CONNACK >DISCONNECT-0 CLOSE OPEN >RECONNECT <CONNACK-RESUMED >PINGREQ | fault 9 C13 MQTT-3.2.2-4 decided 9 record 9 offset -; fail 1 faults 9 events
does the CONNACK replace it? | client OPEN >CONNECT-KEPT <20080000051100000000 CLOSE OPEN >RECONNECT <CONNACK-RESUMED >PINGREQ | fault 8 C13 MQTT-3.2.2-4 decided 8 record 8 offset -; fail 1 faults 8 events
and where the CONNECT says nothing? | client OPEN >CONNECT-NAMED <2008000005110000003C CLOSE OPEN >RECONNECT <CONNACK-RESUMED >PINGREQ | pass 8 events
of which connection is it asked? of the latest that was accepted | client OPEN >CONNECT-KEPT <CONNACK CLOSE OPEN >CONNECT-NAMED <CONNACK CLOSE OPEN >RECONNECT <CONNACK-RESUMED >PINGREQ | fault 12 C13 MQTT-3.2.2-4 decided 12 record 12 offset -; fail 1 faults 12 events
does a connection that was refused end a session? no | client OPEN >CONNECT-KEPT <CONNACK CLOSE OPEN >CONNECT-NAMED <CONNACK-REFUSED CLOSE OPEN >RECONNECT <CONNACK-RESUMED >PINGREQ | pass 12 events
does a connection that was refused begin one? no | client OPEN >CONNECT-KEPT <CONNACK-REFUSED CLOSE OPEN >RECONNECT <CONNACK-RESUMED >PINGREQ | fault 8 C13 MQTT-3.2.2-4 decided 8 record 8 offset -; fail 1 faults 8 events
does one that closed without a CONNECT? no | client OPEN CLOSE OPEN >RECONNECT <CONNACK-RESUMED >PINGREQ | fault 6 C13 MQTT-3.2.2-4 decided 6 record 6 offset -; fail 1 faults 6 events
does one that closed without a CONNACK, before a session that ended? no | client OPEN >CONNECT-KEPT CLOSE OPEN >CONNECT-NAMED <CONNACK CLOSE OPEN >RECONNECT <CONNACK-RESUMED >PINGREQ | fault 11 C13 MQTT-3.2.2-4 decided 11 record 11 offset -; fail 1 faults 11 events
and after it? it may | client OPEN >CONNECT-NAMED <CONNACK CLOSE OPEN >CONNECT-KEPT CLOSE OPEN >RECONNECT <CONNACK-RESUMED >PINGREQ | pass 11 events
are a Will's properties those of its CONNECT? no | server OPEN <CONNECT-TERSE >CONNACK >101B00044D5154540506003C0000016307260001610001620001610000 | fault 4 C01 sec-2.1.2 decided 4 record 4 offset -; fail 1 faults 4 events
is the Assigned Client Identifier asked of each CONNACK? yes | server OPEN <CONNECT >CONNACK-NAMING >CONNACK | fault 4 C06 MQTT-3.2.0-2 decided 4 record 4 offset -; fault 4 C10 MQTT-3.2.2-16 decided 4 record 4 offset -; fail 2 faults 4 events
is Session Present asked of each CONNACK that refuses? yes | server OPEN <RECONNECT >CONNACK >2003018700 | fault 4 C06 MQTT-3.2.0-2 decided 4 record 4 offset -; fault 4 C09 MQTT-3.2.2-6 decided 4 record 4 offset -; fail 2 faults 4 events
is the session asked of each CONNACK? yes | server OPEN <RECONNECT >CONNACK >CONNACK-RESUMED | fault 4 C06 MQTT-3.2.0-2 decided 4 record 4 offset -; fault 4 C08 MQTT-3.2.2-3 decided 4 record 4 offset -; fail 2 faults 4 events
is the Clean Start asked of each CONNACK? yes | server OPEN <CONNECT-KEPT >CONNACK CLOSE OPEN <CONNECT-KEPT >CONNACK >CONNACK-RESUMED | fault 8 C06 MQTT-3.2.0-2 decided 8 record 8 offset -; fault 8 C07 MQTT-3.2.2-2 decided 8 record 8 offset -; fail 2 faults 8 events
does a CONNECT that comes after the CONNACK tell the Session Expiry Interval? yes | server OPEN >CONNACK <CONNECT-KEPT CLOSE OPEN <RECONNECT >CONNACK-RESUMED | fault 2 C04 sec-3.2 decided 2 record 2 offset -; fail 1 faults 7 events
has a client that sends no CONNECT asked for a Clean Start? no | client OPEN >CONNECT-KEPT <CONNACK CLOSE OPEN <CONNACK-RESUMED >CONNECT-KEPT >PINGREQ | fault 8 C13 MQTT-3.2.2-4 decided 8 record 8 offset -; fail 1 faults 8 events
is a client bound by a limit before it is told? no | client OPEN >CONNECT <CONNACK-SIZE-10 | pass 3 events
does a CONNACK to which a client's session was unknown matter to a server? no | server OPEN <CONNECT-KEPT >CONNACK CLOSE OPEN <RECONNECT >CONNACK CLOSE OPEN <RECONNECT >CONNACK-RESUMED | pass 11 events";
