//! Worked logs of statements on packets, connections and identifiers.

pub const ROWS: &str = "\
no events | client | pass 0 events
a message is sent and acknowledged | client OPEN >CONNECT <CONNACK >PUBLISH1:1 <PUBACK:1 REST CLOSE | pass 7 events
an identifier is taken twice | client OPEN >CONNECT <CONNACK >PUBLISH1:1 >PUBLISH1:1 <PUBACK:1 | fault 5 S01 MQTT-2.2.1-3 decided 5 record 5 offset -; fail 1 faults 6 events
a packet larger than the server allows, with an alias where none is allowed | client OPEN >CONNECT <CONNACK-SIZE-10 >3009000161032300017879 | fault 4 C14 MQTT-3.2.2-15 decided 4 record 4 offset -; fault 4 C15 MQTT-3.2.2-17 decided 4 record 4 offset -; fail 2 faults 4 events
an integer in more bytes than it needs | client OPEN >CONNECT <CONNACK >3006000161800078 | fault 4 W03 MQTT-1.5.5-1 decided 4 record 4 offset 5; fail 1 faults 4 events
a property list longer than its packet | client OPEN >CONNECT <CONNACK >3007000161FFFFFF7F | fault 4 W06 sec-2.1.4 decided 4 record 4 offset 5; fail 1 faults 4 events
a packet whose length is no number | client OPEN >CONNECT <CONNACK >LOST >PUBLISH1:1 <PUBLISH1:1 REST | fault 4 W03 MQTT-1.5.5-1 decided 4 record 4 offset 1; fail 1 faults 6 events
a session that the client doesn't have | client OPEN >CONNECT <CONNACK-RESUMED >PINGREQ | fault 4 C13 MQTT-3.2.2-4 decided 4 record 4 offset -; fail 1 faults 4 events
two connections at once | client OPEN OPEN | refused 7 Nested at 13
MQTT 3.1.1 | client OPEN >100C00044D5154540402003C0000 | refused 12 OtherVersion at 31
nothing before a PINGREQ | client OPEN >PINGREQ | fault 2 C02 MQTT-3.1.0-1 decided 2 record 2 offset -; fail 1 faults 2 events
PINGREQ after DISCONNECT | client OPEN >CONNECT <CONNACK >DISCONNECT >PINGREQ | fault 5 C11 MQTT-3.14.4-1 decided 5 record 5 offset -; fail 1 faults 5 events
at rest after it | client OPEN >CONNECT <CONNACK >DISCONNECT REST | fault 5 C23 MQTT-3.14.4-2 decided 5 record 5 offset -; fail 1 faults 5 events
a session that wasn't asked for, nor was there one | server OPEN <CONNECT-NAMED >CONNACK-RESUMED | fault 3 C07 MQTT-3.2.2-2 decided 3 record 3 offset -; fault 3 C08 MQTT-3.2.2-3 decided 3 record 3 offset -; fail 2 faults 3 events
and before the CONNECT | server OPEN >CONNACK-RESUMED <CONNECT-NAMED | fault 2 C04 sec-3.2 decided 2 record 2 offset -; fault 2 C08 MQTT-3.2.2-3 decided 2 record 2 offset -; fail 2 faults 3 events
a client that gets no identifier | server OPEN <CONNECT >CONNACK | fault 3 C10 MQTT-3.2.2-16 decided 3 record 3 offset -; fail 1 faults 3 events
an alias without a topic | client OPEN >CONNECT <CONNACK-ALIASES-5 >ALIAS-1 | fault 4 C16 sec-3.3.2 decided 4 record 4 offset -; fail 1 faults 4 events
an alias with one | client OPEN >CONNECT <CONNACK-ALIASES-5 >ALIAS-SET-1 >ALIAS-1 | pass 5 events
a session of a connection without a CONNACK | client OPEN >CONNECT-KEPT CLOSE OPEN >RECONNECT <CONNACK-RESUMED >PINGREQ | pass 7 events";
