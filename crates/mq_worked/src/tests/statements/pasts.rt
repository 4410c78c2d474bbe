//! Statements on the past of a connection (C01 to C23).

// How a connection begins.
pub const BEGINNINGS: &str = "\
C01, client: PINGRESP | client OPEN >CONNECT <CONNACK >PINGRESP | fault 4 C01 sec-2.1.2 decided 4 record 4 offset -; fail 1 faults 4 events
C01, client: PINGREQ | client OPEN >CONNECT <CONNACK >PINGREQ | pass 4 events
C01, client: all types that a server alone sends | client OPEN >CONNECT <CONNACK >CONNACK >SUBACK:1 >UNSUBACK:1 >PINGRESP | fault 4 C01 sec-2.1.2 decided 4 record 4 offset -; fault 5 C01 sec-2.1.2 decided 5 record 5 offset -; fault 6 C01 sec-2.1.2 decided 6 record 6 offset -; fault 7 C01 sec-2.1.2 decided 7 record 7 offset -; fail 4 faults 7 events
C01, server: PINGREQ | server OPEN <CONNECT-NAMED >CONNACK >PINGREQ | fault 4 C01 sec-2.1.2 decided 4 record 4 offset -; fail 1 faults 4 events
C01, server: PINGRESP | server OPEN <CONNECT-NAMED >CONNACK >PINGRESP | pass 4 events
C01, server: all types that a client alone sends | server OPEN <CONNECT-NAMED >CONNACK >CONNECT >SUBSCRIBE:1 >UNSUBSCRIBE:1 >PINGREQ | fault 4 C01 sec-2.1.2 decided 4 record 4 offset -; fault 5 C01 sec-2.1.2 decided 5 record 5 offset -; fault 6 C01 sec-2.1.2 decided 6 record 6 offset -; fault 7 C01 sec-2.1.2 decided 7 record 7 offset -; fail 4 faults 7 events
C02, client: PINGREQ before CONNECT | client OPEN >PINGREQ >CONNECT | fault 2 C02 MQTT-3.1.0-1 decided 2 record 2 offset -; fail 1 faults 3 events
C02, client: after it | client OPEN >CONNECT >PINGREQ | pass 3 events
C02, client: on the second connection | client OPEN >CONNECT <CONNACK CLOSE OPEN >PINGREQ >CONNECT | fault 6 C02 MQTT-3.1.0-1 decided 6 record 6 offset -; fail 1 faults 7 events
C03, client: a second CONNECT | client OPEN >CONNECT <CONNACK >CONNECT | fault 4 C03 sec-3.1 decided 4 record 4 offset -; fail 1 faults 4 events
C03, client: on a second connection | client OPEN >CONNECT <CONNACK CLOSE OPEN >CONNECT | pass 6 events
C04, server: CONNACK before CONNECT | server OPEN >CONNACK <CONNECT-NAMED | fault 2 C04 sec-3.2 decided 2 record 2 offset -; fail 1 faults 3 events
C04, server: after it | server OPEN <CONNECT-NAMED >CONNACK | pass 3 events
C04, server: the CONNECT came on another connection | server OPEN <CONNECT-NAMED CLOSE OPEN >CONNACK | fault 5 C04 sec-3.2 decided 5 record 5 offset -; fail 1 faults 5 events
C05, server: PINGRESP before CONNACK | server OPEN <CONNECT-NAMED >PINGRESP >CONNACK | fault 3 C05 MQTT-3.2.0-1 decided 3 record 3 offset -; fail 1 faults 4 events
C05, server: after it | server OPEN <CONNECT-NAMED >CONNACK >PINGRESP | pass 4 events
C05, server: AUTH may come before it | server OPEN <CONNECT-NAMED >AUTH >CONNACK | pass 4 events
C05, server: the CONNACK was on another connection | server OPEN <CONNECT-NAMED >CONNACK CLOSE OPEN <CONNECT-NAMED >PINGRESP | fault 7 C05 MQTT-3.2.0-1 decided 7 record 7 offset -; fail 1 faults 7 events
C06, server: a second CONNACK | server OPEN <CONNECT-NAMED >CONNACK >CONNACK | fault 4 C06 MQTT-3.2.0-2 decided 4 record 4 offset -; fail 1 faults 4 events
C06, server: on a second connection | server OPEN <CONNECT-NAMED >CONNACK CLOSE OPEN <CONNECT-NAMED >CONNACK | pass 7 events";

// Sessions that are resumed, and refusals.
pub const SESSIONS: &str = "\
C07, server: Session Present for a Clean Start | server OPEN <CONNECT-KEPT >CONNACK CLOSE OPEN <CONNECT-KEPT >CONNACK-RESUMED | fault 7 C07 MQTT-3.2.2-2 decided 7 record 7 offset -; fail 1 faults 7 events
C07, server: Session Present without it | server OPEN <CONNECT-KEPT >CONNACK CLOSE OPEN <RECONNECT >CONNACK-RESUMED | pass 7 events
C07, server: nor was there a session to go on with | server OPEN <CONNECT-NAMED >CONNACK-RESUMED | fault 3 C07 MQTT-3.2.2-2 decided 3 record 3 offset -; fault 3 C08 MQTT-3.2.2-3 decided 3 record 3 offset -; fail 2 faults 3 events
C07, server: nothing is said of a CONNACK before the CONNECT | server OPEN >CONNACK-RESUMED <CONNECT-NAMED | fault 2 C04 sec-3.2 decided 2 record 2 offset -; fault 2 C08 MQTT-3.2.2-3 decided 2 record 2 offset -; fail 2 faults 3 events
C08, server: Session Present on the first connection | server OPEN <RECONNECT >CONNACK-RESUMED | fault 3 C08 MQTT-3.2.2-3 decided 3 record 3 offset -; fail 1 faults 3 events
C08, server: Session Present 0 | server OPEN <RECONNECT >CONNACK | pass 3 events
C08, server: the session before ended with its connection | server OPEN <CONNECT-NAMED >CONNACK CLOSE OPEN <RECONNECT >CONNACK-RESUMED | fault 7 C08 MQTT-3.2.2-3 decided 7 record 7 offset -; fail 1 faults 7 events
C08, server: it was kept | server OPEN <CONNECT-KEPT >CONNACK CLOSE OPEN <RECONNECT >CONNACK-RESUMED | pass 7 events
C09, server: Session Present in a CONNACK that refuses | server OPEN <RECONNECT >2003018700 | fault 3 C09 MQTT-3.2.2-6 decided 3 record 3 offset -; fail 1 faults 3 events
C09, server: Session Present 0 | server OPEN <RECONNECT >CONNACK-REFUSED | pass 3 events
C10, server: a client without an identifier gets none | server OPEN <CONNECT >CONNACK | fault 3 C10 MQTT-3.2.2-16 decided 3 record 3 offset -; fail 1 faults 3 events
C10, server: it gets one | server OPEN <CONNECT >CONNACK-NAMING | pass 3 events
C10, server: it has one | server OPEN <CONNECT-NAMED >CONNACK | pass 3 events
C10, server: it is refused | server OPEN <CONNECT >CONNACK-REFUSED | pass 3 events
C11, client: PINGREQ after DISCONNECT | client OPEN >CONNECT <CONNACK >DISCONNECT >PINGREQ | fault 5 C11 MQTT-3.14.4-1 decided 5 record 5 offset -; fail 1 faults 5 events
C11, client: before it | client OPEN >CONNECT <CONNACK >PINGREQ >DISCONNECT | pass 5 events
C11, client: a second DISCONNECT | client OPEN >CONNECT <CONNACK >DISCONNECT >DISCONNECT | fault 5 C11 MQTT-3.14.4-1 decided 5 record 5 offset -; fail 1 faults 5 events
C11, client: the server sent the DISCONNECT | client OPEN >CONNECT <CONNACK <DISCONNECT >PINGREQ | pass 5 events
C11, client: on another connection | client OPEN >CONNECT <CONNACK >DISCONNECT CLOSE OPEN >CONNECT | pass 7 events
C11, server: PINGRESP after DISCONNECT | server OPEN <CONNECT-NAMED >CONNACK >DISCONNECT >PINGRESP | fault 5 C11 MQTT-3.14.4-1 decided 5 record 5 offset -; fail 1 faults 5 events
C11, server: before it | server OPEN <CONNECT-NAMED >CONNACK >PINGRESP >DISCONNECT | pass 5 events
C12, server: PINGRESP after a CONNACK that refuses | server OPEN <CONNECT-NAMED >CONNACK-REFUSED >PINGRESP | fault 4 C12 MQTT-3.2.2-7 decided 4 record 4 offset -; fail 1 faults 4 events
C12, server: after one that accepts | server OPEN <CONNECT-NAMED >CONNACK >PINGRESP | pass 4 events
C12, server: after a CONNACK of code 0x80 | server OPEN <CONNECT-NAMED >2003008000 >DISCONNECT | fault 4 C12 MQTT-3.2.2-7 decided 4 record 4 offset -; fail 1 faults 4 events
C13, client: it goes on with a session that it doesn't have | client OPEN >CONNECT <CONNACK-RESUMED >PINGREQ | fault 4 C13 MQTT-3.2.2-4 decided 4 record 4 offset -; fail 1 faults 4 events
C13, client: it disconnects | client OPEN >CONNECT <CONNACK-RESUMED >DISCONNECT | pass 4 events
C13, client: it asked for a Clean Start | client OPEN >CONNECT-KEPT <CONNACK CLOSE OPEN >CONNECT-KEPT <CONNACK-RESUMED >PINGREQ | fault 8 C13 MQTT-3.2.2-4 decided 8 record 8 offset -; fail 1 faults 8 events
C13, client: it didn't | client OPEN >CONNECT-KEPT <CONNACK CLOSE OPEN >RECONNECT <CONNACK-RESUMED >PINGREQ | pass 8 events
C13, client: its session ended with the connection before | client OPEN >CONNECT-NAMED <CONNACK CLOSE OPEN >RECONNECT <CONNACK-RESUMED >PINGREQ | fault 8 C13 MQTT-3.2.2-4 decided 8 record 8 offset -; fail 1 faults 8 events
C13, client: the server may have begun a session on a connection without a CONNACK | client OPEN >CONNECT-KEPT CLOSE OPEN >RECONNECT <CONNACK-RESUMED >PINGREQ | pass 7 events
C13, client: it begins a session that it asked to resume | client OPEN >RECONNECT <CONNACK >PINGREQ | pass 4 events";

// What the peer announced.
pub const LIMITS: &str = "\
C14, client: a packet of 11 bytes, of which 10 are allowed | client OPEN >CONNECT <CONNACK-SIZE-10 >3009000161007878787878 | fault 4 C14 MQTT-3.2.2-15 decided 4 record 4 offset -; fail 1 faults 4 events
C14, client: one of 10 | client OPEN >CONNECT <CONNACK-SIZE-10 >30080001610078787878 | pass 4 events
C14, client: the other end receives what it likes | client OPEN >CONNECT-SIZE-10 <CONNACK >3009000161007878787878 | pass 4 events
C14, server: a packet of 11 bytes, of which 10 are allowed | server OPEN <CONNECT-SIZE-10 >CONNACK <SUBSCRIBE-ALL:1 >3009000161007878787878 | fault 5 C14 MQTT-3.1.2-24 decided 5 record 5 offset -; fail 1 faults 5 events
C14, server: one of 10 | server OPEN <CONNECT-SIZE-10 >CONNACK <SUBSCRIBE-ALL:1 >30080001610078787878 | pass 5 events
C15, client: Topic Alias 6, of which 5 are allowed | client OPEN >CONNECT <CONNACK-ALIASES-5 >30080001610323000678 | fault 4 C15 MQTT-3.2.2-17 decided 4 record 4 offset -; fail 1 faults 4 events
C15, client: Topic Alias 5 | client OPEN >CONNECT <CONNACK-ALIASES-5 >30080001610323000578 | pass 4 events
C15, client: none are allowed where the CONNACK says nothing | client OPEN >CONNECT <CONNACK >ALIAS-SET-1 | fault 4 C15 MQTT-3.2.2-17 decided 4 record 4 offset -; fail 1 faults 4 events
C15, server: Topic Alias 6, of which 5 are allowed | server OPEN <CONNECT-ALIASES-5 >CONNACK <SUBSCRIBE-ALL:1 >30080001610323000678 | fault 5 C15 MQTT-3.1.2-26 decided 5 record 5 offset -; fail 1 faults 5 events
C15, server: Topic Alias 5 | server OPEN <CONNECT-ALIASES-5 >CONNACK <SUBSCRIBE-ALL:1 >30080001610323000578 | pass 5 events
C16, client: a Topic Alias that has no topic | client OPEN >CONNECT <CONNACK-ALIASES-5 >ALIAS-1 | fault 4 C16 sec-3.3.2 decided 4 record 4 offset -; fail 1 faults 4 events
C16, client: it got one | client OPEN >CONNECT <CONNACK-ALIASES-5 >ALIAS-SET-1 >ALIAS-1 | pass 5 events
C16, client: another alias got one | client OPEN >CONNECT <CONNACK-ALIASES-5 >30080001610323000278 >ALIAS-1 | fault 5 C16 sec-3.3.2 decided 5 record 5 offset -; fail 1 faults 5 events
C16, client: it got one on another connection | client OPEN >CONNECT <CONNACK-ALIASES-5 >ALIAS-SET-1 CLOSE OPEN >CONNECT <CONNACK-ALIASES-5 >ALIAS-1 | fault 9 C16 sec-3.3.2 decided 9 record 9 offset -; fail 1 faults 9 events
C16, client: the server's aliases are others | client OPEN >CONNECT-ALIASES-5 <CONNACK-ALIASES-5 <ALIAS-SET-1 >ALIAS-1 | fault 5 C16 sec-3.3.2 decided 5 record 5 offset -; fail 1 faults 5 events
C16, server: a Topic Alias that has no topic | server OPEN <CONNECT-ALIASES-5 >CONNACK <SUBSCRIBE-ALL:1 >ALIAS-1 | fault 5 C16 sec-3.3.2 decided 5 record 5 offset -; fail 1 faults 5 events
C16, server: it got one | server OPEN <CONNECT-ALIASES-5 >CONNACK <SUBSCRIBE-ALL:1 >ALIAS-SET-1 >ALIAS-1 | pass 6 events
C17, client: QoS 2, where 1 is allowed | client OPEN >CONNECT <CONNACK-QOS-1 >PUBLISH2:1 | fault 4 C17 MQTT-3.2.2-11 decided 4 record 4 offset -; fail 1 faults 4 events
C17, client: QoS 1 | client OPEN >CONNECT <CONNACK-QOS-1 >PUBLISH1:1 | pass 4 events
C17, client: QoS 1, where 0 is allowed | client OPEN >CONNECT <20050000022400 >PUBLISH1:1 | fault 4 C17 MQTT-3.2.2-11 decided 4 record 4 offset -; fail 1 faults 4 events
C18, client: a Subscription Identifier | client OPEN >CONNECT <CONNACK >3007000161020B0178 | fault 4 C18 MQTT-3.3.4-6 decided 4 record 4 offset -; fail 1 faults 4 events
C18, client: another property | client OPEN >CONNECT <CONNACK >300700016102010178 | pass 4 events
C18, client: what the server sends has one | client OPEN >CONNECT <CONNACK <3007000161020B0178 | pass 4 events";

// Properties that depend on the CONNECT, and rest.
pub const PROPERTIES: &str = "\
C19, server: Session Expiry Interval in its DISCONNECT | server OPEN <CONNECT-KEPT >CONNACK >DISCONNECT-60 | fault 4 C19 MQTT-3.14.2-2 decided 4 record 4 offset -; fail 1 faults 4 events
C19, server: without it | server OPEN <CONNECT-KEPT >CONNACK >DISCONNECT | pass 4 events
C19, server: an interval of 0 | server OPEN <CONNECT-KEPT >CONNACK >DISCONNECT-0 | fault 4 C19 MQTT-3.14.2-2 decided 4 record 4 offset -; fail 1 faults 4 events
C19, server: the client's has one | server OPEN <CONNECT-KEPT >CONNACK <DISCONNECT-60 | pass 4 events
C20, client: it keeps at last a session that it didn't keep at first | client OPEN >CONNECT <CONNACK >DISCONNECT-60 | fault 4 C20 sec-3.14.2 decided 4 record 4 offset -; fail 1 faults 4 events
C20, client: it kept it at first | client OPEN >CONNECT-KEPT <CONNACK >DISCONNECT-60 | pass 4 events
C20, client: it doesn't keep it at last either | client OPEN >CONNECT <CONNACK >DISCONNECT-0 | pass 4 events
C20, client: a CONNECT with an interval of 0 | client OPEN >101300044D5154540502003C051100000000000163 <CONNACK >DISCONNECT-60 | fault 4 C20 sec-3.14.2 decided 4 record 4 offset -; fail 1 faults 4 events
C20, client: what the CONNACK says doesn't matter | client OPEN >CONNECT <2008000005110000003C >DISCONNECT-60 | fault 4 C20 sec-3.14.2 decided 4 record 4 offset -; fail 1 faults 4 events
C20, client: nothing is said of a connection without a CONNECT | client OPEN >DISCONNECT-60 | fault 2 C02 MQTT-3.1.0-1 decided 2 record 2 offset -; fail 1 faults 2 events
C21, server: a Reason String, which the client doesn't want | server OPEN <CONNECT-TERSE >CONNACK <SUBSCRIBE:1 >90080001041F00017802 | fault 5 C21 MQTT-3.1.2-29 decided 5 record 5 offset -; fail 1 faults 5 events
C21, server: none | server OPEN <CONNECT-TERSE >CONNACK <SUBSCRIBE:1 >SUBACK:1 | pass 5 events
C21, server: a User Property | server OPEN <CONNECT-TERSE >CONNACK <SUBSCRIBE:1 >900B0001072600016100016202 | fault 5 C21 MQTT-3.1.2-29 decided 5 record 5 offset -; fail 1 faults 5 events
C21, server: a client that says nothing of it | server OPEN <CONNECT-NAMED >CONNACK <SUBSCRIBE:1 >90080001041F00017802 | pass 5 events
C21, server: CONNACK, PUBLISH and DISCONNECT may have them | server OPEN <CONNECT-TERSE >20070000041F000178 <SUBSCRIBE-ALL:1 >300C000161072600016100016278 >E00600041F000178 | pass 6 events
C21, server: nothing is said of what is sent before the CONNECT | server OPEN >F00600041F000178 <CONNECT-TERSE >CONNACK | pass 4 events
C22, server: Response Information, which the client doesn't want | server OPEN <CONNECT-NAMED >CONNACK-INFORMING | fault 3 C22 MQTT-3.1.2-28 decided 3 record 3 offset -; fail 1 faults 3 events
C22, server: it wants it | server OPEN <CONNECT-ASKING >CONNACK-INFORMING | pass 3 events
C22, server: Request Response Information 0 | server OPEN <101000044D5154540502003C021900000163 >CONNACK-INFORMING | fault 3 C22 MQTT-3.1.2-28 decided 3 record 3 offset -; fail 1 faults 3 events
C22, server: nothing is said of a CONNACK before the CONNECT | server OPEN >CONNACK-INFORMING <CONNECT-NAMED | fault 2 C04 sec-3.2 decided 2 record 2 offset -; fail 1 faults 3 events
C23, client: at rest after its DISCONNECT | client OPEN >CONNECT <CONNACK >DISCONNECT REST | fault 5 C23 MQTT-3.14.4-2 decided 5 record 5 offset -; fail 1 faults 5 events
C23, client: before it | client OPEN >CONNECT <CONNACK REST >DISCONNECT | pass 5 events
C23, client: the connection is closed | client OPEN >CONNECT <CONNACK >DISCONNECT CLOSE OPEN >CONNECT REST | pass 8 events
C23, client: refused by the server | client OPEN >CONNECT <CONNACK-REFUSED REST | pass 4 events
C23, server: at rest after its DISCONNECT | server OPEN <CONNECT-NAMED >CONNACK >DISCONNECT REST | fault 5 C23 MQTT-3.14.4-2,MQTT-3.2.2-7 decided 5 record 5 offset -; fail 1 faults 5 events
C23, server: before it | server OPEN <CONNECT-NAMED >CONNACK REST >DISCONNECT | pass 5 events
C23, server: at rest after a CONNACK that refuses | server OPEN <CONNECT-NAMED >CONNACK-REFUSED REST | fault 4 C23 MQTT-3.14.4-2,MQTT-3.2.2-7 decided 4 record 4 offset -; fail 1 faults 4 events
C23, server: after one that accepts | server OPEN <CONNECT-NAMED >CONNACK REST | pass 4 events";
