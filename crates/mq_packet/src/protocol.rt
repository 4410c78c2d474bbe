//! The protocol's name and version, and the flags of a CONNECT and a PUBLISH. Reading and writing
//! share them.

/// The protocol's name (MQTT 5.0, section 3.1.2.1).
pub const PROTOCOL_NAME: &str = "MQTT";

/// The protocol's version (MQTT 5.0, section 3.1.2.2).
pub const PROTOCOL_VERSION: u8 = 5;

/// The Connect Flag that is reserved (MQTT 5.0, section 3.1.2.3).
pub const RESERVED: u8 = 0x01;

/// The Connect Flag Clean Start (MQTT 5.0, section 3.1.2.4).
pub const CLEAN_START: u8 = 0x02;

/// The Will Flag (MQTT 5.0, section 3.1.2.5).
pub const WILL: u8 = 0x04;

/// The two bits of the Will QoS (MQTT 5.0, section 3.1.2.6).
pub const WILL_QOS: u8 = 0x18;

/// The Will QoS 1.
pub const WILL_QOS_ONE: u8 = 0x08;

/// The Connect Flag Will Retain (MQTT 5.0, section 3.1.2.7).
pub const WILL_RETAIN: u8 = 0x20;

/// The Password Flag (MQTT 5.0, section 3.1.2.9).
pub const PASSWORD: u8 = 0x40;

/// The User Name Flag (MQTT 5.0, section 3.1.2.8).
pub const USER_NAME: u8 = 0x80;

/// The flag DUP (MQTT 5.0, section 3.3.1.1).
pub const DUP: u8 = 0x08;

/// The two bits of the QoS (MQTT 5.0, section 3.3.1.2).
pub const QOS: u8 = 0x06;

/// QoS 1.
pub const QOS_ONE: u8 = 0x02;

/// QoS 2.
pub const QOS_TWO: u8 = 0x04;

/// The flag RETAIN (MQTT 5.0, section 3.3.1.3).
pub const RETAIN: u8 = 0x01;
