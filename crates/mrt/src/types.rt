//! The types and subtypes of the records that are read and written (RFC 6396, 4.4; RFC 8050, 3).

/// Type BGP4MP (RFC 6396, 4.4).
pub const BGP4MP: u16 = 16;

/// Type BGP4MP_ET: with the microseconds of the record's time (RFC 6396, 4.5).
pub const BGP4MP_ET: u16 = 17;

/// Subtype of a change of state, with AS numbers of two octets.
pub const STATE_CHANGE: u16 = 0;

/// Subtype of a received message.
pub const MESSAGE: u16 = 1;

/// Subtype of a received message, with AS numbers of four octets, as all subtypes with AS4 have.
pub const MESSAGE_AS4: u16 = 4;

/// Subtype of a change of state.
pub const STATE_CHANGE_AS4: u16 = 5;

/// Subtype of a sent message.
pub const MESSAGE_LOCAL: u16 = 6;

/// Subtype of a sent message.
pub const MESSAGE_AS4_LOCAL: u16 = 7;

/// Subtype of a received message with ADD-PATH (RFC 8050, 3).
pub const MESSAGE_ADDPATH: u16 = 8;

/// Subtype of a received message with ADD-PATH.
pub const MESSAGE_AS4_ADDPATH: u16 = 9;

/// Subtype of a sent message with ADD-PATH.
pub const MESSAGE_LOCAL_ADDPATH: u16 = 10;

/// Subtype of a sent message with ADD-PATH.
pub const MESSAGE_AS4_LOCAL_ADDPATH: u16 = 11;
