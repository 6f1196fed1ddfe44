//! The numbers of the refusals that the machine and cores files answer with (`docs/FAULTS.md`). What the layers below
//! refuse has an enum of its own in each crate, with the same numbers.

/// E32: a number of slots that the link can't have.
pub const BAD_SIZE: u8 = 32;

/// E41: the interface has no such message.
pub const NO_SUCH_MESSAGE: u8 = 41;

/// E42: the arguments don't fit the message's types, or the two messages of a rule have different ones.
pub const DOES_NOT_FIT: u8 = 42;

/// E43: the end isn't bound yet, or its opening was refused.
pub const NOT_BOUND: u8 = 43;

/// E44: a call where rules answer, a rule where calls are made, or rules at both ends of a binding.
pub const CALLS_AND_RULES: u8 = 44;

/// E54: over 1,024 channels of a dispatcher.
pub const TOO_MANY_CHANNELS: u8 = 54;

/// E70: no service of this name.
pub const NO_SUCH_SERVICE: u8 = 70;

/// E71: the service's name is taken.
pub const SERVICE_TAKEN: u8 = 71;

/// E72: the service is of another interface.
pub const OTHER_INTERFACE: u8 = 72;

/// E73: no such core, link or route.
pub const NO_SUCH_ROUTE: u8 = 73;

/// E74: a core has opened all the circuits that a link numbers.
pub const NUMBERS_USED_UP: u8 = 74;

/// E90: a line that can't be read, or a command that isn't there.
pub const UNREAD: u8 = 90;

/// E91: a script or cores file that is too long.
pub const TEXT_TOO_LONG: u8 = 91;

/// E92: a name that isn't there, or one that is taken.
pub const WRONG_NAME: u8 = 92;

/// E93: the number of cores comes too late, or an event is not of a set-up.
pub const NOT_NOW: u8 = 93;

/// E94: a number of cores that can't be, or one thing more than there may be of its kind.
pub const TOO_MANY: u8 = 94;
