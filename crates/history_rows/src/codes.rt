//! Status codes, by their numbers.

use ua_binary::Status;

pub const GOOD: Status = Status(0);

pub const INSERTED: Status = Status(0x00A2_0000);

pub const REPLACED: Status = Status(0x00A3_0000);

pub const OUT_OF_MEMORY: Status = Status(0x8003_0000);

pub const UNAVAILABLE: Status = Status(0x8004_0000);

pub const TOO_LARGE: Status = Status(0x8008_0000);

pub const NOTHING_TO_DO: Status = Status(0x800F_0000);

pub const TOO_MANY: Status = Status(0x8010_0000);

pub const BAD_TIME: Status = Status(0x8023_0000);

pub const BAD_OPERATION: Status = Status(0x8071_0000);

pub const OTHER_TYPE: Status = Status(0x8074_0000);

pub const EXISTS: Status = Status(0x809F_0000);

pub const NONE_EXISTS: Status = Status(0x80A0_0000);
