// Where each field of a header stands (RULES.md, Header bytes).
use fields::Field;

pub const SALT: Field = Field {
    offset: 0,
    size: 64,
};

pub const MAGIC: Field = Field {
    offset: 64,
    size: 4,
};

pub const VERSION: Field = Field {
    offset: 68,
    size: 2,
};

pub const MIN_PROGRAM_VERSION: Field = Field {
    offset: 70,
    size: 2,
};

pub const KEY_CHECKSUM: Field = Field {
    offset: 72,
    size: 4,
};

pub const RESERVED: Field = Field {
    offset: 76,
    size: 16,
};

pub const HIDDEN_SIZE: Field = Field {
    offset: 92,
    size: 8,
};

pub const DATA_SIZE: Field = Field {
    offset: 100,
    size: 8,
};

pub const DATA_START: Field = Field {
    offset: 108,
    size: 8,
};

pub const ENCRYPTED_SIZE: Field = Field {
    offset: 116,
    size: 8,
};

pub const FLAGS: Field = Field {
    offset: 124,
    size: 4,
};

pub const SECTOR_SIZE: Field = Field {
    offset: 128,
    size: 4,
};

pub const MORE_RESERVED: Field = Field {
    offset: 132,
    size: 120,
};

pub const HEADER_CHECKSUM: Field = Field {
    offset: 252,
    size: 4,
};

pub const KEYS: Field = Field {
    offset: 256,
    size: 256,
};

// What the header checksum is of: from the magic up to that checksum.
pub const CHECKED: Field = Field {
    offset: MAGIC.offset,
    size: HEADER_CHECKSUM.offset - MAGIC.offset,
};
