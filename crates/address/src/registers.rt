// Every register that the code knows of, by name, as the papers give it: its page, its first address and its last. Lower memory, 0 to
// 127, is the same on every page, and has page 0 here. Plain numbers, as the papers print them: what is made of them are addresses, pages and places
// (held.rt).
ghost use Rattle.std.specs.Prelude.{◌<◌, ◌≤◌};

#[derive(Clone, Copy, Debug, PartialEq, Eq)]
pub struct Register {
    pub(crate) page: u8,
    pub(crate) first: u8,
    pub(crate) last: u8,
    ghost there: { page < 4 },
    ghost in_order: { first ≤ last },
}

// ---- lower memory

pub const LOWER: Register = Register {
    page: 0,
    first: 0,
    last: 127,
};

// Bit 2 flat memory, bit 1 the level of the port's IntL pin, bit 0 Data_Not_Ready.
pub const STATUS: Register = Register {
    page: 0,
    first: 2,
    last: 2,
};

// Each port's own.
pub const FLAGS: Register = Register {
    page: 0,
    first: 3,
    last: 14,
};

// What the quantities are stored in: temperature, supply, then Rx power, Tx bias and Tx power, four channels each, one after the other.
pub const MONITORS: Register = Register {
    page: 0,
    first: 22,
    last: 57,
};

pub const TEMPERATURE: Register = Register {
    page: 0,
    first: 22,
    last: 23,
};

pub const SUPPLY: Register = Register {
    page: 0,
    first: 26,
    last: 27,
};

pub const RX_POWER: Register = Register {
    page: 0,
    first: 34,
    last: 41,
};

pub const TX_BIAS: Register = Register {
    page: 0,
    first: 42,
    last: 49,
};

pub const TX_POWER: Register = Register {
    page: 0,
    first: 50,
    last: 57,
};

// Controls that both ports see and the operator alone writes.
pub const TX_DISABLE: Register = Register {
    page: 0,
    first: 86,
    last: 86,
};

pub const RATE_SELECT: Register = Register {
    page: 0,
    first: 87,
    last: 88,
};

pub const POWER: Register = Register {
    page: 0,
    first: 93,
    last: 93,
};

pub const CDR: Register = Register {
    page: 0,
    first: 98,
    last: 98,
};

// Each port's own.
pub const LOW_MASKS: Register = Register {
    page: 0,
    first: 100,
    last: 104,
};

// No place: they read 0.
pub const BLANKS: Register = Register {
    page: 0,
    first: 119,
    last: 126,
};

// Each port's own: the selected page.
pub const SELECT: Register = Register {
    page: 0,
    first: 127,
    last: 127,
};

// ---- page 00h

pub const PAGE_00: Register = Register {
    page: 0,
    first: 128,
    last: 255,
};

// Two runs that are summed, each with its check code behind it.
pub const BASE: Register = Register {
    page: 0,
    first: 128,
    last: 190,
};

pub const BASE_CODE: Register = Register {
    page: 0,
    first: 191,
    last: 191,
};

pub const EXTENDED: Register = Register {
    page: 0,
    first: 192,
    last: 222,
};

pub const EXTENDED_CODE: Register = Register {
    page: 0,
    first: 223,
    last: 223,
};

pub const VENDOR_NAME: Register = Register {
    page: 0,
    first: 148,
    last: 163,
};

pub const VENDOR_OUI: Register = Register {
    page: 0,
    first: 165,
    last: 167,
};

pub const PART_NUMBER: Register = Register {
    page: 0,
    first: 168,
    last: 183,
};

pub const REVISION: Register = Register {
    page: 0,
    first: 184,
    last: 185,
};

// Bit 7: page 02h is there; bit 6: page 01h.
pub const PAGES_OFFERED: Register = Register {
    page: 0,
    first: 195,
    last: 195,
};

pub const SERIAL_NUMBER: Register = Register {
    page: 0,
    first: 196,
    last: 211,
};

pub const DATE_CODE: Register = Register {
    page: 0,
    first: 212,
    last: 219,
};

// Bit 2: Tx power is measured.
pub const MONITORS_OFFERED: Register = Register {
    page: 0,
    first: 220,
    last: 220,
};

// ---- page 02h: the operator's own EEPROM

pub const PAGE_02: Register = Register {
    page: 2,
    first: 128,
    last: 255,
};

// ---- page 03h

// Thresholds: high alarm, low alarm, high warning, low warning, two bytes each.
pub const TEMPERATURE_LIMITS: Register = Register {
    page: 3,
    first: 128,
    last: 135,
};

pub const SUPPLY_LIMITS: Register = Register {
    page: 3,
    first: 144,
    last: 151,
};

pub const RX_POWER_LIMITS: Register = Register {
    page: 3,
    first: 176,
    last: 183,
};

pub const TX_BIAS_LIMITS: Register = Register {
    page: 3,
    first: 184,
    last: 191,
};

pub const TX_POWER_LIMITS: Register = Register {
    page: 3,
    first: 192,
    last: 199,
};

// Equaliser, emphasis and amplitude codes, squelch and disable: shared, as the controls above.
pub const CHANNEL_CONTROLS: Register = Register {
    page: 3,
    first: 234,
    last: 241,
};

// Each port's own.
pub const HIGH_MASKS: Register = Register {
    page: 3,
    first: 242,
    last: 247,
};
