use bus_law::{Answerer, BusIn, BusOut, Mem};
use std::alloc::{AllocError, Global};

const BASE: u32 = 0x80000000;

const WINDOW: u32 = 0xf0000000;

/// Two words, 00500093 and 44332211.
fn memory(alloc: Global) -> Result<Mem, AllocError> {
    let mut mem = Mem::new(alloc, BASE, 8)?;
    mem.fill(&[0x93, 0x00, 0x50, 0x00, 0x11, 0x22, 0x33, 0x44]);
    Ok(mem)
}

/// Addresses, and the words there.
const WORDS: &[(u32, Option<u32>)] = &[
    (0x80000000, Some(0x00500093)),
    (0x80000006, Some(0x44332211)),
    (0x7ffffffc, None),
    (0x80000008, None),
    (0xf0000000, None),
];

fn are_there(mem: &Mem) -> bool {
    for (addr, word) in WORDS {
        if mem.word_at(*addr) != *word {
            return false;
        }
    }
    true
}

/// The address and the mask of a write of aabbccdd, whether it is taken, and the second word behind it.
const WRITES: &[(u32, u32, bool, u32)] = &[
    (0x80000004, 15, true, 0xaabbccdd),
    (0x80000004, 2, true, 0x4433cc11),
    (0x80000004, 12, true, 0xaabb2211),
    (0x80000004, 0, true, 0x44332211),
    (0x80000008, 15, false, 0x44332211),
    (0xf000000c, 15, true, 0x44332211),
    (0xf0000010, 15, false, 0x44332211),
];

/// Whether a write is taken as wanted, and leaves these words.
fn writes(mut mem: Mem, addr: u32, mask: u32, taken: bool, word: u32) -> bool {
    let is_taken = mem.apply(addr, 0xaabbccdd, mask);
    is_taken == taken
        && mem.word_at(BASE) == Some(0x00500093)
        && mem.word_at(BASE + 4) == Some(word)
}

/// Whether the words of a memory are read and written as they are to be.
pub fn words_are_right(alloc: Global) -> Result<bool, AllocError> {
    for (addr, mask, taken, word) in WRITES {
        if !writes(memory(alloc)?, *addr, *mask, *taken, *word) {
            return Ok(false);
        }
    }
    Ok(are_there(&memory(alloc)?))
}

/// A core that gives no command.
const IDLE: BusOut = BusOut {
    ib_cmd_valid: false,
    ib_cmd_addr: 0,
    db_cmd_valid: false,
    db_cmd_write: false,
    db_cmd_addr: 0,
    db_cmd_data: 0,
    db_cmd_mask: 0,
};

/// A fetch and a write of the second word.
const FETCH_AND_WRITE: BusOut = BusOut {
    ib_cmd_valid: true,
    ib_cmd_addr: BASE + 4,
    db_cmd_valid: true,
    db_cmd_write: true,
    db_cmd_addr: BASE + 4,
    db_cmd_data: 0xaabbccdd,
    db_cmd_mask: 2,
};

/// The fetch alone.
const FETCH: BusOut = BusOut {
    db_cmd_valid: false,
    ..FETCH_AND_WRITE
};

/// A fetch and a read of the window.
const WINDOW_TWICE: BusOut = BusOut {
    ib_cmd_valid: true,
    ib_cmd_addr: WINDOW,
    db_cmd_valid: true,
    db_cmd_write: false,
    db_cmd_addr: WINDOW,
    db_cmd_data: 0,
    db_cmd_mask: 0,
};

/// The fetch alone.
const FETCH_WINDOW: BusOut = BusOut {
    db_cmd_valid: false,
    ..WINDOW_TWICE
};

/// The read alone.
const READ_WINDOW: BusOut = BusOut {
    ib_cmd_valid: false,
    ..WINDOW_TWICE
};

/// Buses that drive nothing.
const QUIET: BusIn = BusIn {
    ib_cmd_ready: false,
    ib_rsp_valid: false,
    ib_rsp_error: false,
    ib_rsp_data: 0,
    db_cmd_ready: false,
    db_rsp_valid: false,
    db_rsp_error: false,
    db_rsp_data: 0,
};

/// What the buses drive in each cycle, and the core's answer. With delays 0 and 2 the first command waits for no cycle
/// and the second for two, of which one is put off on the data bus; the third has the first delay again.
const CYCLES: &[(BusIn, BusOut)] = &[
    (QUIET, FETCH_AND_WRITE),
    (
        BusIn {
            ib_cmd_ready: true,
            db_cmd_ready: true,
            ..QUIET
        },
        FETCH_AND_WRITE,
    ),
    (
        BusIn {
            ib_rsp_valid: true,
            ib_rsp_data: 0x44332211,
            db_rsp_valid: true,
            ..QUIET
        },
        IDLE,
    ),
    (QUIET, WINDOW_TWICE),
    (QUIET, FETCH_WINDOW),
    (
        BusIn {
            ib_cmd_ready: true,
            ..QUIET
        },
        WINDOW_TWICE,
    ),
    (
        BusIn {
            db_cmd_ready: true,
            ..QUIET
        },
        READ_WINDOW,
    ),
    (QUIET, IDLE),
    (
        BusIn {
            ib_rsp_valid: true,
            ib_rsp_error: true,
            ..QUIET
        },
        IDLE,
    ),
    (
        BusIn {
            ib_cmd_ready: true,
            db_rsp_valid: true,
            ..QUIET
        },
        FETCH,
    ),
    (
        BusIn {
            ib_rsp_valid: true,
            ib_rsp_data: 0x4433cc11,
            db_cmd_ready: true,
            ..QUIET
        },
        IDLE,
    ),
];

fn drive_so(mut buses: Answerer) -> bool {
    for (driven, out) in CYCLES {
        if buses.drive() != *driven {
            return false;
        }
        buses.step(*out);
    }
    true
}

/// Whether the buses answer each cycle as they are to.
pub fn cycles_are_right(alloc: Global) -> Result<bool, AllocError> {
    let delays = vec![in alloc; 0, 2]?;
    Ok(drive_so(Answerer::new(memory(alloc)?, delays)))
}
