// The limits by number: who changes one changes the protocol.
use crate::configs::{MAX_TENANTS, MAX_WORKERS};
use crate::instructions::{GROUPS, KEYS, REGISTERS};
use crate::jobs::MAX_FUEL;
use crate::names::MAX_NAME;
use crate::programs::{MAX_INSTRS, MAX_PROCS};
use crate::tenants::{MAX_ROWS, MAX_SLOTS, MAX_STEPS};

const _: () = prove!(REGISTERS == 8 && GROUPS == 4 && KEYS == 8);

const _: () = prove!(MAX_PROCS == 16 && MAX_INSTRS == 256 && MAX_FUEL == 1_000_000);

const _: () = prove!(
    MAX_NAME == 32 && MAX_SLOTS == 16 && MAX_ROWS == 4_096 && MAX_STEPS == 1_048_576
);

const _: () = prove!(MAX_TENANTS == 64 && MAX_WORKERS == 32);
