//! The exit statuses of the programs (docs/guide/command-line.md).

/// Success: the guest exits with 0, `build` wrote the image, `check` accepts it, `walk` wrote the frames, or an audit lists nothing.
pub const DONE: u8 = 0;
/// The guest exits with another number.
pub const EXIT_NONZERO: u8 = 1;
/// The words form no command.
pub const USAGE: u8 = 2;
/// The contents of the files, or a forced unwinding, are refused, and the line says why; or an audit lists something.
pub const REFUSED: u8 = 3;
/// The run ends by terminate.
pub const TERMINATED: u8 = 4;
/// The run ends by a trap.
pub const TRAPPED: u8 = 5;
/// The run ends because its budget is spent.
pub const BUDGET_SPENT: u8 = 6;
/// A read of a file or of the input failed.
pub const READ_FAILED: u8 = 7;
/// A write of the output failed.
pub const WRITE_FAILED: u8 = 8;
/// There was no memory.
pub const NO_MEMORY: u8 = 9;
/// A named file is missing or too long.
pub const FILE_UNAVAILABLE: u8 = 10;
