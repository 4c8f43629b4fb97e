//! The constants of the memory map: the addresses of the stack, the pool and the image, and the closed part of a pool
//! slot (docs/rules/memory.md). Addresses and sizes are in bytes.

/// The first address of the stack.
pub const STACK_START: u32 = 0x3FFF_0000;

/// The size of the stack.
pub const STACK_SIZE: u32 = 0x1_0000;

/// The address after the stack.
pub const STACK_END: u32 = STACK_START + STACK_SIZE;

/// The number of words of the stack.
pub const STACK_WORDS: usize = STACK_SIZE as usize / 4;

/// The first address of the pool of exception objects.
pub const POOL_START: u32 = 0x3800_0000;

/// The size of the pool.
pub const POOL_SIZE: u32 = 0x8000;

/// The address after the pool.
pub const POOL_END: u32 = POOL_START + POOL_SIZE;

/// The size of a pool slot.
pub const SLOT_SIZE: u32 = 512;

/// How many bytes at the start of a slot are closed to the guest.
pub const CLOSED_SIZE: u32 = 128;

/// The offset in its slot of the only word of the closed part that the guest may load.
pub const OPEN_WORD: u32 = 84;

/// The highest address at which a segment of an image may end.
pub const IMAGE_END: u32 = 0x3000_0000;

/// The most bytes that all segments of an image may have together.
pub const MAX_IMAGE_SIZE: u32 = 1_048_576;

/// The size of a page.
pub const PAGE_SIZE: u32 = 4096;

/// The number of pages below the end of the stack.
pub const PAGE_COUNT: u32 = STACK_END / PAGE_SIZE;
