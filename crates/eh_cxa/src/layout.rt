//! Where a slot lies in the pool, and its words in the slot: docs/rules/phases-and-exceptions.md. The control block's words are those of IHI 0038.

use eh_bus::map::{CLOSED_SIZE, POOL_SIZE, SLOT_SIZE};

/// The number of slots of the pool; they lie one after the other.
pub const SLOTS: u32 = POOL_SIZE / SLOT_SIZE;

/// The size of a slot, in words.
pub const SLOT_WORDS: u32 = SLOT_SIZE / 4;

/// The size of a slot's header and control block, in words. They come before the object, and the guest can't access them.
pub const CLOSED_WORDS: u32 = CLOSED_SIZE / 4;

/// Offset of the control block in a slot, in bytes; the header comes before it.
pub const BLOCK: u32 = 40;

/// Offset of the object in a slot, in bytes.
pub const OBJECT: u32 = CLOSED_SIZE;

/// The size of the largest object, in bytes.
pub const OBJECT_BYTES: u32 = SLOT_SIZE - OBJECT;

// ---- the header, as words of the slot

/// Word of the slot's state: see `state`.
pub const STATE: u32 = 0;

/// Word of the object's size in bytes.
pub const SIZE: u32 = 1;

/// Word of the address of the object's type information.
pub const TYPE: u32 = 2;

/// Word of the destructor's address, 0 for none.
pub const DESTRUCTOR: u32 = 3;

/// Word of the handler count, signed: how many handlers have the exception, negative after a rethrow.
pub const COUNT: u32 = 4;

/// Word of the address of the next control block down the caught stack, 0 for none.
pub const NEXT_CAUGHT: u32 = 5;

// ---- the control block, as words of the slot

/// First word of the exception class: the bytes `EHABIRT` and a zero byte.
pub const CLASS: u32 = 10;

/// Word of the stack pointer of the barrier's frame; words 0 to 4 of the barrier cache come after it.
pub const BARRIER_SP: u32 = 18;

/// Word of the address that a handler is given: the object, converted to the handler's type.
pub const BARRIER_OBJECT: u32 = 19;

/// Word of the address of the barrier's descriptor.
pub const BARRIER_DESCRIPTOR: u32 = 20;

/// Word of the pointer that a handler of a pointer type is given; the guest may load it.
pub const BARRIER_POINTER: u32 = 21;

/// Word 3 of the barrier cache.
pub const BARRIER_WORD_3: u32 = 22;

/// Word 4 of the barrier cache.
pub const BARRIER_WORD_4: u32 = 23;

/// Word of the address of the descriptor at which the throw resumes after the cleanup in progress.
pub const CLEANUP_NEXT: u32 = 24;

/// Word of the `sp` with which the cleanup in progress was entered.
pub const CLEANUP_SP: u32 = 25;

/// Word of the site of the cleanup in progress: the address of the call in whose scope it lies.
pub const CLEANUP_SITE: u32 = 26;

/// Word of the address of the control block of the next outer cleanup in progress, 0 for none.
pub const NEXT_CLEANUP: u32 = 27;

/// The first word of the exception class (its first four bytes, little-endian).
pub const CLASS_LOW: u32 = 0x4241_4845;

/// The second word of the exception class.
pub const CLASS_HIGH: u32 = 0x0054_5249;

// ---- counts, as words

/// The smallest word that means a negative count.
pub const BELOW_ZERO: u32 = 0x8000_0000;

/// The word of the count -1.
pub const MINUS_ONE: u32 = 0xffff_ffff;

/// The largest count.
pub const MOST_COUNT: u32 = 0x7fff_ffff;
