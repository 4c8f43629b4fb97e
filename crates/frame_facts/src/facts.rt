//! Facts: what is known of registers and stack at a place, and what two facts have in common. docs/rules/acceptance.md, "Facts".
ghost use Rattle.std.specs.Prelude.{◌≡◌, ℕ, ◌+◌, ◌-◌, ◌*◌, ◌<◌, ◌≤◌, ◌^◌, ◌==◌, ℤ, pos, ◌+ℤ◌, ◌-ℤ◌, length, IsTrue, ◌↔◌, false};
ghost use Rattle.std.specs.Option.{option_map_or};
ghost use Rattle.thumb_core.specs.Words.{registers_of_list};
ghost use Rattle.frame_facts.specs.Facts.{source, with_source, entry_fact, bounded_depth, sp_at, sp_plus, offset_source, is_entry, forget_register, forget_registers, met_source, met_sources, same_source, same_sources, same_fact, join_of};

/// The largest known depth of a frame, and distance of an address in a register from the CFA, in bytes.
pub const DEEPEST: u32 = 65_536;

/// What is known of a register's value.
#[derive(Clone, Copy, PartialEq, Eq)]
pub enum Source {
    /// The value that the register with this number had at the function's entry.
    Entry(u8),
    /// The address this many bytes below the CFA (sp at the entry).
    SpAt(u32),
    /// Nothing is known.
    Other,
}

/// What is known of registers and stack at a place of a function.
#[derive(Clone, Copy)]
pub struct Fact {
    /// How many bytes sp lies below the CFA; at least so many if `below` is true.
    pub depth: u32,
    /// Whether sp may lie deeper than `depth`.
    pub below: bool,
    /// How many of the prologue's saves are still on the stack: the first ones, with an offset of at most `depth`.
    pub kept: u32,
    /// The values of r0 to r12, and then of lr.
    pub regs: [Source; 14],
}

/// The fact at a function's entry: nothing is on the stack, and each register has its own value.
pub fn entry_fact() -> Fact
    ensures { result ≡ entry_fact }
{
    Fact {
        depth: 0,
        below: false,
        kept: 0,
        regs: [
            Source::Entry(0),
            Source::Entry(1),
            Source::Entry(2),
            Source::Entry(3),
            Source::Entry(4),
            Source::Entry(5),
            Source::Entry(6),
            Source::Entry(7),
            Source::Entry(8),
            Source::Entry(9),
            Source::Entry(10),
            Source::Entry(11),
            Source::Entry(12),
            Source::Entry(14),
        ],
    }
}

/// The depth as a number of bytes; None if it is outside 0 to `DEEPEST`.
pub(crate) fn bounded_depth(depth: i64) -> Option<u32>
    ensures { result ≡ bounded_depth depth }
{
    if 0 <= depth && depth <= i64::from(DEEPEST) {
        Some(depth as u32)
    } else {
        None
    }
}

/// The address `offset` bytes below the CFA; `Other` if that is outside 0 to `DEEPEST`.
pub(crate) fn sp_at(offset: i64) -> Source
    ensures { result ≡ sp_at offset }
{
    match bounded_depth(offset) {
        Some(offset) => Source::SpAt(offset),
        None => Source::Other,
    }
}

impl Source {
    /// The value after adding `by` bytes, or subtracting them if `sub`.
    pub(crate) fn offset_source(self, sub: bool, by: u32) -> Source
        ensures { result ≡ offset_source sub by self }
    {
        match self {
            Source::SpAt(offset) => {
                if sub {
                    sp_at(i64::from(offset) + i64::from(by))
                } else {
                    sp_at(i64::from(offset) - i64::from(by))
                }
            }
            Source::Entry(_) | Source::Other => Source::Other,
        }
    }

    /// Whether it is the value that register `reg` had at the entry.
    pub(crate) fn is_entry(self, reg: u8) -> bool
        ensures { result ≡ is_entry reg self }
    {
        match self {
            Source::Entry(k) => k == reg,
            Source::SpAt(_) | Source::Other => false,
        }
    }

    /// What two paths have in common: the source if both have the same, else `Other`.
    fn meet(self, other: Source) -> Source
        ensures { result ≡ met_source self other }
    {
        if self == other { self } else { Source::Other }
    }

    fn is_same(self, other: Source) -> bool
        ensures { result ≡ same_source self other }
    {
        self == other
    }

    /// Whether `self` is what the two have in common.
    fn is_common(self, other: Source) -> bool
        ensures { result ≡ same_source (met_source self other) self }
    {
        self == other || self == Source::Other
    }
}

impl Fact {
    /// What is known of a register; `Other` for sp and pc.
    pub(crate) fn source(&self, reg: u8) -> Source
        ensures { result ≡ source self.now reg }
    {
        if reg < 13 {
            self.regs[reg as usize]
        } else if reg == 14 {
            self.regs[13]
        } else {
            Source::Other
        }
    }

    /// Sets what is known of a register.
    pub(crate) fn set(&mut self, reg: u8, source: Source)
        ensures { self.new ≡ with_source self.old reg source }
    {
        if reg < 13 {
            self.regs[reg as usize] = source;
        } else if reg == 14 {
            self.regs[13] = source;
        }
    }

    /// Forgets what is known of a register.
    pub(crate) fn forget_register(&mut self, reg: u8)
        ensures { self.new ≡ forget_register reg self.old }
    {
        self.set(reg, Source::Other);
    }

    /// The address `offset` bytes above sp; `Other` if it isn't known.
    pub(crate) fn sp_plus(&self, offset: i32) -> Source
        ensures { result ≡ sp_plus self.now offset }
    {
        if self.below {
            Source::Other
        } else {
            sp_at(i64::from(self.depth) - i64::from(offset))
        }
    }
}

/// The fact without what it knows of the registers of a list; bit k means register k.
pub fn clobber(fact: &Fact, list: u16) -> Fact
    ensures { result ≡ forget_registers (registers_of_list list) fact.now }
{
    let mut left = *fact;
    for k in 0..16u8 {
        if (list >> k) & 1 == 1 {
            left.forget_register(k);
        }
    }
    left
}

fn are_alike(a: &[Source; 14], b: &[Source; 14]) -> bool
    ensures { result ≡ same_sources a.now b.now }
{
    for k in 0..14 {
        if !a[k].is_same(b[k]) {
            return false;
        }
    }
    true
}

/// Whether two facts are equal.
pub fn is_same(a: &Fact, b: &Fact) -> bool
    ensures { result ≡ same_fact a.now b.now }
{
    a.depth == b.depth && a.below == b.below && a.kept == b.kept && are_alike(&a.regs, &b.regs)
}

/// Whether what two paths know of the registers in common is what `held` knows.
fn are_common(held: &[Source; 14], other: &[Source; 14]) -> bool
    ensures { result ≡ same_sources (met_sources held.now other.now) held.now }
{
    for k in 0..14 {
        if !held[k].is_common(other[k]) {
            return false;
        }
    }
    true
}

/// Whether what two paths to a place have in common is the fact `held`. Copies neither.
pub fn is_meeting(held: &Fact, other: &Fact) -> bool
    ensures { result ≡ option_map_or (λ met. same_fact met held.now) (join_of held.now other.now) false }
{
    if held.depth != other.depth {
        return false;
    }
    if other.below && !held.below {
        return false;
    }
    if held.kept > other.kept {
        return false;
    }
    are_common(&held.regs, &other.regs)
}

/// The meeting of two facts: what two paths to a place have in common. None if and only if their depths differ.
pub fn join(a: &Fact, b: &Fact) -> Option<Fact>
    ensures { result ≡ join_of a.now b.now }
{
    if a.depth != b.depth {
        return None;
    }
    let mut regs = a.regs;
    for k in 0..14 {
        regs[k] = regs[k].meet(b.regs[k]);
    }
    Some(Fact {
        depth: a.depth,
        below: a.below || b.below,
        kept: a.kept.min(b.kept),
        regs,
    })
}
