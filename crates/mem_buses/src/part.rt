//! The segments of a memory in pages: their addresses and rights. Their bytes are in the pages.
ghost use Rattle.std.specs.Prelude.{◌≡◌, ◌+◌, ◌-◌, ◌≤◌};
ghost use Rattle.mem_buses.specs.Pages.{part_holds, spans};

/// A segment without its bytes.
#[derive(Clone, Copy)]
pub(crate) struct SegmentInfo {
    /// The address of the first byte.
    pub(crate) start: u32,
    /// The size in bytes.
    pub(crate) size: u32,
    /// Whether it is writable.
    pub(crate) write: bool,
    /// Whether it is executable.
    pub(crate) exec: bool,
}

impl SegmentInfo {
    /// Whether the `n` bytes from `a` on all lie here.
    pub(crate) fn covers(&self, a: u32, n: u32) -> bool
        ensures { result ≡ part_holds self.now a n }
    {
        self.start <= a && u64::from(a - self.start) + u64::from(n) <= u64::from(self.size)
    }
}

/// A run of addresses of a segment whose bytes are contiguous among those of the pages.
#[derive(Clone, Copy)]
pub(crate) struct CellRun {
    /// The number of the segment.
    pub(crate) part: usize,
    /// The address of the first byte.
    pub(crate) start: u32,
    /// The number of addresses.
    pub(crate) size: u32,
    /// The cell of the first byte.
    pub(crate) at: u32,
}

impl CellRun {
    /// Whether the `n` bytes from `a` on all lie here.
    pub(crate) fn covers(&self, a: u32, n: u32) -> bool
        ensures { result ≡ spans self.now a n }
    {
        self.start <= a && u64::from(a - self.start) + u64::from(n) <= u64::from(self.size)
    }

    /// The cell of the byte at `a`.
    pub(crate) fn cell(&self, a: u32) -> usize
        requires { self.now.start ≤ a }
        ensures { result ≡ self.now.at + (a - self.now.start) }
    {
        self.at as usize + (a - self.start) as usize
    }
}
