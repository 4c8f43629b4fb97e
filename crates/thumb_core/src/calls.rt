//! The registers that calls and SVCs may change, as masks with bit k for register k (Procedure Call Standard for the
//! Arm Architecture, IHI 0042).

/// The registers that a call may change: r0 to r3, r12 and lr.
pub const CALL_CHANGES: u16 = 0x500F;
/// The registers that a gate (an SVC that the runtime handles) may change: r0 to r3 and r12.
pub const GATE_CHANGES: u16 = 0x100F;
