//! Every function of an image that is rejected, and the counts of an audit (docs/guide/audit.md). The checker itself stops at the first
//! rejected function.
#![tactic(auto)]

pub mod code;
pub mod counts;
pub mod functions;
pub mod image_audit;
pub mod laws;

pub use counts::{CAUSES, Question};
pub use functions::{AuditMemory, FrameFinding, FunctionAudit};
pub use image_audit::{Audit, AuditFault, audit_image};
