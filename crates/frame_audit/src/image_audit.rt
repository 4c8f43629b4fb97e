//! The audit of an image (docs/guide/audit.md).
ghost use Rattle.std.specs.Prelude.{◌≡◌, ◌↔◌, IfOk, IfErr, IfSome, None, Some, true};
ghost use Rattle.std.specs.List.{count_by};
ghost use Rattle.eh_index.specs.Refusal.{index_refusal};
ghost use Rattle.frame_check.specs.Accepts.{IsAccepted};
ghost use Rattle.frame_audit.specs.Audits.{AreTypes, IsAudit, IsUnread, are_well, is_clear};
ghost use Rattle.frame_audit.specs.Counts.{is_counted};
ghost use Rattle.frame_audit.specs.declared.image_audit.AuditFault.TheVariants.{OutOfMemory};

use crate::code::stray_bytes;
use crate::counts::{Question, count};
use crate::functions::{AuditMemory, FunctionAudit, audit_functions};
use eh_index::{Index, IndexFault};
use eh_types::TypeFault;
use elf_image::Image;
use frame_check::{CheckFault, types_of};
use run_images::profile::profile_of;
use std::alloc::Global;
use std::marker::Model;
use thiserror::Error;

/// The audit of an image whose index table was read.
#[derive(Drop)]
pub struct Audit<'a> {
    functions: Vec<FunctionAudit<'a>>,
    types: Option<TypeFault>,
    stray: u64,
}

impl<'a> Model for Audit<'a> {
    ghost use Rattle.frame_audit.specs.Audits.{Audit as Parts};

    ghost Value = { Parts };

    ghost view = { λ a. record { functions = a.functions.items; types = a.types; stray = a.stray } };
}

/// Why an image isn't audited.
#[derive(Clone, Copy, Debug, Error)]
pub enum AuditFault {
    /// Its index table can't be read.
    #[error("its exception index isn't read")]
    Index(IndexFault),
    /// An allocation failed; this tells nothing of the image.
    #[error("out of memory")]
    OutOfMemory,
}

impl From<AuditMemory> for AuditFault {
    ghost from_gives = { λ _ e. e ≡ OutOfMemory };

    fn from(_e: AuditMemory) -> AuditFault {
        AuditFault::OutOfMemory
    }
}

/// Whether all of these functions are accepted.
fn are_well(functions: &[FunctionAudit]) -> bool
    ensures { result ≡ are_well functions.now }
{
    for a in functions {
        if a.unwell.is_some() {
            return false;
        }
    }
    true
}

/// Why the types of an image have no graph; None if they have one.
fn types_fault(alloc: Global, index: &Index) -> Result<Option<TypeFault>, AuditMemory>
    ensures { IfOk result (AreTypes index.now) }
{
    match types_of(alloc, index) {
        Ok(_) => Ok(None),
        Err(CheckFault::Types(fault)) => Ok(Some(fault)),
        Err(CheckFault::OutOfMemory) => Err(AuditMemory::OutOfMemory),
        Err(CheckFault::Index(_) | CheckFault::Function(_)) => unreachable!(),
    }
}

/// Checks each function of an image, and its types even if functions are rejected. The index is read first, since everything depends on
/// it. The audit is clear if and only if the checker accepts the image.
#[tactic(auto, using(crate::proofs::Clear::clear_is_accepted))]
pub fn audit_image<'a>(alloc: Global, image: &Image<'a>) -> Result<Audit<'a>, AuditFault>
    ensures read { IfOk result (λ _. index_refusal image.now ≡ None) }
    ensures audit { IfOk result (IsAudit image.now) }
    ensures accepted { IfOk result (λ a. (is_clear a ≡ true) ↔ IsAccepted image.now) }
    ensures refused { IfErr result (IsUnread image.now) }
{
    match Index::read(image) {
        Err(fault) => Err(AuditFault::Index(fault)),
        Ok(index) => {
            let functions = audit_functions(alloc, &index, profile_of(image))?;
            let types = types_fault(alloc, &index)?;
            Ok(Audit {
                functions,
                types,
                stray: stray_bytes(image),
            })
        }
    }
}

impl<'a> Audit<'a> {
    /// The results for each function, in ascending order.
    pub fn functions(&self) -> &[FunctionAudit<'a>]
        ensures { result.now ≡ self.now.functions }
    {
        self.functions.as_slice()
    }

    /// Why the image's types have no graph; None if they have one.
    pub fn types(&self) -> Option<TypeFault>
        ensures { result ≡ self.now.types }
    {
        self.types
    }

    /// The number of bytes of code that are in no function.
    pub fn stray(&self) -> u64
        ensures { result ≡ self.now.stray }
    {
        self.stray
    }

    /// How many functions are of a kind.
    pub fn count(&self, question: Question) -> usize
        ensures { result ≡ count_by (is_counted question) self.now.functions }
    {
        count(question, &self.functions)
    }

    /// Whether the audit found nothing to refuse.
    #[tactic(auto, unfolding(crate::specs::Audits::is_clear))]
    pub fn is_clear(&self) -> bool
        ensures { result ≡ is_clear self.now }
    {
        are_well(&self.functions) && self.types.is_none()
    }
}
