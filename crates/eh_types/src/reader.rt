//! Reads the graph of types, depth first and without recursion (docs/rules/types-and-matching.md). A type is done when all its bases are done.
ghost use Rattle.std.specs.Prelude.{◌≡◌, ◌≢◌, ◌+◌, ◌<◌, ◌≤◌, ◌++◌, ◌==◌, ◌^◌, if◌then◌else◌, ℕ, IfOk, IfErr, Some, None, true, false, [], ◌∷◌};
ghost use Rattle.std.specs.Map.{lookup};
ghost use Rattle.std.specs.Ordering.{nat_cmp};
ghost use Rattle.std.specs.BTreeMap.{is_at};
ghost use Rattle.eh_types.specs.declared.fault.TypeFault.TheVariants.{OutOfMemory};
ghost use Rattle.eh_types.specs.Vtables.{vtables_of};
ghost use Rattle.eh_types.specs.Meant.{pointees, IsReachedType, Shows};
ghost use Rattle.eh_types.specs.Reading.{counted_type_at, open_at, open_types, Leads, IsReading, IsReadingWith, work_with};

use crate::fault::TypeFault;
use crate::graph::MOST_PATHS;
use crate::kind::TypeKind;
use crate::state::{CountedType, Frame, GraphWalk, put, take_out};
use crate::types::{base_type, info, read_head};
use crate::vtables::Vtables;
use elf_image::image::Image;
use std::alloc::{AllocError, Global};
use std::collections::{BTreeMap, BTreeSet};

/// Where a graph is read from.
#[derive(Clone, Copy)]
pub(crate) struct TypeReader<'i, 'a> {
    /// The image.
    pub image: &'i Image<'a>,
    /// The vtable addresses that tell the kinds of types apart.
    pub vtables: Vtables,
    /// The addresses of the root types.
    pub roots: &'i [u32],
}

fn push_frame(stack: &mut Vec<Frame>, frame: Frame) -> Result<(), AllocError>
    ensures { IfOk result (λ _. stack.new.items ≡ stack.old.items ++ frame ∷ []) }
{
    stack.push(frame)?;
    Ok(())
}

fn push_waiting(pending: &mut Vec<u32>, at: u32) -> Result<(), AllocError>
    ensures { IfOk result (λ _. pending.new.items ≡ pending.old.items ++ at ∷ []) }
{
    pending.push(at)?;
    Ok(())
}

/// Queues the pointee of a pointer type, to be read later; does nothing for other kinds.
fn push_pointees(pending: &mut Vec<u32>, kind: TypeKind) -> Result<(), AllocError>
    ensures { IfOk result (λ _. pending.new.items ≡ pending.old.items ++ pointees kind) }
{
    match kind {
        TypeKind::Pointer { flags: _, pointee } => push_waiting(pending, pointee),
        TypeKind::Other
        | TypeKind::Fundamental
        | TypeKind::Class
        | TypeKind::Si(_)
        | TypeKind::Vmi => Ok(()),
    }
}

#[tactic(auto, using(elf_image::proofs::Entries::lookup_insert))]
fn insert_counted<'a>(
    done: &mut BTreeMap<u32, CountedType<'a>>,
    at: u32,
    d: CountedType<'a>,
) -> Result<(), AllocError>
    ensures { IfOk result (λ _. (q : ℕ) → lookup (is_at (nat_cmp q)) done.new.entries ≡ (if q == at then Some d.entry else lookup (is_at (nat_cmp q)) done.old.entries)) }
{
    done.insert(at, d)?;
    Ok(())
}

/// Pushes a type onto the stack, so that its bases are read next. Err if its words show a fault.
fn visit(source: &TypeReader, state: &mut GraphWalk, at: u32) -> Result<(), TypeFault>
    requires told { source.now.vtables ≡ vtables_of source.now.image.now }
    requires reading { IsReading source.now.image.now source.now.roots.now state.old }
    requires reached { IsReachedType source.now.image.now source.now.roots.now at }
    requires leads { Leads source.now.image.now at (open_types state.old) }
    requires new { counted_type_at state.old at ≡ None }
    requires shut { open_at state.old at ≡ false }
    ensures reading { IfOk result (λ _. IsReading source.now.image.now source.now.roots.now state.new) }
    ensures less { IfOk result (λ _. work_with state.new (open_types state.new) < work_with state.old (open_types state.old)) }
    ensures shown { IfErr result (λ fault. fault ≢ OutOfMemory → Shows source.now.image.now source.now.roots.now fault) }
{
    let head = match read_head(source.image, &source.vtables, at) {
        Ok(head) => head,
        Err(fault) => return Err(fault),
    };
    let frame = Frame {
        at,
        kind: head.kind,
        count: head.count,
        next: 0,
        paths: 1,
    };
    put(&mut state.open, at)?;
    push_frame(&mut state.stack, frame)?;
    Ok(())
}

/// Handles the next base of the type `frame`, which was popped: counts the paths of a base that is done, or reads the base first.
/// Err with the fault of a type that was met.
fn take_base(source: &TypeReader, state: &mut GraphWalk, frame: Frame) -> Result<(), TypeFault>
    requires told { source.now.vtables ≡ vtables_of source.now.image.now }
    requires reading { IsReadingWith source.now.image.now source.now.roots.now state.old (frame ∷ open_types state.old) }
    requires more { frame.next < frame.count }
    ensures reading { IfOk result (λ _. IsReading source.now.image.now source.now.roots.now state.new) }
    ensures less { IfOk result (λ _. work_with state.new (open_types state.new) < work_with state.old (frame ∷ open_types state.old)) }
    ensures shown { IfErr result (λ fault. fault ≢ OutOfMemory → Shows source.now.image.now source.now.roots.now fault) }
{
    let base = base_type(source.image, frame.at, frame.kind, frame.next);
    match state.paths(base) {
        Some(paths) => {
            let counted = Frame {
                at: frame.at,
                kind: frame.kind,
                count: frame.count,
                next: frame.next + 1,
                paths: frame.paths + u64::from(paths),
            };
            push_frame(&mut state.stack, counted)?;
            Ok(())
        }
        None => {
            if state.is_open(base) {
                return Err(TypeFault::Cyclic(base));
            }
            push_frame(&mut state.stack, frame)?;
            visit(source, state, base)
        }
    }
}

/// Finishes the type `frame`, which was popped and whose bases are all done. Err with the fault of a type that was met.
fn finish<'a>(
    source: &TypeReader<'_, 'a>,
    state: &mut GraphWalk<'a>,
    frame: Frame,
) -> Result<(), TypeFault>
    requires told { source.now.vtables ≡ vtables_of source.now.image.now }
    requires reading { IsReadingWith source.now.image.now source.now.roots.now state.old (frame ∷ open_types state.old) }
    requires all { frame.count ≤ frame.next }
    ensures reading { IfOk result (λ _. IsReading source.now.image.now source.now.roots.now state.new) }
    ensures less { IfOk result (λ _. work_with state.new (open_types state.new) < work_with state.old (frame ∷ open_types state.old)) }
    ensures shown { IfErr result (λ fault. fault ≢ OutOfMemory → Shows source.now.image.now source.now.roots.now fault) }
{
    if frame.paths > u64::from(MOST_PATHS) {
        return Err(TypeFault::TooManyPaths(frame.at));
    }
    let info = info(source.image, &source.vtables, frame.at)?;
    let done = CountedType {
        info,
        paths: frame.paths as u32,
    };
    push_pointees(&mut state.pending, frame.kind)?;
    take_out(&mut state.open, frame.at);
    insert_counted(&mut state.done, frame.at, done)?;
    Ok(())
}

/// Takes the last of the queued types: it is done already, or its bases are read. Returns whether there was one.
fn take_waiting(source: &TypeReader, state: &mut GraphWalk) -> Result<bool, TypeFault>
    requires told { source.now.vtables ≡ vtables_of source.now.image.now }
    requires reading { IsReading source.now.image.now source.now.roots.now state.old }
    requires none_open { state.old.stack.items ≡ [] }
    ensures reading { IfOk result (λ _. IsReading source.now.image.now source.now.roots.now state.new) }
    ensures less { IfOk result (λ more. more ≡ true → work_with state.new (open_types state.new) < work_with state.old (open_types state.old)) }
    ensures ended { IfOk result (λ more. more ≡ false → (state.new.stack.items ≡ []) × (state.new.pending.items ≡ [])) }
    ensures shown { IfErr result (λ fault. fault ≢ OutOfMemory → Shows source.now.image.now source.now.roots.now fault) }
{
    let Some(at) = state.pending.pop() else {
        return Ok(false);
    };
    if state.paths(at).is_some() {
        return Ok(true);
    }
    push_waiting(&mut state.pending, at)?;
    visit(source, state, at)?;
    Ok(true)
}

/// Does one step of the traversal. Returns whether there was anything left to do.
fn step<'a>(source: &TypeReader<'_, 'a>, state: &mut GraphWalk<'a>) -> Result<bool, TypeFault>
    requires told { source.now.vtables ≡ vtables_of source.now.image.now }
    requires reading { IsReading source.now.image.now source.now.roots.now state.old }
    ensures reading { IfOk result (λ _. IsReading source.now.image.now source.now.roots.now state.new) }
    ensures less { IfOk result (λ more. more ≡ true → work_with state.new (open_types state.new) < work_with state.old (open_types state.old)) }
    ensures ended { IfOk result (λ more. more ≡ false → (state.new.stack.items ≡ []) × (state.new.pending.items ≡ [])) }
    ensures shown { IfErr result (λ fault. fault ≢ OutOfMemory → Shows source.now.image.now source.now.roots.now fault) }
{
    let Some(frame) = state.stack.pop() else {
        return take_waiting(source, state);
    };
    if frame.next < frame.count {
        take_base(source, state, frame)?;
    } else {
        finish(source, state, frame)?;
    }
    Ok(true)
}

/// The initial state: nothing is read, and the roots are queued.
fn start<'a>(alloc: Global, source: &TypeReader<'_, 'a>) -> Result<GraphWalk<'a>, AllocError>
    ensures { IfOk result (λ state. IsReading source.now.image.now source.now.roots.now state) }
{
    let pending = Vec::from_slice(alloc, source.roots)?;
    Ok(GraphWalk {
        done: BTreeMap::new(alloc),
        open: BTreeSet::new(alloc),
        stack: Vec::new(alloc),
        pending,
    })
}

/// Reads everything that the roots reach; Err with the first fault met.
pub(crate) fn read_all<'a>(
    alloc: Global,
    source: &TypeReader<'_, 'a>,
) -> Result<GraphWalk<'a>, TypeFault>
    requires told { source.now.vtables ≡ vtables_of source.now.image.now }
    ensures reading { IfOk result (λ state. IsReading source.now.image.now source.now.roots.now state) }
    ensures ended { IfOk result (λ state. (state.stack.items ≡ []) × (state.pending.items ≡ [])) }
    ensures shown { IfErr result (λ fault. fault ≢ OutOfMemory → Shows source.now.image.now source.now.roots.now fault) }
{
    let mut state = start(alloc, source)?;
    loop {
        if !step(source, &mut state)? {
            return Ok(state);
        }
    }
}
