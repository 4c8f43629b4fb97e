//! Checks an image. docs/rules/acceptance.md.
ghost use Rattle.std.specs.Prelude.{◌≡◌, ◌≢◌, ◌<◌, [], map, All, None, IfOk, IfErr, OnOk};
ghost use Rattle.eh_index.specs.Refusal.{index_refusal};
ghost use Rattle.eh_types.specs.Meant.{IsGraph};
ghost use Rattle.run_images.specs.Profiles.{profile_of};
ghost use Rattle.frame_reach.specs.Held.{marks_of};
ghost use Rattle.frame_reach.specs.Marks.{AreMarks};
ghost use Rattle.frame_reach.specs.Prologue.{prologue};
ghost use Rattle.frame_check.specs.declared.fault.CheckFault.TheVariants.{OutOfMemory as NoMemory};
ghost use Rattle.frame_check.specs.Roots.{flow_graph_of, roots_of};
ghost use Rattle.frame_check.specs.Accepts.{AreBytes, IsWell, AreWell, AreRoles, IsSound, IsAccepted, Refuses};
ghost use Rattle.frame_check.specs.Judged.{IsJudged, RefusesOne, RefusesFunctions, RefusesTypes, IsTaken, IsPlaced};
ghost use Rattle.frame_check.specs.Pushes.{pushing_of, pushings_of};

use crate::accepted::Accepted;
use crate::fault::{CheckFault, Rejected};
use crate::judge::{CheckedFunction, analyse_function};
use crate::marking::mark;
use crate::roles::Roles;
use crate::room::Room;
use crate::roots::roots_of;
use eh_index::Index;
use eh_types::{TypeFault, TypeGraph};
use eh_word::Name;
use elf_image::function::Function;
use elf_image::image::Image;
use elf_image::segment::Segment;
use frame_flow::FrameFault;
use frame_graph::{EntryCache, FlowGraph};
use frame_reach::ReachMarks;
use run_images::profile::profile_of;
use std::alloc::Global;
use thumb_isa::profile::Profile;

/// What a run needs of an accepted image, besides the image.
#[derive(Drop)]
struct Parts<'a> {
    types: TypeGraph<'a>,
    roles: Roles,
}

/// The refusal of a function, from its fault.
fn rejection(alloc: Global, flow_graph: &FlowGraph, f: &Function, fault: FrameFault) -> CheckFault
    requires flow_graph { flow_graph.now ≡ flow_graph_of flow_graph.now.image f.now }
    requires judged { IsJudged flow_graph.now fault }
    ensures { RefusesOne flow_graph.now.image f.now result }
{
    let _end = flow_graph.end();
    match fault {
        FrameFault::OutOfMemory => CheckFault::OutOfMemory,
        FrameFault::Stands(place, cause) => match Name::of(alloc, f.name) {
            Err(_) => CheckFault::OutOfMemory,
            Ok(function) => CheckFault::Function(Rejected {
                function,
                start: flow_graph.start(),
                at: flow_graph.address_of(place),
                cause,
            }),
        },
    }
}

/// Checks one function: what was found if it is accepted, else its name, an address, and a cause that stands there.
fn function_verdict(
    alloc: Global,
    room: &mut Room,
    flow_graph: &FlowGraph,
    f: &Function,
) -> Result<CheckedFunction, CheckFault>
    requires placed { IsPlaced f.now }
    requires flow_graph { flow_graph.now ≡ flow_graph_of flow_graph.now.image f.now }
    ensures marks { IfOk result (λ w. AreMarks flow_graph.now (marks_of w.reached)) }
    ensures prologue { IfOk result (λ w. w.prologue ≡ prologue flow_graph.now (marks_of w.reached)) }
    ensures pushes { IfOk result (λ w. map pushing_of room.new.pushes.items ≡ pushings_of flow_graph.now (marks_of w.reached)) }
    ensures well { IfOk result (λ _. IsWell flow_graph.now) }
    ensures refused { IfErr result (RefusesOne flow_graph.now.image f.now) }
{
    match analyse_function(alloc, room, flow_graph) {
        Err(fault) => Err(rejection(alloc, flow_graph, f, fault)),
        Ok(well) => Ok(well),
    }
}

/// Checks one function, and records nothing in the roles. Ok with its reached places if it is accepted. Else Err with its name, an
/// address, and a cause that stands there. The cache must have the entry of its start.
pub fn check_unmarked(
    alloc: Global,
    room: &mut Room,
    cover: &EntryCache,
    f: &Function,
) -> Result<ReachMarks, CheckFault>
    requires { IsPlaced f.now }
    ensures marks { IfOk result (λ reached. AreMarks (flow_graph_of cover.now f.now) (marks_of reached)) }
    ensures well { IfOk result (λ _. IsWell (flow_graph_of cover.now f.now)) }
    ensures refused { IfErr result (RefusesOne cover.now f.now) }
{
    let flow_graph = FlowGraph::with_cache(cover, f.start, f.end);
    match function_verdict(alloc, room, &flow_graph, f) {
        Err(fault) => Err(fault),
        Ok(well) => Ok(well.reached),
    }
}

/// Checks a function, and records its addresses in the roles if it is accepted. The cache must have the entry of its start.
fn check_function(
    alloc: Global,
    room: &mut Room,
    roles: &mut Roles,
    cover: &EntryCache,
    f: &Function,
) -> Result<(), CheckFault>
    requires { IsPlaced f.now }
    ensures taken { OnOk result (IsTaken cover.now f.now roles.old roles.new) }
    ensures refused { IfErr result (RefusesOne cover.now f.now) }
{
    let flow_graph = FlowGraph::with_cache(cover, f.start, f.end);
    match function_verdict(alloc, room, &flow_graph, f) {
        Err(fault) => Err(fault),
        Ok(well) => {
            mark(room, roles, &flow_graph, &well)?;
            room.keep(well.reached);
            Ok(())
        }
    }
}

/// Checks the functions in ascending order, and records their addresses in the roles. An entry that covers several functions is read
/// once.
fn check_each(
    alloc: Global,
    room: &mut Room,
    roles: &mut Roles,
    cover: &mut EntryCache,
    index: &Index,
) -> Result<(), CheckFault>
    requires roles { AreRoles index.now [] roles.old }
    requires cover { cover.old ≡ index.now }
    ensures well { OnOk result (AreWell index.now index.now.functions) }
    ensures roles { OnOk result (AreRoles index.now index.now.functions roles.new) }
    ensures refused { IfErr result (RefusesFunctions index.now) }
{
    for f in index.image().functions() {
        cover.turn(alloc, f.start, f.end)?;
        match check_function(alloc, room, roles, cover, f) {
            Ok(()) => {}
            Err(fault) => return Err(fault),
        }
    }
    Ok(())
}

/// Checks the functions, whose instructions `profile` decodes; the roles of their addresses if all are accepted.
fn check_functions(alloc: Global, index: &Index, profile: Profile) -> Result<Roles, CheckFault>
    requires { profile ≡ profile_of index.now }
    ensures well { OnOk result (AreWell index.now index.now.functions) }
    ensures roles { IfOk result (AreRoles index.now index.now.functions) }
    ensures refused { IfErr result (RefusesFunctions index.now) }
{
    let mut roles = Roles::new(alloc);
    let mut cover = EntryCache::new(alloc, index, profile);
    let mut room = Room::new(alloc);
    check_each(alloc, &mut room, &mut roles, &mut cover, index)?;
    Ok(roles)
}

/// The graph of the types that an image's exceptions may have; Err with a type that shows there is none.
pub fn types_of<'a>(alloc: Global, index: &Index<'_, 'a>) -> Result<TypeGraph<'a>, CheckFault>
    ensures graph { IfOk result (IsGraph index.now (roots_of index.now)) }
    ensures refused { IfErr result (RefusesTypes index.now) }
{
    let roots = roots_of(alloc, index)?;
    match TypeGraph::read(alloc, index.image(), &roots) {
        Ok(types) => Ok(types),
        Err(TypeFault::OutOfMemory) => Err(CheckFault::OutOfMemory),
        Err(fault) => Err(CheckFault::Types(fault)),
    }
}

/// The elements of a list of bytes are below 256.
fn are_bytes(bytes: &[u8])
    ensures { All (λ b. b < 256) bytes.now }
{
    let _count = bytes.len();
}

/// The elements of a segment's bytes are below 256.
fn has_bytes(segment: &Segment)
    ensures { All (λ b. b < 256) segment.now.bytes }
{
    are_bytes(segment.bytes());
}

/// The elements of all segments' bytes are below 256.
fn have_bytes(segments: &[Segment])
    ensures { AreBytes segments.now }
{
    for segment in segments {
        has_bytes(segment);
    }
}

/// What a run needs of an image with this index and profile; Err if it isn't accepted.
fn parts_of<'a>(
    alloc: Global,
    index: &Index<'_, 'a>,
    profile: Profile,
) -> Result<Parts<'a>, CheckFault>
    requires { profile ≡ profile_of index.now }
    ensures functions { OnOk result (AreWell index.now index.now.functions) }
    ensures graph { IfOk result (λ c. IsGraph index.now (roots_of index.now) c.types) }
    ensures roles { IfOk result (λ c. AreRoles index.now index.now.functions c.roles) }
    ensures refused { IfErr result (λ fault. fault ≢ NoMemory → index_refusal index.now ≡ None → Refuses index.now fault) }
{
    let roles = check_functions(alloc, index, profile)?;
    let types = types_of(alloc, index)?;
    Ok(Parts { types, roles })
}

/// What a run needs of an image with this profile; Err if it isn't accepted.
fn accepted_parts<'a>(
    alloc: Global,
    image: &Image<'a>,
    profile: Profile,
) -> Result<Parts<'a>, CheckFault>
    requires { profile ≡ profile_of image.now }
    ensures sound { IfOk result (λ c. IsSound (record { image = image.now; types = c.types; roles = c.roles })) }
    ensures refused { IfErr result (λ fault. fault ≢ NoMemory → Refuses image.now fault) }
{
    have_bytes(image.segments());
    match Index::read(image) {
        Err(fault) => Err(CheckFault::Index(fault)),
        Ok(index) => Ok(parts_of(alloc, &index, profile)?),
    }
}

/// Checks an image: its index, then its functions in ascending order, then its types. Err with the first that is refused; the image is
/// dropped then. Unless memory runs out, an image is accepted if and only if there is nothing to refuse.
pub fn check<'a>(alloc: Global, image: Image<'a>) -> Result<Accepted<'a>, CheckFault>
    ensures same { IfOk result (λ a. a.image ≡ image.entry) }
    ensures accepted { OnOk result (IsAccepted image.entry) }
    ensures refused { IfErr result (λ fault. fault ≢ NoMemory → Refuses image.entry fault) }
    ensures exact { IfErr result (λ fault. fault ≢ NoMemory → IsAccepted image.entry → ⊥) }
{
    let profile = profile_of(&image);
    match accepted_parts(alloc, &image, profile) {
        Err(fault) => Err(fault),
        Ok(Parts { types, roles }) => Ok(Accepted {
            image,
            profile,
            types,
            roles,
        }),
    }
}
