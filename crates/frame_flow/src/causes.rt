//! The causes that a fact meets at a place, the lowest first. docs/rules/acceptance.md, "Causes".
ghost use Rattle.std.specs.Prelude.{◌≡◌, ◌+◌, ◌*◌, ◌<◌, ◌^◌, Some, is_some};
ghost use Rattle.frame_flow.specs.Framed.{framed_view};
ghost use Rattle.frame_flow.specs.Causes.{is_call, entry_causes, throws_in_leaf, site_causes, causes_at};
ghost use Rattle.frame_flow.specs.Flows.{fact_after, parting};
ghost use Rattle.frame_flow.specs.Work.{by_first, pass_place, fact_if_true};
ghost use Rattle.frame_graph.specs.Edges.{instruction_at};
ghost use Rattle.frame_code.specs.Lowering.{sets_sp_from};
ghost use Rattle.frame_graph.specs.Sites.{unwinding_at, pads_out};
ghost use Rattle.frame_graph.specs.SiteCaching.{Tells, TellsOn};

use crate::framed::FramedFunction;
use frame_code::Standing;
use frame_entries::EntrySummary;
use frame_facts::{Fact, FrameCause, agrees, write_fact_after};
use frame_graph::SiteCache;
use thumb_core::regs::{LR, SP};
use thumb_isa::instr::Instr;

/// Whether the instruction at a site is a call; else it is a gate.
fn is_call(i: &Instr) -> bool
    ensures { result ≡ is_call i.now }
{
    matches!(*i, Instr::Bl { .. } | Instr::Blx { .. })
}

/// Whether an instruction is a MOV into sp.
fn sets_sp(i: &Instr) -> bool
    ensures { result ≡ is_some (sets_sp_from i.now) }
{
    matches!(*i, Instr::MovHigh { d: SP, .. })
}

impl<'f, 's, 'i, 'a> FramedFunction<'f, 's, 'i, 'a> {
    /// Whether a site agrees with how its entry unwinds. With a recipe, the fact must agree with it. Without one, a call only needs a
    /// word on the stack.
    fn agrees_with_summary(
        &self,
        unwinding: &EntrySummary,
        call: bool,
        fact: &Fact,
    ) -> Result<(), FrameCause>
        ensures { result ≡ by_first (entry_causes self.now.prologue unwinding.now call fact.now) tt }
    {
        match unwinding {
            EntrySummary::Finds(recipe) => agrees(fact, self.prologue, recipe, call),
            EntrySummary::Refused | EntrySummary::BadBytecode | EntrySummary::GenericModel => {
                if call && fact.depth < 4 {
                    Err(FrameCause::CallState { reg: LR })
                } else {
                    Ok(())
                }
            }
        }
    }

    /// As `unwound`, for a site whose entry isn't cached. It isn't inlined, so that the cached case stays short.
    #[inline(never)]
    fn agrees_with_uncached(&self, site: u32, call: bool, fact: &Fact) -> Result<(), FrameCause>
        ensures { result ≡ by_first (entry_causes self.now.prologue (unwinding_at self.now.flow_graph site) call fact.now) tt }
    {
        self.agrees_with_summary(&self.flow_graph.unwinding_at(site), call, fact)
    }

    /// Whether a site agrees with the entry that covers it.
    fn agrees_with_entry(&self, site: u32, call: bool, fact: &Fact) -> Result<(), FrameCause>
        ensures { result ≡ by_first (entry_causes self.now.prologue (unwinding_at self.now.flow_graph site) call fact.now) tt }
    {
        match self.flow_graph.kept_unwinding_at(site) {
            None => self.agrees_with_uncached(site, call, fact),
            Some(unwinding) => self.agrees_with_summary(unwinding, call, fact),
        }
    }

    /// Whether a gate lies in the scope of a descriptor while nothing is on the stack.
    fn throws_in_leaf(&self, stretch: &SiteCache, site: u32, call: bool, fact: &Fact) -> bool
        requires { Tells self.now.flow_graph stretch.now site }
        ensures { result ≡ throws_in_leaf self.now.flow_graph site call fact.now }
    {
        !call && fact.depth == 0 && stretch.is_scoped()
    }

    /// Whether a landing pad of a site isn't code of the function.
    fn pads_out(&self, stretch: &SiteCache, site: u32) -> bool
        requires { Tells self.now.flow_graph stretch.now site }
        ensures { result ≡ pads_out self.now.flow_graph site }
    {
        stretch.pads_out()
    }

    /// Err with the lowest cause that a fact meets at a site.
    fn agrees_at(
        &self,
        stretch: &SiteCache,
        site: u32,
        call: bool,
        fact: &Fact,
    ) -> Result<(), FrameCause>
        requires { Tells self.now.flow_graph stretch.now site }
        ensures { result ≡ by_first (site_causes (framed_view self.now) call fact.now site) tt }
    {
        self.agrees_with_entry(site, call, fact)?;
        if self.pads_out(stretch, site) {
            return Err(FrameCause::PadDepth);
        }
        if self.throws_in_leaf(stretch, site, call, fact) {
            return Err(FrameCause::ThrowInLeafScope);
        }
        Ok(())
    }

    /// Whether the instruction at a place makes a frame of variable size. For instructions other than a MOV into sp nothing else is
    /// read.
    fn lowers_at(&self, place: u32, i: &Instr) -> bool
        requires { instruction_at self.now.flow_graph place ≡ Some i.now }
        ensures { result ≡ (framed_view self.now).lowers place }
    {
        sets_sp(i) && self.flow_graph.is_lowering(self.reached, place)
    }

    /// Applies the instruction at a place to `fact`: writes the fact after it to `next`, and returns whether the place has edges. Err
    /// with the lowest cause that `fact` meets there. If there are no edges, `next` isn't specified. `stretch` is the answer for the
    /// site of the place.
    pub(crate) fn pass_place(
        &self,
        stretch: &SiteCache,
        place: u32,
        fact: &Fact,
        next: &mut Fact,
    ) -> Result<bool, FrameCause>
        requires low { self.now.flow_graph.start + 2 * place < 2 ^ 32 }
        requires tells { TellsOn self.now.flow_graph stretch.now place }
        ensures { fact_if_true result next.new ≡ pass_place (framed_view self.now) place fact.now }
    {
        let standing = self.flow_graph.standing_at(place);
        if self.flow_graph.is_undecodable(place) {
            return Err(FrameCause::Undecodable);
        }
        if self.flow_graph.branches_out(place, standing) {
            return Err(FrameCause::BranchOut);
        }
        if self.flow_graph.calls_nothing(place, standing) {
            return Err(FrameCause::CallNotFunction);
        }
        let Standing::Instruction(i, _) = standing else {
            return Ok(false);
        };
        match write_fact_after(
            fact,
            next,
            &i,
            self.flow_graph.address_of(place),
            self.prologue,
            self.lowers_at(place, &i),
        ) {
            Err(cause) => Err(cause),
            Ok(()) => match self.flow_graph.site_by(place, standing) {
                None => Ok(true),
                Some(site) => match self.agrees_at(stretch, site, is_call(&i), fact) {
                    Err(cause) => Err(cause),
                    Ok(()) => Ok(true),
                },
            },
        }
    }

    /// The cause to name if two paths reach a place with different depths.
    pub(crate) fn depth_cause(&self, place: u32) -> FrameCause
        ensures { result ≡ parting (framed_view self.now) place }
    {
        let place = place as usize;
        if place < self.pads.len() && self.pads[place] {
            FrameCause::PadDepth
        } else {
            FrameCause::JoinDepth
        }
    }
}
