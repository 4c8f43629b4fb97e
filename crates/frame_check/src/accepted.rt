//! An image that the checker accepted. docs/rules/acceptance.md, "What a run asks".
ghost use Rattle.std.specs.Prelude.{◌≡◌, ◌↔◌, IsTrue, Contains, true};
ghost use Rattle.elf_image.specs.Functions.{Function as Range, is_inside};
ghost use Rattle.run_images.specs.Profiles.{profile_of};
ghost use Rattle.run_images.specs.Start.{begins_function};
ghost use Rattle.frame_reach.specs.Marks.{Marks, AreMarks};
ghost use Rattle.frame_check.specs.Roots.{flow_graph_of};
ghost use Rattle.frame_check.specs.Accepts.{Accepted as Parts, IsSound, IsInstr, IsLowering, saves_at};
ghost use Rattle.frame_check.specs.Roles.{look};

use crate::roles::Roles;
use eh_index::Index;
use eh_types::TypeGraph;
use elf_image::image::Image;
use std::marker::Model;
use thumb_isa::profile::Profile;

/// An image whose index was read, whose functions are all accepted, and whose types have a graph.
#[derive(Drop)]
pub struct Accepted<'a> {
    /// The image.
    pub(crate) image: Image<'a>,
    /// The instruction set profile of the image.
    pub(crate) profile: Profile,
    /// The graph of the types that its exceptions may have.
    pub(crate) types: TypeGraph<'a>,
    /// What a run needs to know of each address.
    pub(crate) roles: Roles,
}

impl<'a> Model for Accepted<'a> {
    ghost use Rattle.std.specs.Prelude.{◌≡◌};
    ghost use Rattle.run_images.specs.Profiles.{profile_of};
    ghost use Rattle.frame_check.specs.Accepts.{Accepted as Parts, IsSound};

    ghost Value = { Parts };

    ghost view = { λ a. record { image = a.image; types = a.types; roles = a.roles } };

    ghost invariant = { λ a. IsSound (record { image = a.image; types = a.types; roles = a.roles }) × (a.profile ≡ profile_of a.image) };
}

impl<'a> Accepted<'a> {
    /// The image.
    pub fn image(&self) -> &Image<'a>
        ensures image { result.now ≡ self.now.image }
        ensures sound { IsSound self.now }
    {
        &self.image
    }

    /// The instruction set profile of the image. Takes no time.
    pub fn profile(&self) -> Profile
        ensures { result ≡ profile_of self.now.image }
    {
        self.profile
    }

    /// The index table of the image. Takes no time.
    pub fn index(&self) -> Index<'_, 'a>
        ensures { result ≡ self.now.image }
    {
        Index::of(&self.image)
    }

    /// The graph of the types that its exceptions may have.
    pub fn types(&self) -> &TypeGraph<'a>
        ensures { result.now ≡ self.now.types }
    {
        &self.types
    }

    /// Whether an address has an instruction that some path from its function's entry reaches. One look-up.
    pub fn is_instr(&self, a: u32) -> bool
        ensures role { result ≡ (look self.now.roles a).is_instr }
        ensures reached { IsTrue result ↔ IsInstr self.now.image self.now.image.functions a }
    {
        self.roles.look_up_role(a).is_instr
    }

    /// Whether an address is a lowering place: a MOV into sp of the result of the subtraction before it, with both reached. One
    /// look-up.
    pub fn lowers_at(&self, a: u32) -> bool
        ensures role { result ≡ (look self.now.roles a).lowers }
        ensures lowers { IsTrue result ↔ IsLowering self.now.image self.now.image.functions a }
    {
        self.roles.look_up_role(a).lowers
    }

    /// Whether a function begins at an address. One look-up.
    pub fn is_function(&self, a: u32) -> bool
        ensures { result ≡ begins_function self.now.image.functions a }
    {
        self.roles.look_up_role(a).is_function
    }

    /// Which words that the PUSH at an address stores are saves of its function's prologue: bit k means word k, counted from the lowest
    /// address. 0 if the address has no PUSH of a prologue. One look-up.
    pub fn saves_at(&self, a: u32) -> u16
        ensures role { result ≡ (look self.now.roles a).saves }
        ensures saves { (f : Range) (m : Marks) → Contains self.now.image.functions f → AreMarks (flow_graph_of self.now.image f) m → is_inside a f ≡ true → result ≡ saves_at (flow_graph_of self.now.image f) m a }
        ensures none { ((f : Range) → Contains self.now.image.functions f → is_inside a f ≡ true → ⊥) → result ≡ 0 }
    {
        self.roles.look_up_role(a).saves
    }

    /// The properties of every accepted image, for use in proofs.
    pub fn holds(&self)
        ensures { IsSound self.now }
    {
        let _ = &self.types;
    }
}
