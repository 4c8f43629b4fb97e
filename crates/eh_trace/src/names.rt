//! The names of types, as a trace prints them (docs/guide/command-line.md).
ghost use Rattle.std.specs.Prelude.{◌≡◌, ℕ, List};

use eh_types::TypeGraph;

/// Gives types their names. A type is identified by the address of its type information.
pub trait TypeNames {
    ghost name_of: { Self → ℕ → List ℕ };

    /// The name of a type; empty if the type isn't known.
    fn name(&self, ty: u32) -> &[u8]
        ensures { result.now ≡ name_of self.now ty };
}

impl<'a> TypeNames for TypeGraph<'a> {
    ghost use Rattle.eh_types.specs.Graph.{name_of as graph_name};

    ghost name_of = { graph_name };

    fn name(&self, ty: u32) -> &[u8] {
        TypeGraph::name(self, ty)
    }
}
