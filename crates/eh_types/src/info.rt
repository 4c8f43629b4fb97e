//! One type of a graph (docs/rules/types-and-matching.md).
ghost use Rattle.std.specs.Prelude.{◌≡◌};

use crate::kind::TypeKind;
use std::marker::Model;

/// A type of the graph. Its bases aren't stored: they are read from the image when asked for.
#[derive(Drop)]
pub struct TypeInfo<'a> {
    /// The address of the type's information (`std::type_info`).
    pub(crate) at: u32,
    /// What kind of type it is.
    pub(crate) kind: TypeKind,
    /// The type's name, without its zero byte.
    pub(crate) name: &'a [u8],
}

impl<'a> Model for TypeInfo<'a> {
    ghost use Rattle.std.specs.Prelude.{[]};
    ghost use Rattle.eh_types.specs.Graph.{Row};

    ghost Value = { Row };

    ghost view = { λ t. record { at = t.at; kind = t.kind; name = t.name.now; bases = [] } };
}

impl<'a> TypeInfo<'a> {
    /// The address of the type.
    pub(crate) fn at(&self) -> u32
        ensures { result ≡ self.now.at }
    {
        self.at
    }

    /// The kind of the type.
    pub(crate) fn kind(&self) -> TypeKind
        ensures { result ≡ self.now.kind }
    {
        self.kind
    }

    /// The name of the type, without its zero byte.
    pub(crate) fn name(&self) -> &'a [u8]
        ensures { result.now ≡ self.now.name }
    {
        self.name
    }
}
