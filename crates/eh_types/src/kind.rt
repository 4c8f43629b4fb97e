//! What a type is, and what a base of a class is (docs/rules/types-and-matching.md).

/// The kind of a type, which the vtable of its type information tells.
#[derive(Clone, Copy)]
pub enum TypeKind {
    /// None of the kinds below.
    Other,
    /// A built-in type.
    Fundamental,
    /// A class without bases.
    Class,
    /// A class with one base, which is public, not virtual, and at offset 0. Holds the address of the base's type.
    Si(u32),
    /// A class with a list of bases of any sort.
    Vmi,
    /// A pointer. `flags` are the qualifiers of the pointee (1 const, 2 volatile); `pointee` is the address of its type.
    Pointer { flags: u32, pointee: u32 },
}

/// One base of a class.
#[derive(Clone, Copy)]
pub struct Base {
    /// The address of the base's type.
    pub ty: u32,
    /// In bytes: where the base lies from the start of the class. For a virtual base: where the word with that distance lies, from
    /// the address that the vtable pointer holds.
    pub offset: i32,
    /// Whether the base is virtual.
    pub is_virtual: bool,
    /// Whether the base is public.
    pub is_public: bool,
}
