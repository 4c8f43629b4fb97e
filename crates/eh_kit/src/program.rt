//! The functions of a generated program, and the random numbers that choose what they do (docs/guide/command-line.md).
ghost use Rattle.std.specs.Prelude.{◌≡◌, ◌<◌};
ghost use Rattle.eh_kit.specs.Program.{next_number, kind_of, callee_of};

/// The factor of the random number generator.
pub const MULTIPLIER: u32 = 1_103_515_245;
/// The summand of the random number generator.
pub const INCREMENT: u32 = 12_345;

/// A function of a generated program.
#[derive(Clone, Copy)]
pub enum FunctionName {
    /// `main`.
    Main,
    /// A function `f0`, `f1` and so on, numbered from 0.
    Numbered(u32),
    /// The last function, `boom`, which throws an `int`.
    Boom,
}

/// What a function does with an exception that its callee throws.
#[derive(Clone, Copy)]
pub enum FunctionKind {
    /// Nothing.
    Plain,
    /// It runs a cleanup.
    Cleanup,
    /// It catches every exception (`catch (...)`).
    CatchAll,
    /// It catches an `int`.
    CatchInt,
}

/// A function of a generated program that calls another one.
#[derive(Clone, Copy)]
pub struct Caller {
    /// The function.
    pub name: FunctionName,
    /// The function that it calls.
    pub callee: FunctionName,
    /// What it does with an exception.
    pub kind: FunctionKind,
}

/// The next random number, modulo 2^32.
pub(crate) fn next_number(number: u32) -> u32
    ensures { result ≡ next_number number }
{
    number.wrapping_mul(MULTIPLIER).wrapping_add(INCREMENT)
}

/// What a function does, by bits 17 and 16 of its random number.
pub(crate) fn kind_of(number: u32) -> FunctionKind
    ensures { result ≡ kind_of number }
{
    match (number >> 16) % 4 {
        0 => FunctionKind::Plain,
        1 => FunctionKind::Cleanup,
        2 => FunctionKind::CatchAll,
        _ => FunctionKind::CatchInt,
    }
}

/// The callee of a function by its number: the next function, or `boom` after the last.
pub(crate) fn callee_of(functions: u32, function: u32) -> FunctionName
    requires { function < functions }
    ensures { result ≡ callee_of functions function }
{
    if function + 1 < functions {
        FunctionName::Numbered(function + 1)
    } else {
        FunctionName::Boom
    }
}
