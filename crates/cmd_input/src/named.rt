//! Sources, each with the name of its file.
use asm_statements::Stmt;
use eh_port::Bytes;
use std::marker::Model;

/// A source as the bytes of its file.
#[derive(Drop)]
pub struct SourceText<'a> {
    name: &'a str,
    text: Bytes,
}

impl<'a> Model for SourceText<'a> {
    ghost use Rattle.cmd_input.specs.Sources.{NamedText};

    ghost Value = { NamedText };

    ghost view = { λ s. record { name = s.name.now; text = s.text } };
}

impl<'a> SourceText<'a> {
    ghost use Rattle.std.specs.Prelude.{◌≡◌};

    /// The source with this name and these bytes.
    pub fn new(name: &'a str, text: Bytes) -> SourceText<'a>
        ensures { result ≡ record { name = name.now; text = text } }
    {
        SourceText { name, text }
    }

    /// The name of its file.
    pub fn name(&self) -> &'a str
        ensures { result.now ≡ self.now.name }
    {
        self.name
    }

    /// The bytes of its file.
    pub fn text(&self) -> &[u8]
        ensures { result.now ≡ self.now.text }
    {
        self.text.as_slice()
    }

    /// The bytes, without the name.
    pub fn into_text(self) -> Bytes
        ensures { result ≡ self.entry.text }
    {
        self.text
    }
}

/// A source as its statements.
#[derive(Drop)]
pub(crate) struct SourceStmts<'a> {
    name: &'a str,
    stmts: Vec<Stmt>,
}

impl<'a> Model for SourceStmts<'a> {
    ghost use Rattle.cmd_input.specs.Sources.{NamedStmts};

    ghost Value = { NamedStmts };

    ghost view = { λ s. record { name = s.name.now; stmts = s.stmts.items } };
}

impl<'a> SourceStmts<'a> {
    ghost use Rattle.std.specs.Prelude.{◌≡◌};

    /// The source with this name and these statements.
    pub(crate) fn new(name: &'a str, stmts: Vec<Stmt>) -> SourceStmts<'a>
        ensures { result ≡ record { name = name.now; stmts = stmts.items } }
    {
        SourceStmts { name, stmts }
    }

    /// The name of its file.
    pub(crate) fn name(&self) -> &'a str
        ensures { result.now ≡ self.now.name }
    {
        self.name
    }

    /// Its statements, in order.
    pub(crate) fn stmts(&self) -> &[Stmt]
        ensures { result.now ≡ self.now.stmts }
    {
        self.stmts.as_slice()
    }
}
