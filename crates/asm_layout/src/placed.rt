//! Statements with their places, the result of the layout (docs/rules/sources.md).
ghost use Rattle.std.specs.Prelude.{◌≡◌, length, None, Some, IfOk};
ghost use Rattle.asm_layout.specs.PlacedStmt.{word_in, puts_in};
ghost use Rattle.asm_layout.specs.Placing.{moved_word, with_pool_place, has_words, puts_pool};

use crate::word::Words;
use asm_relocatable::place::Place;
use asm_statements::Stmt;
use std::alloc::{AllocError, Global};
use std::marker::Model;

/// A literal pool. It begins at the next multiple of 4 from `from` on.
#[derive(Drop)]
pub struct PlacedPool {
    /// The place in the text, in bytes from its start, after which the pool comes.
    pub from: u64,
    /// Its words.
    pub words: Words,
}

/// A function at its `.fnstart`. Its unwind table begins at the next multiple of 4 from `from` on.
#[derive(Clone, Copy)]
pub struct PlacedFunction {
    /// The function's place in the text, in bytes from its start.
    pub start: u64,
    /// The place in the exception tables, in bytes from their start, after which the function's table comes.
    pub from: u64,
    /// The function's number in the order of the text, counted from 0.
    pub number: usize,
}

/// What a statement emits besides its own bytes.
#[derive(Drop)]
pub enum Puts {
    /// Nothing.
    Nothing,
    /// The literal pool, at a `.pool` in the text.
    Pool(PlacedPool),
    /// The function's unwind table, at a `.fnstart` outside of a function.
    Function(PlacedFunction),
}

/// What few statements have: a pool word that they load (its place in the text), or something that they emit besides
/// their bytes.
#[derive(Drop)]
pub struct Extra {
    word: Option<u64>,
    puts: Puts,
}

/// A statement with its place. Its pool word and what it emits besides its own bytes are boxed, since most have
/// neither.
#[derive(Drop)]
pub struct PlacedStmt<'a> {
    /// The statement.
    pub stmt: &'a Stmt,
    /// Where its bytes begin.
    pub at: Place,
    extra: Option<Box<Extra>>,
}

impl<'a> Model for PlacedStmt<'a> {
    ghost use Rattle.asm_layout.specs.PlacedStmt.{PlacedStmt as Fields, word_in, puts_in};

    ghost Value = { Fields };

    ghost view = { λ p. record { stmt = p.stmt.now; at = p.at; word = word_in p.extra; puts = puts_in p.extra } };
}

/// The place of a pool word, given its offset in the first of these pools.
fn moved_word(pools: &[u64], word: Option<u64>) -> Option<u64>
    ensures { result ≡ moved_word pools.now word }
{
    match (pools, word) {
        ([pool, ..], Some(offset)) => Some(pool.saturating_add(offset)),
        _ => word,
    }
}

/// Boxes a word and what is emitted; no box if there is neither.
fn boxed_extra(
    alloc: Global,
    word: Option<u64>,
    puts: Puts,
) -> Result<Option<Box<Extra>>, AllocError>
    ensures word { IfOk result (λ extra. word_in extra ≡ word) }
    ensures puts { IfOk result (λ extra. puts_in extra ≡ puts) }
{
    match (word, puts) {
        (None, Puts::Nothing) => Ok(None),
        (word, puts) => Ok(Some(Box::new(alloc, Extra { word, puts })?)),
    }
}

impl<'a> PlacedStmt<'a> {
    /// A statement at a place, with the pool word that it loads and what it emits.
    pub(crate) fn new(
        alloc: Global,
        stmt: &'a Stmt,
        at: Place,
        word: Option<u64>,
        puts: Puts,
    ) -> Result<PlacedStmt<'a>, AllocError>
        ensures { IfOk result (λ placed. placed ≡ record { stmt = stmt.now; at = at; word = word; puts = puts }) }
    {
        Ok(PlacedStmt {
            stmt,
            at,
            extra: boxed_extra(alloc, word, puts)?,
        })
    }

    /// The place in the text, in bytes from its start, of the pool word that it loads.
    pub fn word(&self) -> Option<u64>
        ensures { result ≡ self.now.word }
    {
        match &self.extra {
            Some(extra) => extra.word,
            None => None,
        }
    }

    /// What it emits besides its own bytes.
    pub fn into_puts(self) -> Puts
        ensures { result ≡ self.entry.puts }
    {
        match self.extra {
            Some(extra) => Box::into_inner(extra).puts,
            None => Puts::Nothing,
        }
    }

    /// Whether it emits a pool with words.
    pub(crate) fn puts_pool(&self) -> bool
        ensures { result ≡ puts_pool self.now }
    {
        let Some(extra) = &self.extra else {
            return false;
        };
        match &extra.puts {
            Puts::Pool(pool) => !pool.words.is_empty(),
            Puts::Function(_) | Puts::Nothing => false,
        }
    }

    /// Turns the offset of its pool word into a place; the pool is the first of these.
    pub(crate) fn move_word(&mut self, pools: &[u64])
        ensures { self.new ≡ with_pool_place pools.now self.old }
    {
        if let Some(extra) = &mut self.extra {
            extra.word = moved_word(pools, extra.word);
        }
    }
}
