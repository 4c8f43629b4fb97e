//! Lists of expressions. Most long lists hold only numbers; these take eight bytes each.
ghost use Rattle.std.specs.Prelude.{◌≡◌, ◌==◌, ◌++◌, ◌∷◌, [], length, IfOk, OnOk};
ghost use Rattle.asm_statements.specs.declared.statement.Expr.TheVariants.{Num};
ghost use Rattle.asm_statements.specs.Exprs.{number_exprs, lent_exprs};

use crate::statement::Expr;
use std::alloc::{AllocError, Global};
use std::marker::Model;

/// How a list is stored.
#[derive(Drop)]
enum ExprStorage {
    /// Only numbers, or nothing.
    Numbers(Vec<i64>),
    /// Any expressions.
    Mixed(Vec<Expr>),
}

/// A list of expressions. Contracts see a list.
#[derive(Drop)]
pub struct Exprs {
    held: ExprStorage,
}

impl Model for Exprs {
    ghost use Rattle.std.specs.Prelude.{List};
    ghost use Rattle.asm_statements.specs.declared.statement.Expr.{Expr};

    ghost Value = { List Expr };

    ghost use Rattle.asm_statements.specs.Exprs.{storage_exprs};

    ghost view = { λ e. storage_exprs e.held };
}

/// A borrowed list of expressions.
#[derive(Clone, Copy)]
pub enum ExprsRef<'a> {
    /// Only numbers, or nothing.
    Numbers(&'a [i64]),
    /// Any expressions.
    Mixed(&'a [Expr]),
}

/// Appends a number. The first one reserves room for `most`.
fn add_number(numbers: &mut Vec<i64>, most: usize, n: i64) -> Result<(), AllocError>
    ensures { OnOk result (numbers.new.items ≡ numbers.old.items ++ n ∷ []) }
{
    if numbers.is_empty() {
        numbers.reserve_exact(most)?;
    }
    numbers.push(n)?;
    Ok(())
}

/// Appends an expression.
fn add(exprs: &mut Vec<Expr>, expr: Expr) -> Result<(), AllocError>
    ensures { OnOk result (exprs.new.items ≡ exprs.old.items ++ expr ∷ []) }
{
    exprs.push(expr)?;
    Ok(())
}

/// Numbers as expressions, with room for `most`.
fn exprs_of_numbers(alloc: Global, most: usize, numbers: &[i64]) -> Result<Vec<Expr>, AllocError>
    ensures { IfOk result (λ exprs. exprs.items ≡ number_exprs numbers.now) }
{
    let mut exprs = Vec::with_capacity(alloc, most)?;
    for n in numbers {
        add(&mut exprs, Expr::Num(*n))?;
    }
    Ok(exprs)
}

impl Exprs {
    /// An empty list, without allocation.
    pub fn new(alloc: Global) -> Exprs
        ensures { result ≡ [] }
    {
        Exprs {
            held: ExprStorage::Numbers(Vec::new(alloc)),
        }
    }

    /// Borrows the expressions, in order.
    pub fn as_exprs_ref(&self) -> ExprsRef<'_>
        ensures { lent_exprs result ≡ self.now }
    {
        match &self.held {
            ExprStorage::Numbers(numbers) => ExprsRef::Numbers(numbers.as_slice()),
            ExprStorage::Mixed(exprs) => ExprsRef::Mixed(exprs.as_slice()),
        }
    }

    /// The number of expressions.
    pub fn len(&self) -> usize
        ensures { result ≡ length self.now }
    {
        match &self.held {
            ExprStorage::Numbers(numbers) => numbers.len(),
            ExprStorage::Mixed(exprs) => exprs.len(),
        }
    }

    /// Whether the list is empty.
    pub fn is_empty(&self) -> bool
        ensures { result ≡ (length self.now == 0) }
    {
        self.len() == 0
    }

    /// Appends a number. The first expression reserves room for `most`. Err if memory runs out.
    #[tactic(auto, using(crate::proofs::Lists::number_after_numbers))]
    pub fn push_number(&mut self, most: usize, n: i64) -> Result<(), AllocError>
        ensures { OnOk result (self.new ≡ self.old ++ Num n ∷ []) }
    {
        match &mut self.held {
            ExprStorage::Numbers(numbers) => add_number(numbers, most, n),
            ExprStorage::Mixed(exprs) => add(exprs, Expr::Num(n)),
        }
    }

    /// Appends an expression. The first one that is no number reserves room for `most`. Err if memory runs out.
    pub fn push(&mut self, alloc: Global, most: usize, expr: Expr) -> Result<(), AllocError>
        ensures { OnOk result (self.new ≡ self.old ++ expr ∷ []) }
    {
        match &mut self.held {
            ExprStorage::Numbers(numbers) => {
                let mut exprs = exprs_of_numbers(alloc, most, numbers.as_slice())?;
                add(&mut exprs, expr)?;
                self.held = ExprStorage::Mixed(exprs);
                Ok(())
            }
            ExprStorage::Mixed(exprs) => add(exprs, expr),
        }
    }

    /// Frees unused room.
    pub fn shrink_to_fit(&mut self)
        ensures { self.new ≡ self.old }
    {
        match &mut self.held {
            ExprStorage::Numbers(numbers) => numbers.shrink_to_fit(),
            ExprStorage::Mixed(exprs) => exprs.shrink_to_fit(),
        }
    }
}
