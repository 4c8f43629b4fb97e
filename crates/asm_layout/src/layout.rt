//! Lays out a source: the places of its statements and labels, and the refusals that come of them (docs/rules/sources.md).
ghost use Rattle.std.specs.Prelude.{◌≡◌, [], ◌++◌, map, IfOk, OnOk, None};
ghost use Rattle.asm_layout.specs.Faults.{first_of_all};
ghost use Rattle.asm_layout.specs.Walks.{start, pools_if, pools_from, walk_after};
ghost use Rattle.asm_layout.specs.Placing.{place_stmts, last_pool, unresolved_stmts, places_after, with_pool_places};
ghost use Rattle.asm_layout.specs.Labels.{labels_of, name_with_label, duplicates_from, too_large_from};

use crate::fault::{AsmFault, AsmWhat, first_if};
use crate::labels::{DefinedLabels, Labels, define_labels};
use crate::placed::{PlacedPool, PlacedStmt};
use crate::walk::Walk;
use asm_statements::Stmt;
use asm_unwind::EntryWords;
use eh_word::Seq;
use std::alloc::{AllocError, Global};

/// The layout of a source.
#[derive(Drop)]
pub struct Layout<'a> {
    /// The statements with their places, in the order of the text.
    pub placed: Vec<PlacedStmt<'a>>,
    /// The pool at the end of the text.
    pub last: PlacedPool,
    /// The labels.
    pub labels: Labels,
    /// The size of the bss section in bytes.
    pub bss: u64,
    /// The refusal of the first label whose name was taken.
    pub duplicate: Option<AsmFault>,
    /// The refusal at the first line after which a section is too large.
    pub too_large: Option<AsmFault>,
}

/// A layout before the places of the pools are known: the word of a statement is still an offset in its pool. `pools`
/// has the start of each pool with words, in the order of the text.
#[derive(Drop)]
struct PlacedStmts<'a> {
    placed: Vec<PlacedStmt<'a>>,
    pools: Seq<u64>,
    last: PlacedPool,
    bss: u64,
    too_large: Option<AsmFault>,
}

/// Adds the place of a pool if it ends here.
fn push_if(pools: &mut Seq<u64>, ends: bool, walk: &Walk) -> Result<(), AllocError>
    ensures { OnOk result (pools.new ≡ pools.old ++ pools_if ends walk.now) }
{
    if ends {
        pools.push(walk.pool_place())?;
    }
    Ok(())
}

/// Walks over the statements once.
fn place_all<'a>(
    alloc: Global,
    stmts: &'a [Stmt],
    entries: &[Option<EntryWords>],
) -> Result<PlacedStmts<'a>, AllocError>
    ensures placed { IfOk result (λ stood. stood.placed.items ≡ unresolved_stmts entries.now start stmts.now) }
    ensures pools { IfOk result (λ stood. stood.pools ≡ pools_from entries.now start stmts.now) }
    ensures last { IfOk result (λ stood. stood.last ≡ last_pool entries.now start stmts.now) }
    ensures bss { IfOk result (λ stood. stood.bss ≡ (walk_after entries.now start stmts.now).at.sizes.bss) }
    ensures too_large { IfOk result (λ stood.
        stood.too_large ≡ first_of_all None (too_large_from entries.now start 0 stmts.now)) }
{
    let mut placed = Vec::with_capacity(alloc, stmts.len())?;
    let mut pools = Seq::new(alloc);
    let mut too_large = None;
    let mut last = 0;
    let mut walk = Walk::new(alloc);
    for stmt in stmts {
        push_if(&mut pools, walk.ends_pool(&stmt.kind), &walk)?;
        placed.push(walk.place(alloc, stmt, entries)?)?;
        let is_large = walk.at.sizes.is_too_large();
        too_large = first_if(too_large, is_large, stmt.line, AsmWhat::SectionTooLarge);
        last = stmt.line;
    }
    push_if(&mut pools, walk.pool.len() > 0, &walk)?;
    let is_large = walk.sizes_with_pool().is_too_large();
    Ok(PlacedStmts {
        placed,
        pools,
        bss: walk.at.sizes.bss,
        too_large: first_if(too_large, is_large, last, AsmWhat::SectionTooLarge),
        last: walk.into_pool(alloc)?,
    })
}

/// The places of the pools that are still to come after a statement, which may end the first of them.
fn places_after(places: &[u64], ends: bool) -> &[u64]
    ensures { result.now ≡ places_after places.now ends }
{
    match places {
        [_, more @ ..] if ends => more,
        _ => places,
    }
}

/// Turns the offsets of pool words into places, given where the pools begin.
fn resolve(placed: &mut [PlacedStmt<'_>], pools: &[u64])
    ensures { placed.new ≡ with_pool_places pools.now placed.old }
{
    let mut pools = pools;
    for one in placed.iter_mut() {
        let ends = one.puts_pool();
        one.move_word(pools);
        pools = places_after(pools, ends);
    }
}

/// Lays out statements, given the unwind entries of their functions. Err only if memory runs out.
pub fn layout_of<'a>(
    alloc: Global,
    stmts: &'a [Stmt],
    entries: &[Option<EntryWords>],
) -> Result<Layout<'a>, AllocError>
    ensures placed { IfOk result (λ layout. layout.placed.items ≡ place_stmts entries.now stmts.now) }
    ensures last { IfOk result (λ layout. layout.last ≡ last_pool entries.now start stmts.now) }
    ensures labels { IfOk result (λ layout.
        layout.labels ≡ map (name_with_label entries.now stmts.now) (labels_of entries.now stmts.now)) }
    ensures bss { IfOk result (λ layout. layout.bss ≡ (walk_after entries.now start stmts.now).at.sizes.bss) }
    ensures duplicate { IfOk result (λ layout. layout.duplicate ≡ first_of_all None (duplicates_from [] stmts.now)) }
    ensures too_large { IfOk result (λ layout.
        layout.too_large ≡ first_of_all None (too_large_from entries.now start 0 stmts.now)) }
{
    let PlacedStmts {
        mut placed,
        pools,
        last,
        bss,
        too_large,
    } = place_all(alloc, stmts, entries)?;
    resolve(placed.as_mut_slice(), pools.as_slice());
    let DefinedLabels {
        mut labels,
        duplicate,
    } = define_labels(alloc, placed.as_slice())?;
    labels.apply_directives(stmts);
    Ok(Layout {
        placed,
        last,
        labels,
        bss,
        duplicate,
        too_large,
    })
}
