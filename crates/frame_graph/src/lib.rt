//! One function of an image as the frame checker sees it: its code, where each instruction leads, and what the unwind entries tell of
//! its sites. docs/rules/acceptance.md states the rules.
#![tactic(auto)]

pub mod edges;
pub mod entry_cache;
pub mod flow_graph;
pub mod kept_places;
pub mod laws;
pub mod lowering;
pub mod places;
pub mod site_cache;
pub mod sites;

pub use edges::Edge;
pub use entry_cache::EntryCache;
pub use flow_graph::FlowGraph;
pub use site_cache::SiteCache;
