//! What a query is asked of.
use object_store::Store;
use polygon::Regions;
use relation::Domains;
use tick_set::Window;

/// What a formula is asked of: the objects that its variables range over, a store and its regions, and a window, after
/// whose last tick nothing counts. Each position may be off by the error along each axis, in thousandths.
#[derive(Clone, Copy)]
pub(crate) struct Scene<'a> {
    pub domains: &'a Domains,
    pub store: &'a Store,
    pub regions: &'a Regions,
    pub error: u32,
    pub w: Window,
}
