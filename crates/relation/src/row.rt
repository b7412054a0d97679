//! Rows of relations.

ghost use Rattle.std.specs.Prelude.{◌≡◌, slice_index};

use formula::Binding;

/// A binding and its ticks.
#[derive(Drop)]
pub struct Row<S> {
    pub key: Binding,
    pub set: S,
}

impl<S> Row<S> {
    // The object at a place of the key, or 0 past its end.
    #[inline]
    pub(crate) fn id_at(&self, place: usize) -> u32
        ensures { result ≡ slice_index self.now.key place }
    {
        self.key.get(place).unwrap_or(0)
    }
}
