//! What tells of atoms and terms at one binding.

use formula::{Binding, Env};

// A binding, what is asked of atoms and terms there, and the values that are bound.
#[derive(Drop)]
pub(crate) struct Here<'a, I> {
    pub(crate) source: &'a I,
    pub(crate) binding: &'a Binding,
    pub(crate) values: &'a Env,
}
