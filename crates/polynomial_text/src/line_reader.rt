//! In which field, order and names a line is read.
use poly_core::Names;
use std::alloc::Global;

/// In which field, order and names a line is read.
#[derive(Drop)]
pub(crate) struct LineReader<'a, F, O> {
    pub alloc: Global,
    pub field: &'a F,
    pub order: &'a O,
    pub names: &'a Names,
}
