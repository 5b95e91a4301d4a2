//! A visible node as a search sees it.

/// A visible node.
#[derive(Clone, Copy)]
pub(crate) struct Row<'t> {
    pub depth: u32,
    pub name: &'t str,
    pub named: bool,
    pub fields: &'t [u16],
    pub start: u32,
    pub end: u32,
}
