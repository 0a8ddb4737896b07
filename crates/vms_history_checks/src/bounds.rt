use vms_text::Boundary;

/// A boundary line, and how many phases stand before it.
#[derive(Clone, Copy, Debug, PartialEq, Eq)]
pub struct BoundaryAt {
    pub after: u32,
    pub boundary: Boundary,
}
