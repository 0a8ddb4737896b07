use vms_base::Row;

/// The parent of each group, which is declared above it, or none; in order of declaration.
pub type Parents = Row<Option<u32>>;

/// A tree of groups whose changes several CPUs count, or several such trees. A group's number is its place in the order
/// of declaration.
#[derive(Debug, Drop)]
pub struct Tree {
    pub parents: Parents,
    pub cpus: u32,
}
