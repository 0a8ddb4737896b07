use vms_base::{Name, Row};
use vms_group_core::Tree;

/// What a trace of groups says before its `go` line: the tree, and the names of its groups in order of declaration.
#[derive(Debug, Drop)]
pub struct GroupHeader {
    pub tree: Tree,
    pub names: Row<Name>,
}
