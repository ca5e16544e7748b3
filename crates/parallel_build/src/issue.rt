/// That a permit was made, for the network of this name in this version of a project.
#[derive(Clone, Copy, Debug, PartialEq, Eq)]
pub struct Issue {
    /// The number of the name.
    pub name: u32,
    /// The number of the version.
    pub version: u64,
}
