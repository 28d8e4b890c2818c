/// The mode of a resource (JSON Output Format, "Values Representation", `mode`).
#[derive(Clone, Copy, Debug, PartialEq, Eq, Hash)]
pub enum Mode {
    /// `managed`: a resource that is created, updated and deleted.
    Managed,
    /// `data`: a data source, which is read.
    DataSource,
}
