/// What else sessions may ask for.
#[derive(Clone, Copy, Debug, PartialEq, Eq)]
pub struct Extras {
    /// States by rising cost, up to this cost.
    pub levels: Option<u32>,
    /// The graph of the diagnoses.
    pub least: bool,
}
