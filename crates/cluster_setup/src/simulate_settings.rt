//! The settings of `abft simulate`.

/// The settings of `abft simulate`; everything else is in the scenario.
#[derive(Drop)]
pub struct SimulateSettings {
    /// The seed of all keys.
    pub seed: [u8; 32],
    /// Whether histories are written instead of lines.
    pub histories: bool,
}
