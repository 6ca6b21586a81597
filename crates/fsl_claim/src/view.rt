//! What one pass knows of the claims. No value of these types is read when the program runs: contracts
//! and the rule of the two words speak of them.
use fsl_base::List;

/// What one pass, or several that were put together, knows.
pub struct View {
    /// How many units there are.
    pub units: u32,
    /// How many passes were made together.
    pub workers: u32,
    /// The numbers that were drawn, the last one first.
    pub drawn: List<u32>,
    /// The numbers that were reported, the last one first.
    pub reported: List<u32>,
    /// How many draws found no number left.
    pub ended: u64,
    /// The least number that was seen reported; at first the number of units.
    pub seen: u32,
    /// How often the least number was looked at.
    pub looks: u64,
    /// How many passes this stands for; 0 where all that it knew went over to another pass.
    pub passes: u32,
}

/// What the two words are told once, when they are made.
#[derive(Clone, Copy)]
pub struct Plan {
    pub units: u32,
    pub workers: u32,
}
