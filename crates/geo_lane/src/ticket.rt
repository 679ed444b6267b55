//! What is put into a lane.
use geo_base::BioId;

/// A step that its sender takes to be due. It is a hint: nothing is done by putting it.
#[derive(Clone, Copy, Debug, PartialEq, Eq)]
pub enum TicketStep {
    /// Start the bio.
    Start(BioId),
    /// Take the bio to this disk.
    Take { disk: u32, bio: BioId },
    /// Give the bio's result up.
    Up(BioId),
}

/// A hint, under the number of the pass that puts it and how many that pass had put before.
#[derive(Clone, Copy, Debug, PartialEq, Eq)]
pub struct Ticket {
    pub sender: u32,
    pub number: u64,
    pub step: TicketStep,
}
