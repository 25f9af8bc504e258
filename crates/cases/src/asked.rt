//! What answers asks.

use std::alloc::AllocError;

/// What answers the asks of a text.
pub trait Asked {
    /// A case begins: what earlier ones left is forgotten, and what stood before the first one stays.
    fn begin(&mut self);

    /// Puts the answer to an ask behind `answer`, in whole lines; an ask that isn't known is answered `no such ask`. `given` is what
    /// stands below the ask.
    fn answer(&mut self, ask: &str, given: &[u8], answer: &mut Vec<u8>) -> Result<(), AllocError>;
}
