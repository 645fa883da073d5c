//! Why a handset hears nothing at a watch.
use dmrs_qpsk::BadPlace;

/// The stage of hearing that fails first.
#[derive(Clone, Copy, Debug, PartialEq, Eq)]
pub enum Silence {
    /// A data place is empty, or a reference place has not its reference point: the first such place.
    Spot(BadPlace),
    /// A bit is sent twice and was received as both 0 and 1.
    Repeat {
        /// The place of the first such repeat among the received bits.
        at: usize,
    },
    /// The repeats agree, but no block has the received bits as its code.
    Code,
    /// The block is no payload with its parity masked by the identity of the watch.
    Crc,
    /// No format that fits the watch has the payload.
    Format,
}
