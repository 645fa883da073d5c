//! One place where a handset looks for downlink control information.
use arrayvec::ArrayVec;
use coreset_map::Reg;
use dci_fields::FieldList;
use rrc_settings::SetKind;

/// A candidate of a search space set at one size: a handset tries to hear the formats of that size there.
#[derive(Debug, Drop, PartialEq, Eq)]
pub struct Watch {
    /// The number of the set.
    pub set: u16,
    /// The kind of the set.
    pub kind: SetKind,
    /// The symbol of the slot at which the candidate begins.
    pub symbol: u8,
    /// The aggregation level: how many CCEs the candidate has.
    pub level: u8,
    /// The number of the candidate among those of its level.
    pub candidate: u8,
    /// The size of the payload in bits.
    pub size: u16,
    /// The fields of the uplink format, where it has this size in the set.
    pub up: Option<FieldList>,
    /// The fields of the downlink format, where it has this size in the set.
    pub down: Option<FieldList>,
    /// The REGs of the candidate, by symbol and then by block.
    pub regs: ArrayVec<Reg, 96>,
    /// The identity of the reference signal.
    pub dmrs_id: u16,
    /// What the scrambling begins with.
    pub scramble: u32,
    /// The identity that masks the parity.
    pub rnti: u16,
}
