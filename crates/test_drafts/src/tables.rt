//! Tables whose numbers rise by a step, as texts and as they are read.
use crate::fault::DraftFault;
use std::alloc::{AllocError, Global};
use table_files::{Tables, read_input_order, read_reliability};

/// Numbers that rise by a step from a first one on, modulo a size: as many as the size.
pub fn stepped(alloc: Global, size: u32, first: u32, step: u32) -> Result<String, AllocError> {
    let mut text = String::new(alloc);
    for at in 0..u64::from(size) {
        write!(
            text,
            "{} ",
            (u64::from(first) + u64::from(step) * at) % u64::from(size)
        )?;
    }
    Ok(text)
}

/// The tables whose numbers rise by a step from a first one on, modulo their sizes.
pub fn tables_of(
    alloc: Global,
    reliability: (u32, u32),
    input_order: (u32, u32),
) -> Result<Tables, DraftFault> {
    let channels = stepped(alloc, 1024, reliability.0, reliability.1)?;
    let inputs = stepped(alloc, 164, input_order.0, input_order.1)?;
    Ok(Tables {
        reliability: read_reliability(channels.as_bytes()).map_err(|_| DraftFault::Illegal)?,
        input_order: read_input_order(inputs.as_bytes()).map_err(|_| DraftFault::Illegal)?,
    })
}

/// The two tables with ascending numbers.
pub fn ascending_tables(alloc: Global) -> Result<Tables, DraftFault> {
    tables_of(alloc, (0, 1), (0, 1))
}
