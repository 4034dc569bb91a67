//! The texts of the help that are made of tables.
use crate::call::DEFAULT_SIZE;
use core_1401::SIZES;
use std::alloc::{AllocError, Global};

/// The texts of the help that are made of tables.
#[derive(Drop)]
pub(crate) struct HelpTexts {
    /// The help of the option `--size`, which names each size.
    pub(crate) sizes: String,

    /// The digits of its default.
    pub(crate) default_size: String,
}

impl HelpTexts {
    /// The texts of `SIZES` and `DEFAULT_SIZE`.
    pub(crate) fn new(alloc: Global) -> Result<HelpTexts, AllocError> {
        let mut sizes = String::from_str(alloc, "The places of core storage:")?;
        for (place, size) in SIZES.iter().enumerate() {
            let front = if place == 0 {
                " "
            } else if place + 1 == SIZES.len() {
                " or "
            } else {
                ", "
            };
            sizes.push_str(format!(in alloc; "{front}{size}")?.as_str())?;
        }
        let default_size = format!(in alloc; "{DEFAULT_SIZE}")?;
        Ok(HelpTexts {
            sizes,
            default_size,
        })
    }
}
