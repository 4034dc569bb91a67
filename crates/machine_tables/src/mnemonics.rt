//! The mnemonics, as columns 16 to 20 of a source line have them: one for each operation of this machine, then those
//! that say a d-character or the kind of one, and then those of features that this machine hasn't got.

/// `A`.
pub const ADD: [u8; 5] = *b"A    ";

/// `S`.
pub const SUBTRACT: [u8; 5] = *b"S    ";

/// `?`.
pub const ZERO_ADD: [u8; 5] = *b"ZA   ";

/// `!`.
pub const ZERO_SUBTRACT: [u8; 5] = *b"ZS   ";

/// `M`.
pub const MOVE: [u8; 5] = *b"MCW  ";

/// `L`.
pub const LOAD: [u8; 5] = *b"LCA  ";

/// `D`.
pub const MOVE_DIGIT: [u8; 5] = *b"MN   ";

/// `Y`.
pub const MOVE_ZONE: [u8; 5] = *b"MZ   ";

/// `,`.
pub const SET_WORD_MARK: [u8; 5] = *b"SW   ";

/// `)`.
pub const CLEAR_WORD_MARK: [u8; 5] = *b"CW   ";

/// `/`.
pub const CLEAR_STORAGE: [u8; 5] = *b"CS   ";

/// `C`.
pub const COMPARE: [u8; 5] = *b"C    ";

/// `Z`.
pub const ZERO_SUPPRESS: [u8; 5] = *b"MCS  ";

/// `E`.
pub const EDIT: [u8; 5] = *b"MCE  ";

/// `B`.
pub const BRANCH: [u8; 5] = *b"B    ";

/// `V`.
pub const BRANCH_ON_CELL: [u8; 5] = *b"BWZ  ";

/// `Q`.
pub const STORE_A: [u8; 5] = *b"SAR  ";

/// `H`.
pub const STORE_B: [u8; 5] = *b"SBR  ";

/// `N`.
pub const NO_OPERATION: [u8; 5] = *b"NOP  ";

/// `.`.
pub const HALT: [u8; 5] = *b"H    ";

/// `K`.
pub const SELECT_STACKER: [u8; 5] = *b"SS   ";

/// `1`.
pub const READ_CARD: [u8; 5] = *b"R    ";

/// `2`.
pub const WRITE_LINE: [u8; 5] = *b"W    ";

/// `3`.
pub const WRITE_AND_READ: [u8; 5] = *b"WR   ";

/// `4`.
pub const PUNCH_CARD: [u8; 5] = *b"P    ";

/// `5`.
pub const READ_AND_PUNCH: [u8; 5] = *b"RP   ";

/// `6`.
pub const WRITE_AND_PUNCH: [u8; 5] = *b"WP   ";

/// `7`.
pub const WRITE_READ_AND_PUNCH: [u8; 5] = *b"WRP  ";

/// `F`.
pub const CONTROL_CARRIAGE: [u8; 5] = *b"CC   ";

/// `B` with two addresses and a d-character.
pub const BRANCH_ON_CHARACTER: [u8; 5] = *b"BCE  ";

/// `B` with the letter of a sense switch.
pub const BRANCH_ON_SWITCH: [u8; 5] = *b"BSS  ";

/// `B` with `/`.
pub const BRANCH_UNEQUAL: [u8; 5] = *b"BU   ";

/// `B` with `Z`.
pub const BRANCH_OVERFLOW: [u8; 5] = *b"BAV  ";

/// `B` with `A`.
pub const BRANCH_LAST_CARD: [u8; 5] = *b"BLC  ";

/// `B` with `9`.
pub const BRANCH_CHANNEL_NINE: [u8; 5] = *b"BC9  ";

/// `B` with `@`.
pub const BRANCH_CHANNEL_TWELVE: [u8; 5] = *b"BCV  ";

/// `B` with `S`.
pub const BRANCH_EQUAL: [u8; 5] = *b"BE   ";

/// `B` with `T`.
pub const BRANCH_LOW: [u8; 5] = *b"BL   ";

/// `B` with `U`.
pub const BRANCH_HIGH: [u8; 5] = *b"BH   ";

/// `V` with `1`.
pub const BRANCH_ON_WORD_MARK: [u8; 5] = *b"BW   ";

/// `2` with `)`.
pub const WRITE_WORD_MARKS: [u8; 5] = *b"WM   ";

/// `@`.
pub const MULTIPLY: [u8; 5] = *b"M    ";

/// `%`.
pub const DIVIDE: [u8; 5] = *b"D    ";

/// `U`.
pub const CONTROL_UNIT: [u8; 5] = *b"CU   ";

/// `8`.
pub const START_READ_FEED: [u8; 5] = *b"SRF  ";

/// `9`.
pub const START_PUNCH_FEED: [u8; 5] = *b"SPF  ";

/// `P`.
pub const MOVE_RECORD: [u8; 5] = *b"MCM  ";

/// `X`.
pub const MOVE_AND_INSERT_ZEROS: [u8; 5] = *b"MIZ  ";

/// `W`.
pub const BRANCH_ON_BIT: [u8; 5] = *b"BBE  ";

/// `#`.
pub const MODIFY_ADDRESS: [u8; 5] = *b"MA   ";
