//! Transfers, the transactions of a purse.

/// A transfer, decoded from a transaction.
#[derive(Clone, Copy)]
pub struct Transfer {
    pub from: u8,
    pub to: u8,
    pub amount: u32,
    pub nonce: u32,
}

/// The number of bytes of a transfer.
const TRANSFER_LEN: usize = 10;

impl Transfer {
    ghost use Rattle.std.specs.Prelude.{◌≢◌, ◌↔◌, length, IsNone, IfSome};
    ghost use Rattle.app_kinds.specs.Purses.{IsTransferOf};

    /// The transfer that ten bytes encode: `u8 from || u8 to || u32 amount || u32 nonce`. `None` for any other number of bytes.
    pub fn read(bytes: &[u8]) -> Option<Self>
        ensures none { IsNone result ↔ (length bytes.now ≢ 10) }
        ensures read { IfSome result (IsTransferOf bytes.now) }
    {
        if bytes.len() != TRANSFER_LEN {
            return None;
        }
        Some(Transfer {
            from: bytes[0],
            to: bytes[1],
            amount: u32::from_be_bytes([bytes[2], bytes[3], bytes[4], bytes[5]]),
            nonce: u32::from_be_bytes([bytes[6], bytes[7], bytes[8], bytes[9]]),
        })
    }
}
