//! One account of a purse.

/// An account: its balance, and the number of transfers that it sent.
#[derive(Clone, Copy)]
pub struct Account {
    pub balance: u32,
    pub nonce: u32,
}

impl Account {
    ghost use Rattle.std.specs.Prelude.{◌≡◌, ◌++◌};
    ghost use Rattle.std.specs.Int.{w32, to_be_bytes};

    /// The encoding `u32 balance || u32 nonce`.
    pub fn to_bytes(self) -> [u8; 8]
        ensures { result ≡ to_be_bytes w32 self.balance ++ to_be_bytes w32 self.nonce }
    {
        let [a, b, c, d] = self.balance.to_be_bytes();
        let [e, f, g, h] = self.nonce.to_be_bytes();
        [a, b, c, d, e, f, g, h]
    }
}
