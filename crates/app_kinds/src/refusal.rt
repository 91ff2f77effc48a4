//! Why an application refuses a transaction, and the code for it.

/// Why an application refuses a transaction.
#[derive(Clone, Copy)]
pub enum Refusal {
    /// The bytes are no transaction of this application.
    Misspelled,
    /// The number is not the next one.
    OutOfTurn,
    /// The sender has less than the amount.
    Overdrawn,
    /// Sender and receiver are the same account.
    ToItself,
}

impl Refusal {
    ghost use Rattle.std.specs.Prelude.{◌≡◌};
    ghost use Rattle.app_kinds.specs.Codes.{code_of};

    /// The code in ABCI's answer, 1 to 4.
    pub fn code(self) -> u32
        ensures { result ≡ code_of self }
    {
        match self {
            Refusal::Misspelled => 1,
            Refusal::OutOfTurn => 2,
            Refusal::Overdrawn => 3,
            Refusal::ToItself => 4,
        }
    }
}
