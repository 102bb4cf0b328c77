use model::Literal;

/// A call of a session, with its arguments. Alternatives and choices count from 1.
#[derive(Clone, Copy)]
pub enum Call<'a> {
    /// Declares one more alternative, with the raw weight of each choice.
    Declare {
        weights: &'a [u32],
    },
    /// Sets the raw weight of one choice.
    SetWeight {
        alternative: u8,
        choice: u8,
        weight: u32,
    },
    /// States a rule.
    State {
        head: u8,
        body: &'a [Literal],
    },
    /// Asks whether a choice may be supposed.
    Check {
        alternative: u8,
        choice: u8,
    },
    /// Begins to suppose a choice.
    Suppose {
        alternative: u8,
        choice: u8,
    },
    /// Ends the latest supposing that has not ended.
    End,
}
