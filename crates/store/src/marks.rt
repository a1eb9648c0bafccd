//! The marks that say how each call of a store goes.

/// How one call goes.
#[derive(Clone, Copy, Default)]
pub enum Mark {
    /// The call is passed on.
    #[default]
    Fair,
    /// The call is not passed on, and answers Unavailable.
    Lost,
    /// A `put` is passed on, and any call answers Unavailable.
    Late,
}
