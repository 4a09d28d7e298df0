/// What opening a level answers.
#[derive(Clone, Copy, Debug, PartialEq, Eq)]
pub enum Begun {
    /// The level that is open now, from 1.
    Level(u8),
    /// 255 levels are open, and none is opened.
    TooDeep,
}

/// What ending a level answers.
#[derive(Clone, Copy, Debug, PartialEq, Eq)]
pub enum Ended {
    /// The level that is left, from 0.
    Level(u8),
    /// No level was open.
    NoTran,
}
