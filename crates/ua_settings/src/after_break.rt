//! What is done once a store is broken.

ghost use Rattle.std.specs.Prelude.{◌≡◌};
ghost use Rattle.ua_settings.specs.Settings.{ends_serving};

/// What `serve` does once its store is broken.
#[derive(Clone, Copy, Debug, PartialEq, Eq)]
pub enum AfterBreak {
    /// It serves on, and answers that the store failed.
    GoOn,
    /// It ends.
    Stop,
    /// It opens the store's file anew and serves on, once; at the second break it ends.
    Reopen,
}

impl AfterBreak {
    /// Whether nobody is served over a store that is broken.
    pub fn ends_serving(self) -> bool
        ensures { result ≡ ends_serving self }
    {
        match self {
            AfterBreak::GoOn => false,
            AfterBreak::Stop | AfterBreak::Reopen => true,
        }
    }
}
