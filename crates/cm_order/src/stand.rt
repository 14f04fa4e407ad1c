//! A level on a way down.

ghost use Rattle.std.specs.Prelude.{◌≡◌, false, None};

/// A level on a way down, and what is known of it.
#[derive(Drop)]
pub(crate) struct Stand {
    /// The instance whose level it is.
    pub inc: u64,
    /// The children up to this one are shut, with all below them; `None` says nothing.
    pub done: Option<u64>,
    /// Whether all below the instance is shut; `false` says nothing.
    pub below_shut: bool,
}

impl Stand {
    /// A level that wasn't looked at.
    pub(crate) fn new(inc: u64) -> Stand
        ensures { result ≡ record { inc = inc; done = None; below_shut = false } }
    {
        Stand {
            inc,
            done: None,
            below_shut: false,
        }
    }
}
