//! Whether something was carried.

ghost use Rattle.std.specs.Prelude.{◌≡◌, ◌||◌, false};

/// Whether a datagram was sent or handed out since that was asked last.
#[derive(Clone, Copy)]
pub(crate) struct Traffic {
    has_carried: bool,
}

impl Traffic {
    /// Nothing was carried yet.
    pub(crate) fn none() -> Traffic
        ensures { result.has_carried ≡ false }
    {
        Traffic { has_carried: false }
    }

    /// Something was carried now, or nothing was.
    pub(crate) fn note(&mut self, is_carried: bool)
        ensures { self.new.has_carried ≡ (self.old.has_carried || is_carried) }
    {
        self.has_carried = self.has_carried || is_carried;
    }

    /// Whether something was carried since this was asked last.
    pub(crate) fn take(&mut self) -> bool
        ensures told { result ≡ self.old.has_carried }
        ensures anew { self.new.has_carried ≡ false }
    {
        let before = self.has_carried;
        self.has_carried = false;
        before
    }
}
