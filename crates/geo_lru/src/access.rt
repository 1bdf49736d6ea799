//! What was seen of an item.
ghost use Rattle.std.specs.Prelude.{◌≡◌, true, false};
ghost use Rattle.geo_lru.specs.Lists.{unseen, touched, moved};

/// The two bits that memcached keeps of an item's hits.
#[derive(Clone, Copy, Debug, PartialEq, Eq)]
pub struct Access {
    /// FETCHED: the item was hit since it came.
    pub fetched: bool,
    /// ACTIVE: it was hit again, after its first hit and since it last moved.
    pub active: bool,
}

impl Access {
    /// The bits of an item that has just come.
    pub(crate) fn unseen() -> Access
        ensures { result ≡ unseen }
    {
        Access {
            fetched: false,
            active: false,
        }
    }

    /// The bits after one more hit.
    pub(crate) fn touched(self) -> Access
        ensures { result ≡ touched self }
    {
        if self.fetched {
            Access {
                active: true,
                ..self
            }
        } else {
            Access {
                fetched: true,
                ..self
            }
        }
    }

    /// Whether one more hit makes it active.
    pub(crate) fn wakes(self) -> bool
        ensures idle { result ≡ true → self.active ≡ false }
        ensures active { result ≡ true → (touched self).active ≡ true }
        ensures kept { result ≡ false → (touched self).active ≡ self.active }
    {
        self.fetched && !self.active
    }

    /// The bits after a move.
    pub(crate) fn moved(self) -> Access
        ensures { result ≡ moved self }
    {
        Access {
            active: false,
            ..self
        }
    }
}
