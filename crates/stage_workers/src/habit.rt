//! Which work a worker wakes others for.

/// For how many jobs at most a worker wakes nobody where little is left to do.
const MOST_SKIPS: u32 = 63;

/// What a worker saw of its last jobs. Where it was back before anybody else had come, or as somebody had just come, it woke another
/// in vain, and for more and more jobs it wakes nobody where little is left to do meanwhile: it does that itself. Where somebody came
/// and had left the value again, the job was long, and it wakes another for the next one.
#[derive(Drop)]
pub(crate) struct Habit {
    /// For how many jobs it wakes nobody, behind one for which it did.
    skips: u32,
    /// How many of these are left.
    left: u32,
    /// The length of the journal that it gave back as it woke another.
    woke_at: Option<u64>,
}

impl Habit {
    pub fn new() -> Habit {
        Habit {
            skips: 0,
            left: 0,
            woke_at: None,
        }
    }

    /// The worker is back, and the value is away.
    pub fn misses(&mut self) {
        if self.woke_at.is_some() {
            self.woke_at = None;
            self.skip_more();
        }
    }

    /// The worker has the value again, whose journal is of this length.
    pub fn has_back(&mut self, len: u64) {
        let Some(given) = self.woke_at else {
            return;
        };
        self.woke_at = None;
        if len == given {
            self.skip_more();
        } else {
            self.forget();
        }
    }

    // It woke another in vain.
    fn skip_more(&mut self) {
        let skips = self.skips.saturating_mul(2).saturating_add(1);
        self.skips = skips.min(MOST_SKIPS);
        self.left = self.skips;
    }

    /// The next time that little is left to do it wakes another.
    pub fn forget(&mut self) {
        self.skips = 0;
        self.left = 0;
    }

    /// Whether the worker wakes another where little is left to do, as it goes away from a value whose journal is of this length.
    pub fn wakes(&mut self, len: u64) -> bool {
        if self.left > 0 {
            self.left -= 1;
            return false;
        }
        self.woke_at = Some(len);
        true
    }
}
