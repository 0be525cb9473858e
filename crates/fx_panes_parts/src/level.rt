//! A level up to which caps are filled. It stands below the shares.
ghost use Rattle.std.specs.Prelude.{◌≡◌, ℕ, ◌≤◌, List, ◌∷◌};
ghost use Rattle.fx_share.specs.Levels.{levelled};

/// Each cap is filled up to the level, and so many of the first that are above it by one more.
#[derive(Clone, Copy, PartialEq, Eq, Debug)]
pub struct Level {
    pub level: u32,
    pub more: u64,
}

impl Level {
    /// What the next part of the share is, under its cap.
    pub fn give(&mut self, cap: u64) -> u64
        ensures next { (caps : List ℕ) → levelled self.old.level self.old.more (cap ∷ caps)
            ≡ result ∷ levelled self.new.level self.new.more caps }
        ensures most { result ≤ cap }
    {
        let level = u64::from(self.level);
        if cap <= level {
            cap
        } else if self.more > 0 {
            self.more -= 1;
            level + 1
        } else {
            level
        }
    }
}
