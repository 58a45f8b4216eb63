//! The visits that a worker has left.

ghost use Rattle.std.specs.Prelude.{◌≡◌, ◌<◌, ◌+◌, None, IfSome, true, false};

#[derive(Clone, Copy, Debug, PartialEq, Eq)]
pub(crate) struct Budget {
    left: u64,
    pub has_limit: bool,
}

impl Budget {
    /// A budget of this number of visits, or without a limit.
    pub(crate) fn new(visits: Option<u64>) -> Budget
        ensures limit { visits ≡ None → result.has_limit ≡ false }
        ensures left { IfSome visits (λ count. result.left ≡ count) }
    {
        Budget {
            left: visits.unwrap_or(u64::MAX),
            has_limit: visits.is_some(),
        }
    }

    pub(crate) fn left(&self) -> u64 {
        self.left
    }

    /// The visits made, if there is no limit.
    pub(crate) fn made(&self) -> u64 {
        u64::MAX - self.left
    }

    #[inline(always)]
    pub(crate) fn is_spent(&mut self) -> bool
        ensures limit { self.new.has_limit ≡ self.old.has_limit }
        ensures spent { result ≡ true → self.old.has_limit ≡ true }
        ensures none { result ≡ true → self.old.left ≡ 0 }
        ensures some { result ≡ false → 0 < self.new.left }
        ensures stays { self.old.has_limit ≡ true → self.new ≡ self.old }
    {
        if self.left > 0 {
            return false;
        }
        self.ends()
    }

    /// Tells if there is a limit; otherwise renews the visits.
    #[inline(never)]
    fn ends(&mut self) -> bool
        ensures limit { self.new.has_limit ≡ self.old.has_limit }
        ensures spent { result ≡ self.old.has_limit }
        ensures some { result ≡ false → 0 < self.new.left }
        ensures stays { self.old.has_limit ≡ true → self.new ≡ self.old }
    {
        if !self.has_limit {
            self.left = u64::MAX;
        }
        self.has_limit
    }

    /// Counts a visit.
    #[inline(always)]
    pub(crate) fn spend(&mut self)
        requires { 0 < self.old.left }
        ensures limit { self.new.has_limit ≡ self.old.has_limit }
        ensures spends { self.new.left + 1 ≡ self.old.left }
    {
        self.left -= 1;
    }
}
