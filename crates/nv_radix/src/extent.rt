//! An extent of a map from pages to blocks.

ghost use Rattle.std.specs.Prelude.{◌≡◌, ◌+◌, ◌↔◌, IsTrue};

/// `count` pages from `page` on, which map to as many blocks from `block` on.
#[derive(Clone, Copy, Debug, PartialEq, Eq)]
pub struct Extent {
    /// The first page.
    pub page: u64,
    /// The number of pages, and of blocks.
    pub count: u64,
    /// The block of the first page.
    pub block: u64,
}

impl Extent {
    /// Whether the extent would go on with this page and this block.
    pub(crate) fn is_followed_by(&self, page: u64, block: u64) -> bool
        ensures { IsTrue result ↔ ((self.now.page + self.now.count ≡ page) × (self.now.block + self.now.count ≡ block)) }
    {
        page.checked_sub(self.page) == Some(self.count)
            && block.checked_sub(self.block) == Some(self.count)
    }
}
