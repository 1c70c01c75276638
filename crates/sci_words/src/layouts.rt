//! Where the fields of a word lie.
ghost use Rattle.std.specs.Prelude.{◌≡◌, ◌+◌, ◌-◌, ◌*◌, ◌^◌, ◌<◌, ◌/◌, ◌⊎◌};
ghost use Rattle.sci_words.specs.Layout.{field, link_width, no_link, forward_field, back_field};

/// A field of a word: `width` bits from bit `from` on.
#[derive(Clone, Copy)]
pub(crate) struct Field {
    pub from: u32,
    pub width: u32,
}

impl Field {
    /// The number in this field.
    #[inline(always)]
    pub(crate) fn read(self, word: u64) -> u64
        requires from { self.from < 64 }
        requires width { self.width < 64 }
        ensures { result ≡ field self.from self.width word }
    {
        (word >> self.from) % (1 << self.width)
    }

    /// The word with this number in this field, and 0 elsewhere.
    #[inline(always)]
    pub(crate) fn write(self, number: u64) -> u64
        requires from { self.from < 64 }
        requires fits { 2 ^ self.from * number < 2 ^ 64 }
        ensures { result ≡ 2 ^ self.from * number }
    {
        number << self.from
    }
}

/// Where the fields of tags and memory words lie. The two layouts differ in the width of links alone.
#[derive(Clone, Copy, Debug, PartialEq, Eq)]
pub enum Layout {
    /// Layout 1, with links of 8 bits: that of old dumps.
    One,
    /// Layout 2, with links of 16 bits: that of memory and of new dumps.
    Two,
}

impl Layout {
    /// A tag's kind, or memory's state.
    pub(crate) const KIND: Field = Field { from: 0, width: 4 };
    /// Whether a tag is held, or memory's bytes are lent.
    pub(crate) const HELD: Field = Field { from: 4, width: 1 };

    /// How many bits a link has.
    #[inline(always)]
    pub(crate) fn link_width(self) -> u32
        ensures width { result ≡ link_width self }
        ensures either { (result ≡ 8) ⊎ (result ≡ 16) }
    {
        match self {
            Layout::One => 8,
            Layout::Two => 16,
        }
    }

    /// The number that stands for no link: the greatest that its field has.
    #[inline(always)]
    pub(crate) fn no_link(self) -> u64
        ensures number { result ≡ no_link self }
        ensures below { result < 65536 }
    {
        match self {
            Layout::One => 255,
            Layout::Two => 65535,
        }
    }

    /// The spare bits between the held bit and the links. They are 0.
    #[inline(always)]
    pub(crate) fn gap(self, word: u64) -> u64
        ensures { result ≡ field 5 (link_width self - 5) word }
    {
        let gap = Field {
            from: 5,
            width: self.link_width() - 5,
        };
        gap.read(word)
    }

    /// The number of the forward link.
    #[inline(always)]
    pub(crate) fn forw(self, word: u64) -> u64
        ensures number { result ≡ forward_field self word }
        ensures below { result < 2 ^ link_width self }
    {
        self.forw_field().read(word)
    }

    /// The number of a tag's back link.
    #[inline(always)]
    pub(crate) fn back(self, word: u64) -> u64
        ensures number { result ≡ back_field self word }
        ensures below { result < 2 ^ link_width self }
    {
        self.back_field().read(word)
    }

    /// The word with this number as forward link, and 0 elsewhere.
    #[inline(always)]
    pub(crate) fn write_forw(self, number: u64) -> u64
        requires { number < 2 ^ link_width self }
        ensures { result ≡ 2 ^ link_width self * number }
    {
        self.forw_field().write(number)
    }

    /// The word with this number as back link, and 0 elsewhere.
    #[inline(always)]
    pub(crate) fn write_back(self, number: u64) -> u64
        requires { number < 2 ^ link_width self }
        ensures { result ≡ 2 ^ (2 * link_width self) * number }
    {
        self.back_field().write(number)
    }

    /// What lies behind a tag's fields. It is 0.
    #[inline(always)]
    pub(crate) fn behind_tag(self, word: u64) -> u64
        ensures { result ≡ word / 2 ^ (3 * link_width self) }
    {
        word >> (3 * self.link_width())
    }

    /// What lies behind a memory word's fields. It is 0.
    #[inline(always)]
    pub(crate) fn behind_mem(self, word: u64) -> u64
        ensures { result ≡ word / 2 ^ (2 * link_width self) }
    {
        word >> (2 * self.link_width())
    }

    #[inline(always)]
    fn forw_field(self) -> Field
        ensures from { result.from ≡ link_width self }
        ensures width { result.width ≡ link_width self }
    {
        Field {
            from: self.link_width(),
            width: self.link_width(),
        }
    }

    #[inline(always)]
    fn back_field(self) -> Field
        ensures from { result.from ≡ 2 * link_width self }
        ensures width { result.width ≡ link_width self }
    {
        Field {
            from: 2 * self.link_width(),
            width: self.link_width(),
        }
    }
}
