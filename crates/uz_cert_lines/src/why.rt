//! Why a text is refused.

ghost use Rattle.std.specs.Prelude.{◌≡◌};
ghost use Rattle.uz_cert_lines.specs.WhyNames.{cert_why_name};

/// Why a text is refused. The numbers are the places of the variants, counted from 1.
#[derive(Clone, Copy, Debug)]
pub enum CertWhy {
    /// 1: line 1 isn't the head.
    Head,
    /// 2: a fixed word, the number of words or an item's form is wrong.
    Word,
    /// 3: a number isn't spelled as one.
    Number,
    /// 4: something isn't rising, a default is written, or a run has the kind of the run before.
    Order,
    /// 5: a number is out of its limits.
    Limit,
    /// 6: a kind, point or cell isn't there.
    Unknown,
    /// 7: the text ends before its last line or goes on after it.
    NoEnd,
    /// 8: there wasn't enough memory.
    Memory,
}

impl CertWhy {
    /// The name, as it is printed.
    pub fn name(self) -> &'static str
        ensures { result.now ≡ cert_why_name self }
    {
        match self {
            CertWhy::Head => "Head",
            CertWhy::Word => "Word",
            CertWhy::Number => "Number",
            CertWhy::Order => "Order",
            CertWhy::Limit => "Limit",
            CertWhy::Unknown => "Unknown",
            CertWhy::NoEnd => "NoEnd",
            CertWhy::Memory => "Memory",
        }
    }
}
