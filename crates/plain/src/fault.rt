//! Why a line is no call.
ghost use Rattle.std.specs.Prelude.{◌≡◌};
ghost use Rattle.plain.specs.Words.{name_of};

use std::fmt;

/// The fields of a call that stand behind their names.
#[derive(Clone, Copy)]
pub enum Name {
    Trader,
    Order,
    Price,
    Displayed,
    Reserve,
    End,
    Time,
    Reference,
}

#[derive(Clone, Copy)]
pub enum TextFault {
    /// No call has that name.
    Call,
    /// The name of this field was expected.
    Missing(Name),
    /// What stands behind the name is no value of this field.
    Value(Name),
    /// The side was expected.
    Side,
    /// The order's type was expected.
    OrderType,
    /// Something follows the last field.
    More,
}

impl Name {
    /// The word that stands before the field.
    pub fn text(self) -> &'static str
        ensures { result.now ≡ name_of self }
    {
        match self {
            Name::Trader => "trader",
            Name::Order => "order",
            Name::Price => "price",
            Name::Displayed => "displayed",
            Name::Reserve => "reserve",
            Name::End => "end",
            Name::Time => "time",
            Name::Reference => "reference",
        }
    }
}

impl fmt::Display for Name {
    fn fmt<W: fmt::Write>(&self, f: &mut fmt::Formatter<W>) -> fmt::Result {
        f.write_str(self.text())
    }
}

impl fmt::Display for TextFault {
    fn fmt<W: fmt::Write>(&self, f: &mut fmt::Formatter<W>) -> fmt::Result {
        match self {
            TextFault::Call => f.write_str("no call has that name"),
            TextFault::Missing(name) => write!(f, "{name} was expected"),
            TextFault::Value(name) => write!(f, "no value of {name}"),
            TextFault::Side => f.write_str("bid or offer was expected"),
            TextFault::OrderType => f.write_str("FaS, FaK or FaKI was expected"),
            TextFault::More => f.write_str("something follows the call"),
        }
    }
}
