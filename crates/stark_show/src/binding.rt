//! How tightly expressions bind.
ghost use Rattle.std.specs.Prelude.{◌≡◌};
ghost use Rattle.stark_show.specs.Expressions.{strength};

/// How tightly the outermost operation of an expression binds, the loosest first.
#[derive(Clone, Copy, Debug)]
pub enum Binding {
    /// A sum or a difference.
    Additive,
    /// A product.
    Multiplicative,
    /// A negation.
    Prefix,
    /// An expression without operands.
    Leaf,
}

impl Binding {
    /// How tightly it binds: the greater number binds its operands first.
    pub(crate) fn strength(self) -> u8
        ensures { result ≡ strength self }
    {
        match self {
            Binding::Additive => 0,
            Binding::Multiplicative => 1,
            Binding::Prefix => 2,
            Binding::Leaf => 3,
        }
    }
}
