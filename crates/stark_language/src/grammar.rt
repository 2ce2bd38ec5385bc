//! The grammar of expressions, and what is read of what it spells.
ghost use Rattle.stark_language.specs.Grammar.{EachIsRead};

/// Whatever spells an expression, up to a token with which none goes on, is read as its operations,
/// each after what it works on.
pub fn each_expression_is_read()
    ensures { EachIsRead }
{}
