//! Laws of sources. Each is the contract of a function that does nothing.
ghost use Rattle.std.specs.Prelude.{List};
ghost use Rattle.sed_lexer.specs.Token.{Token};
ghost use Rattle.sed_body_laws.specs.NestedBodies.{HasShallowBodies};
ghost use Rattle.sed_parser.specs.Derives.{Derives};
ghost use Rattle.sed_units.specs.declared.classes.Unit.{Unit as TheUnit};

/// In a unit that tokens derive each method's body is shallow.
pub fn derived_bodies_are_shallow()
    ensures { (tokens : List Token) (u : TheUnit) → Derives tokens u → HasShallowBodies u }
{}
