//! Laws of the numbers of macros and of loops that may be called again: what a declaration makes is found under its number, with its
//! own body. The functions do nothing: each stands for the law in its contract.

ghost use Rattle.template_compiler_walk.specs.NumberLaws.{CallersFindTheirBodies, LoopsFindTheirRounds, MacrosFindTheirBodies};

/// The number that a walk gives to a macro that it makes is that of its own body, arguments and defaults, wherever in a tree it is
/// declared; so it is of the body of a call block.
pub fn macros_find_their_bodies()
    ensures macros { MacrosFindTheirBodies }
    ensures callers { CallersFindTheirBodies }
{}

/// The number that a walk gives to a loop that it opens is that of its own target, body and else part.
pub fn loops_find_their_rounds()
    ensures { LoopsFindTheirRounds }
{}
