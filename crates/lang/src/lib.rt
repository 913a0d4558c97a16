// The theorems about the language, each as the contract of a function: the code is nothing, the proof is all.
#![tactic(auto)]

ghost use Rattle.lang.specs.Ackermann.{Worked};
ghost use Rattle.lang.specs.Laws.{Laws};
ghost use Rattle.lang.specs.Theorems.{AlwaysEnds, HasAValue, EveryExpressionEnds, OneOutcome, OneDerivation, Finite, OneProgram, OneList, OneCircle};

// A program with the reason ends, whatever it is called with, whatever depth and room it has.
pub fn always_ends()
    ensures { AlwaysEnds }
{}

// With enough depth and room it gives a value, and with more the same.
pub fn has_a_value()
    ensures { HasAValue }
{}

// Every well-formed expression has an outcome, in every environment, mode, depth and room.
pub fn every_expression_ends()
    ensures { EveryExpressionEnds }
{}

// A call does one thing at most; of an expression, the number of rules is one too.
pub fn one_outcome()
    ensures { OneOutcome × OneDerivation }
{}

// The ways along a program's calls are finitely many.
pub fn finite()
    ensures { Finite }
{}

// The worked facts about Ackermann's function.
pub fn ackermann()
    ensures { Worked }
{}

// Bytes are the writing of at most one program.
pub fn one_program()
    ensures { OneProgram }
{}

// Bytes are the writing of at most one list of trees.
pub fn one_list()
    ensures { OneList }
{}

// The laws that hold the definitions to what is said of them.
pub fn laws_hold()
    ensures { Laws }
{}

// A program has one first circle at most.
pub fn one_circle()
    ensures { OneCircle }
{}
