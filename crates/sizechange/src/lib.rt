// The theorems about size-change graphs, each as the contract of a function: the code is nothing, the proof is all.
#![tactic(auto)]

ghost use Rattle.sizechange.specs.Theorems.{NoEndlessChain, FiniteWays, ClosedIsAll, DifferentAreFewer, OneNumber, Decided};

// With the reason no chain of states is endless.
pub fn no_endless_chain()
    ensures { NoEndlessChain }
{}

// There is a list of all ways.
pub fn finite_ways()
    ensures { FiniteWays }
{}

// A closed list of different ways is all of them.
pub fn closed_is_all()
    ensures { ClosedIsAll }
{}

// The number of ways is a fact about the call graph, and no list of different ways is longer.
pub fn one_number()
    ensures { DifferentAreFewer × OneNumber }
{}

// From the list of all ways it is decided whether there is the reason.
pub fn decided()
    ensures { Decided }
{}
