//! Words for commands that are told step by step, with their laws; there is no code.
//!
//! A command reads an input and goes on by what it is (`reads_then`), reads the files of a list within one limit
//! (`reads_each`), is refused (`refuses`), fills files turn by turn (`fills`), or fills them while it reads a source
//! (`feeds`). Each step is a `Behaviour`: its calls, what it leaves, which status is owed and which faults there are. Read
//! `specs/Steps.antt`. The laws that matter are in proofs/: what has to be known of a step follows from what is known of
//! its rest, so that a command's promise is read off its steps.
#![tactic(auto)]
