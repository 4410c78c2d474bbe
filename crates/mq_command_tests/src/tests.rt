//! What the words of a command line ask for, in examples, and the texts that answer them.

mod words;
