// The lines of a text: what each says, and where labels are given.
#![tactic(auto)]

ghost use Rattle.source.specs.Promise.{Unique, Exact};

pub mod each_line; // each_line.rt: the lines of a text, one after another
pub mod reading; // reading.rt: one line
pub mod seeking; // seeking.rt: a label, by its name
pub mod walking; // walking.rt: from line to line

// What is proved of lines. The functions do nothing: their promises are the theorems, so that nobody drops one unseen.
pub fn unique_theorems()
    ensures { Unique }
{}

pub fn exact_theorems()
    ensures { Exact }
{}
