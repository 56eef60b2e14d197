// Cases that a program reads from its standard input. The functions that read promise how much they answer, and not what they read.
//
// A section begins with the number of the function that its cases are about; an empty line follows. A case begins with its name in a line
// of its own; an empty line in place of a name ends the section. Behind the name stand texts and lists, as the function asks for.
// A text stands in a line of its own: `\r` and `\n` stand for carriage return and line feed, `\60001xc` for 60,001 times c.
// Lists stand one behind the other, each behind its length, up to an empty line: 13x99 stands for 13 times 99. Words without digits may
// stand between the numbers, and say what they are.
#![tactic(auto)]

mod input;
mod lists;

pub use input::{next_case, numbers, text};
pub use lists::{filled, list};
